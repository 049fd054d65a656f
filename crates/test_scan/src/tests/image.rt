use cv_base::{Digest, Finding, NoMemory, RangeKind, Seq, Text};
use cv_desk_wrappers::Faulty;
use cv_overlay::ImageFault;
use cv_scan_image::{ImageError, scan_layers};
use std::alloc::Global;
use std::test::Fail;
use test_data::{Flaw, SampleDesk, SampleLayer, advisory, finding_lines};

/// A Debian system with one package.
const BASE: [(&str, &str); 6] = [
    ("etc/", ""),
    ("etc/os-release", "ID=debian\nVERSION_ID=\"12\"\n"),
    ("var/", ""),
    ("var/lib/", ""),
    ("var/lib/dpkg/", ""),
    (
        "var/lib/dpkg/status",
        "Package: libssl3\nStatus: install ok installed\nArchitecture: amd64\nSource: openssl (3.0.9-1)\nVersion: 3.0.9-1+b1\n",
    ),
];

/// The whiteout of all that lies below one of its folders.
const WITHOUT: [(&str, &str); 1] = [(".wh.var", "")];

/// Its seal, as Python's hashlib gives it.
const WITHOUT_SEAL: &[u8] =
    b"sha256:29a3d6d97e8316d2284b15a4558e34f3303ae391dbdfce90d729457afbc80d23";

/// A mark that names nothing.
const MARKED: [(&str, &str); 1] = [(".wh.", "")];

/// Debian's package openssl, fixed in 3.0.11-1.
const OPENSSL: Flaw<'static> = Flaw {
    id: "X-1",
    modified: "2024-01-01T00:00:00Z",
    withdrawn: false,
    ecosystem: "Debian:12",
    name: "openssl",
    kind: RangeKind::Ecosystem,
    ranges: &[("0", Some("3.0.11-1"))],
};

/// The layers `b`, `w` and `m`: the base, the whiteout and the mark.
fn layers(alloc: Global) -> Result<Vec<SampleLayer>, NoMemory> {
    let base = SampleLayer::of_rows(alloc, layer(b'b'), &BASE)?;
    let without = SampleLayer::of_rows(alloc, layer(b'w'), &WITHOUT)?;
    let marked = SampleLayer::of_rows(alloc, layer(b'm'), &MARKED)?;
    Ok(vec![in alloc; base, without, marked]?)
}

fn layer(letter: u8) -> Digest {
    Digest::of([letter; 32])
}

/// Scans an image of three layers, of which the middle one has this seal, on a desk whose call of this number fails: its findings, a
/// line each, or why it has none. Calls are numbered from 1, and a scan makes one for each layer that is listed and one for each file
/// that is read.
fn scanned(
    alloc: Global,
    image: [u8; 3],
    seal: Option<Digest>,
    failing: u64,
) -> Result<String, NoMemory> {
    let desk = SampleDesk::of(layers(alloc)?);
    let mut desk = Faulty::new(desk, Seq::of(vec![in alloc; failing]?));
    let feed = Text::of(alloc, "scan")?;
    let records = vec![in alloc; advisory(alloc, &OPENSSL)?]?;
    let [base, middle, upper] = image;
    let layers = [layer(base), layer(middle), layer(upper)];
    let seals = [None, seal, None];
    let found = scan_layers(alloc, &mut desk, &layers, &seals, &feed, &records);
    answer_text(alloc, &found)
}

/// The findings, a line each, or why there are none.
fn answer_text(
    alloc: Global,
    answer: &Result<Seq<Finding>, ImageError>,
) -> Result<String, NoMemory> {
    match answer {
        Ok(findings) => finding_lines(alloc, findings.as_slice()),
        Err(ImageError::Desk(layer)) => desk_failed(alloc, layer),
        Err(ImageError::Bad(ImageFault::BadSeal { layer, found, .. })) => {
            Ok(format!(in alloc;
                "layer {layer} has the seal {}",
                found.text(alloc)?.as_str()
            )?)
        }
        Err(error) => Ok(format!(in alloc; "{error}")?),
    }
}

fn desk_failed(alloc: Global, layer: &Digest) -> Result<String, NoMemory> {
    let [letter, ..] = layer.bytes();
    Ok(format!(in alloc; "the desk failed at {}", char::from(letter))?)
}

#[test]
fn images_are_scanned(rt: HostRuntime) -> Result<(), Fail> {
    let seal = Some(Digest::read(WITHOUT_SEAL)?);
    let other = Some(layer(0));
    for (image, seal, failing, want) in [
        (
            *b"bwb",
            seal,
            5,
            "Deb var/lib/dpkg/status libssl3 3.0.9-1+b1 of openssl 3.0.9-1 amd64 Debian:12: scan X-1, fixed in 3.0.11-1\n",
        ),
        (*b"bwb", None, 4, "the desk failed at w"),
        (*b"mb?", other, 0, "the image is bad: layer 2 is not there"),
        (
            *b"bwb",
            other,
            0,
            "layer 1 has the seal sha256:29a3d6d97e8316d2284b15a4558e34f3303ae391dbdfce90d729457afbc80d23",
        ),
        (
            *b"bwm",
            other,
            0,
            "the image is bad: the tree of layer 2 is not good: entry 0 is a bad mark",
        ),
    ] {
        assert_eq!(rt; scanned(rt.alloc(), image, seal, failing)?.as_str(), want);
    }
    Ok(())
}
