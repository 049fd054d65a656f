ghost use Rattle.std.specs.Prelude.{◌≡◌, ◌≤◌, ◌<◌, All, length, IfOk};
ghost use Rattle.cv_base.specs.declared.limits.TheConstants.{MAX_LAYERS};

use cv_base::{Digest, NoMemory};
use cv_coalesce::{ImagePackages, coalesce};
use cv_facts::LayerFacts;
use cv_overlay::{ImageFault, TreeFault};
use std::alloc::Global;
use std::test::Fail;
use test_data::{SampleDesk, facts_of, facts_of_rows, package_lines};

/// A status file with one package.
const BASE: [(&str, &str); 4] = [
    ("var/", ""),
    ("var/lib/", ""),
    ("var/lib/dpkg/", ""),
    (
        "var/lib/dpkg/status",
        "Package: libssl3\nStatus: install ok installed\nArchitecture: amd64\nSource: openssl (3.0.9-1)\nVersion: 3.0.9-1+b1\n",
    ),
];

/// Its package.
const PACKAGE: &str =
    "Deb var/lib/dpkg/status libssl3 3.0.9-1+b1 of openssl 3.0.9-1 amd64 unknown\n";

/// The whiteout of the status file.
const WITHOUT: [(&str, &str); 4] = [
    ("var/", ""),
    ("var/lib/", ""),
    ("var/lib/dpkg/", ""),
    ("var/lib/dpkg/.wh.status", ""),
];

/// A mark that names nothing.
const MARKED: [(&str, &str); 1] = [(".wh.", "")];

/// A status file with a line that is none.
const REFUSED: [(&str, &str); 4] = [
    ("var/", ""),
    ("var/lib/", ""),
    ("var/lib/dpkg/", ""),
    ("var/lib/dpkg/status", "nocolon\n"),
];

/// The seals of the base, of the layer without a status file, and of that with a bad line, as Python's hashlib gives them.
const BASE_SEAL: &[u8] = b"sha256:3121939b55189d85e2c1a52a9187c3d53adbd34909c3bd195c653991fe1170ce";

const WITHOUT_SEAL: &[u8] =
    b"sha256:4fcc79abf794287ed8c4f60153ff30777b117acb76cc4474b82ffa080cb516b3";

const REFUSED_SEAL: &[u8] =
    b"sha256:148914ca19b830494b4fe3ec8b02eecba25e63bdf10990207c8aa0be1f337674";

type Facts = Vec<LayerFacts<SampleDesk>>;

/// The facts of the base, of the layer without a status file, of that with a bad mark, of a missing one, and of that with a bad line.
fn facts(alloc: Global) -> Result<Facts, NoMemory>
    ensures { IfOk result (λ facts. length facts.items ≡ 5) }
{
    let base = facts_of_rows(alloc, layer(0), &BASE)?;
    let without = facts_of_rows(alloc, layer(1), &WITHOUT)?;
    let marked = facts_of_rows(alloc, layer(2), &MARKED)?;
    let missing = facts_of(alloc, layer(3), Vec::new(alloc))?;
    let refused = facts_of_rows(alloc, layer(4), &REFUSED)?;
    Ok(vec![in alloc; base, without, marked, missing, refused]?)
}

fn layer(byte: u8) -> Digest {
    Digest::of([byte; 32])
}

/// The packages of an image of which no seal is stated, a line each, or why it has none.
fn packages(alloc: Global, facts: &Facts, image: &[u32]) -> Result<String, NoMemory>
    requires at_most_128_layers { length image.now ≤ MAX_LAYERS }
    requires layers { All (λ layer. layer < length facts.now.items) image.now }
{
    let seals = vec![in alloc; None; image.len()]?;
    match coalesce(alloc, facts, image, &seals)? {
        ImagePackages::Good(packages) => package_lines(alloc, packages.as_slice()),
        ImagePackages::Bad(fault) => Ok(format!(in alloc; "{fault}")?),
    }
}

/// Why an image with these seals has no packages, if it has none.
fn fault(
    alloc: Global,
    facts: &Facts,
    image: &[u32],
    seals: &[Option<Digest>],
) -> Result<Option<ImageFault>, NoMemory>
    requires at_most_128_layers { length image.now ≤ MAX_LAYERS }
    requires layers { All (λ layer. layer < length facts.now.items) image.now }
    requires seals { length seals.now ≡ length image.now }
{
    match coalesce(alloc, facts, image, seals)? {
        ImagePackages::Good(_) => Ok(None),
        ImagePackages::Bad(fault) => Ok(Some(fault)),
    }
}

fn bad_seal(layer: u32, stated: Digest, found: Digest) -> Option<ImageFault> {
    Some(ImageFault::BadSeal {
        layer,
        stated,
        found,
    })
}

#[test]
fn images_have_packages_or_a_fault(rt: HostRuntime) -> Result<(), Fail> {
    let alloc = rt.alloc();
    let facts = facts(alloc)?;
    assert_eq!(rt; packages(alloc, &facts, &[0, 1])?.as_str(), "");
    assert_eq!(rt; packages(alloc, &facts, &[0, 1, 0])?.as_str(), PACKAGE);
    assert_eq!(rt;
        packages(alloc, &facts, &[2, 0, 3])?.as_str(),
        "layer 2 is not there"
    );
    assert_eq!(rt;
        packages(alloc, &facts, &[0, 2])?.as_str(),
        "the tree of layer 1 is not good: entry 0 is a bad mark"
    );
    Ok(())
}

#[test]
fn seals_are_compared_with_their_own_trees(rt: HostRuntime) -> Result<(), Fail> {
    let alloc = rt.alloc();
    let facts = facts(alloc)?;
    let (base, without) = (Digest::read(BASE_SEAL)?, Digest::read(WITHOUT_SEAL)?);
    let both = [Some(base), Some(without)];
    assert_eq!(rt; fault(alloc, &facts, &[0, 1], &both)?, None);
    assert_eq!(rt;
        fault(alloc, &facts, &[0, 1], &[None, Some(without)])?,
        None
    );
    assert_eq!(rt;
        fault(alloc, &facts, &[0, 1], &[None, Some(base)])?,
        bad_seal(1, base, without)
    );
    assert_eq!(rt;
        fault(alloc, &facts, &[1, 0], &both)?,
        bad_seal(0, base, without)
    );
    // one layer that stands twice, with another seal each time
    assert_eq!(rt;
        fault(alloc, &facts, &[0, 0], &both)?,
        bad_seal(1, without, base)
    );
    Ok(())
}

#[test]
fn another_seal_is_named_after_layers_and_before_files(rt: HostRuntime) -> Result<(), Fail> {
    let alloc = rt.alloc();
    let facts = facts(alloc)?;
    let (base, refused) = (Digest::read(BASE_SEAL)?, Digest::read(REFUSED_SEAL)?);
    let other = layer(9);
    let seals = [Some(other), None];
    assert_eq!(rt;
        fault(alloc, &facts, &[0, 3], &seals)?,
        Some(ImageFault::NoLayer(1))
    );
    assert_eq!(rt;
        fault(alloc, &facts, &[0, 2], &seals)?,
        Some(ImageFault::BadTree(1, TreeFault::BadMark(0)))
    );
    assert_eq!(rt;
        fault(alloc, &facts, &[0, 4], &seals)?,
        bad_seal(0, other, base)
    );
    let bad_file = fault(alloc, &facts, &[4], &[Some(refused)])?;
    assert!(rt; matches!(bad_file, Some(ImageFault::BadFile { line: 1, .. })));
    Ok(())
}

/// Only a type that threads may share is one for which this can be called.
fn is_shared<T: Send + Sync>() {}

#[test]
fn threads_may_share_packages_of_images() {
    is_shared::<ImagePackages>();
}
