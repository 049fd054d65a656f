use crate::tests::changing::{Changing, GONE, SHORTER, TOO_LARGE};
use cv_base::{Digest, Seq};
use cv_desk_wrappers::Faulty;
use cv_facts::{IndexError, Shape, index_layer};
use std::alloc::Global;
use std::test::Fail;

/// An entry: its path, which ends with a slash if it is a folder, and the text of a file.
type Row = (&'static str, &'static str);

/// Whiteouts, opaque marks and reserved entries, in the folder of status files and elsewhere.
const MARKS: &[Row] = &[
    (".wh..wh.plnk/", ""),
    (".wh.z", ""),
    ("etc/", ""),
    ("etc/.wh.os-release", "old"),
    ("var/", ""),
    ("var/lib/", ""),
    ("var/lib/dpkg/", ""),
    ("var/lib/dpkg/status.d/", ""),
    ("var/lib/dpkg/status.d/.wh..wh..opq", "o"),
    ("var/lib/dpkg/status.d/.wh..wh.aufs", "r"),
    ("var/lib/dpkg/status.d/.wh.base", "w"),
    ("var/lib/dpkg/status.d/a.md5sums", "m"),
    (
        "var/lib/dpkg/status.d/tz",
        "Package: tz\nStatus: install ok installed\nVersion: 1\nArchitecture: all\n",
    ),
];

/// Files that are shorter, gone and too large when they are read, and one that is not read.
const CHANGED: &[Row] = &[
    ("etc/", ""),
    ("etc/os-release", SHORTER),
    ("notes", SHORTER),
    ("usr/", ""),
    ("usr/lib/", ""),
    ("usr/lib/apk/", ""),
    ("usr/lib/apk/db/", ""),
    ("usr/lib/apk/db/installed", GONE),
    ("usr/lib/os-release", TOO_LARGE),
];

/// The metadata of a Python package.
const PYTHON: &[Row] = &[
    ("p/", ""),
    ("p/a-1.dist-info/", ""),
    ("p/a-1.dist-info/METADATA", "Name: a\nVersion: 1\n"),
];

/// The same folder, with metadata of the same size.
const OTHER_PYTHON: &[Row] = &[
    ("p/", ""),
    ("p/a-1.dist-info/", ""),
    ("p/a-1.dist-info/METADATA", "Name: b\nVersion: 1\n"),
];

/// Layers with their seals, which Python's hashlib gave for bytes that another program made by the rule, and the files that are
/// read of them.
const LAYERS: &[(&[Row], &str, &str)] = &[
    (
        &[("a/", "")],
        "sha256:ab301359639706a9e0932821554d9247436bc5c0f55eb269ba171e8f2e31a57d",
        "[]",
    ),
    (
        MARKS,
        "sha256:997a9a7e9f672df59156a30a2204fc77f574a4e87544d2e3da07c3e5614dabc4",
        r#"["var/lib/dpkg/status.d/.wh..wh..opq", "var/lib/dpkg/status.d/.wh..wh.aufs", "var/lib/dpkg/status.d/.wh.base", "var/lib/dpkg/status.d/tz"]"#,
    ),
    (
        CHANGED,
        "sha256:194be6023e2dbb766d2db102d39d39209db6f9d00f85ccf8f8ba3b913febaa5e",
        r#"["etc/os-release", "usr/lib/apk/db/installed", "usr/lib/os-release"]"#,
    ),
    (
        PYTHON,
        "sha256:b7cf3cb8f55398ea1205916868577c86c223fe07123534287aacc5b49af75793",
        r#"["p/a-1.dist-info/METADATA"]"#,
    ),
    (
        OTHER_PYTHON,
        "sha256:b7cf3cb8f55398ea1205916868577c86c223fe07123534287aacc5b49af75793",
        r#"["p/a-1.dist-info/METADATA"]"#,
    ),
];

fn layer() -> Digest {
    Digest::of([1; 32])
}

/// The seal that is kept of a layer with these entries, and the files that were read of it.
fn sealed(alloc: Global, rows: &[Row]) -> Result<String, Fail> {
    let mut desk = Changing::of(alloc, layer(), rows)?;
    let facts = index_layer(alloc, &mut desk, layer())?;
    let Shape::Reduced(reduction) = facts.shape() else {
        return Err("rows that are no good tree")?;
    };
    let seal = reduction.seal.text(alloc)?;
    Ok(format!(in alloc; "{} {:?}", seal.as_str(), desk.paths())?)
}

#[test]
fn layers_are_sealed_as_they_are_read(rt: HostRuntime) -> Result<(), Fail> {
    let alloc = rt.alloc();
    for (rows, seal, paths) in LAYERS {
        let want = format!(in alloc; "{seal} {paths}")?;
        assert_eq!(rt; sealed(alloc, rows)?.as_str(), want.as_str());
    }
    Ok(())
}

#[test]
fn a_mark_that_cannot_be_read_is_a_fault_of_the_desk(rt: HostRuntime) -> Result<(), Fail> {
    let alloc = rt.alloc();
    let inner = Changing::of(alloc, layer(), MARKS)?;
    let mut desk = Faulty::new(inner, Seq::of(vec![in alloc; 2]?));
    let facts = index_layer(alloc, &mut desk, layer());
    assert_eq!(rt; facts.err(), Some(IndexError::DeskFault));
    Ok(())
}
