use crate::tests::changing::{Changing, GONE, TOO_LARGE};
use cv_base::{Digest, NoMemory};
use cv_desk::Desk;
use cv_facts::{IndexError, LayerFacts, Reduction, Shape, index_layer};
use std::alloc::Global;
use std::test::Fail;
use test_data::SampleDesk;

/// What is known of the layer of a digest, where there is one layer with these entries, of the digest 1.
fn shape(alloc: Global, digest: u8, rows: &[(&'static str, &str)]) -> Result<String, Fail> {
    let mut desk = Changing::of(alloc, Digest::of([1; 32]), rows)?;
    let facts = index_layer(alloc, &mut desk, Digest::of([digest; 32]))?;
    Ok(shape_text(alloc, facts.shape())?)
}

fn shape_text(alloc: Global, shape: &Shape) -> Result<String, NoMemory> {
    let text = match shape {
        Shape::Reduced(reduction) => format!(in alloc;
            "whiteouts {:?}\nopaques {:?}\ncovers {:?}\nfolders {:?}\nfiles {:?}",
            reduction.whiteouts.as_slice(),
            reduction.opaques.as_slice(),
            reduction.covers.as_slice(),
            reduction.place_dirs.as_slice(),
            reduction.files.as_slice()
        )?,
        _ => format!(in alloc; "{shape:?}")?,
    };
    Ok(text)
}

#[test]
fn marks_and_covers_are_reduced(rt: HostRuntime) -> Result<(), Fail> {
    let alloc = rt.alloc();
    let rows = &[
        (".wh.z", ""),
        ("a/", ""),
        ("a/.wh.x", ""),
        ("etc/", ""),
        ("etc/.wh..wh..opq", ""),
        ("etc/os-release/", ""),
        ("notes", "four"),
    ];
    assert_eq!(rt;
        shape(alloc, 1, rows)?.as_str(),
        r#"whiteouts ["a/x", "z"]
opaques ["etc"]
covers ["notes"]
folders ["etc/os-release"]
files []"#
    );
    Ok(())
}

#[test]
fn package_files_are_reduced(rt: HostRuntime) -> Result<(), Fail> {
    let alloc = rt.alloc();
    let rows = &[
        ("etc/", ""),
        ("etc/os-release", TOO_LARGE),
        ("usr/", ""),
        ("usr/lib/", ""),
        ("usr/lib/apk/", ""),
        ("usr/lib/apk/db/", ""),
        ("usr/lib/apk/db/installed", "bad"),
        ("usr/lib/os-release", "ID=debian\n"),
        ("var/", ""),
        ("var/lib/", ""),
        ("var/lib/dpkg/", ""),
        ("var/lib/dpkg/status", GONE),
    ];
    assert_eq!(rt;
        shape(alloc, 1, rows)?.as_str(),
        r#"whiteouts []
opaques []
covers ["etc/os-release", "usr/lib/apk/db/installed", "usr/lib/os-release", "var/lib/dpkg/status"]
folders []
files [FileFound { path: "etc/os-release", found: TooLarge }, FileFound { path: "usr/lib/apk/db/installed", found: Bad(FileBad { line: 1, what: NoColon }) }, FileFound { path: "usr/lib/os-release", found: Os(OsName { id: Text { inner: "debian" }, version: None }) }]"#
    );
    Ok(())
}

#[test]
fn bad_trees_and_absent_layers_are_answered(rt: HostRuntime) -> Result<(), Fail> {
    let alloc = rt.alloc();
    assert_eq!(rt;
        shape(alloc, 1, &[("a/b", "")])?.as_str(),
        "BadTree(NoParent(0))"
    );
    assert_eq!(rt; shape(alloc, 2, &[])?.as_str(), "NoLayer");
    Ok(())
}

/// Only a type that threads may share is one for which this can be called.
fn is_shared<T: Send + Sync>() {}

/// It holds for all desks that threads may share.
fn facts_are_shared<D: Desk + Send + Sync>() {
    is_shared::<LayerFacts<D>>();
}

#[test]
fn results_are_shared_by_threads() {
    is_shared::<(IndexError, Reduction, Shape)>();
    facts_are_shared::<SampleDesk>();
}
