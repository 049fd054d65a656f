ghost use Rattle.std.specs.Prelude.{◌≡◌, IfOk, length};

use cv_base::{Digest, NoMemory};
use cv_coalesce::{ImagePackages, coalesce};
use cv_facts::LayerFacts;
use std::alloc::Global;
use std::test::Fail;
use test_data::{SampleDesk, facts_of_rows, package_lines};

/// A layer with two packages, of which one is installed twice.
const PACKAGES: [(&str, &str); 9] = [
    ("opt/", ""),
    ("opt/Foo_Bar-1.0.dist-info/", ""),
    (
        "opt/Foo_Bar-1.0.dist-info/METADATA",
        "Name: Foo.Bar\nVersion: 1.0\n\ntext\n",
    ),
    ("srv/", ""),
    ("srv/Foo_Bar-1.0.dist-info/", ""),
    (
        "srv/Foo_Bar-1.0.dist-info/METADATA",
        "Name: Foo.Bar\nVersion: 1.0\n\ntext\n",
    ),
    ("srv/six.egg-info/", ""),
    (
        "srv/six.egg-info/PKG-INFO",
        "Version: 1.16.0\r\nName: six\r\n",
    ),
    ("srv/six.egg-info/SOURCES.txt", "Name: other\nVersion: 1\n"),
];

const FOUND: &str =
    "Pypi opt/Foo_Bar-1.0.dist-info/METADATA Foo.Bar 1.0 of foo-bar 1.0  PyPI\nPypi srv/Foo_Bar-1.0.dist-info/METADATA Foo.Bar 1.0 of foo-bar 1.0  PyPI\nPypi srv/six.egg-info/PKG-INFO six 1.16.0 of six 1.16.0  PyPI\n";

/// The whiteout of one metadata file, a folder at the place of another, and a file that names no package at the place of the third.
const REPLACED: [(&str, &str); 9] = [
    ("opt/", ""),
    ("opt/Foo_Bar-1.0.dist-info/", ""),
    ("opt/Foo_Bar-1.0.dist-info/.wh.METADATA", ""),
    ("srv/", ""),
    ("srv/Foo_Bar-1.0.dist-info/", ""),
    ("srv/Foo_Bar-1.0.dist-info/METADATA/", ""),
    ("srv/six.egg-info/", ""),
    ("srv/six.egg-info/PKG-INFO", "Version: 1.16.0\n"),
    ("srv/six.egg-info/top_level.txt", "six\n"),
];

/// Files that are no metadata by their places: a folder without a name, and names of files that belong to the other kind of folder.
const ELSEWHERE: [(&str, &str); 9] = [
    (".dist-info/", ""),
    (".dist-info/METADATA", "Name: a\nVersion: 1\n"),
    ("METADATA", "Name: b\nVersion: 1\n"),
    ("c.dist-info/", ""),
    ("c.dist-info/PKG-INFO", "Name: c\nVersion: 1\n"),
    ("d.egg-info/", ""),
    ("d.egg-info/METADATA", "Name: d\nVersion: 1\n"),
    ("e/", ""),
    ("e/METADATA", "Name: e\nVersion: 1\n"),
];

type Facts = Vec<LayerFacts<SampleDesk>>;

fn facts(alloc: Global) -> Result<Facts, NoMemory>
    ensures { IfOk result (λ facts. length facts.items ≡ 3) }
{
    let packages = facts_of_rows(alloc, Digest::of([0; 32]), &PACKAGES)?;
    let replaced = facts_of_rows(alloc, Digest::of([1; 32]), &REPLACED)?;
    let elsewhere = facts_of_rows(alloc, Digest::of([2; 32]), &ELSEWHERE)?;
    Ok(vec![in alloc; packages, replaced, elsewhere]?)
}

/// The packages, a line each, or why there are none.
fn text(alloc: Global, found: &ImagePackages) -> Result<String, NoMemory> {
    match found {
        ImagePackages::Good(packages) => package_lines(alloc, packages.as_slice()),
        ImagePackages::Bad(fault) => Ok(format!(in alloc; "{fault}")?),
    }
}

#[test]
fn python_packages_of_an_image_are_found(rt: HostRuntime) -> Result<(), Fail> {
    let alloc = rt.alloc();
    let facts = facts(alloc)?;
    let found = coalesce(alloc, &facts, &[0, 2], &[None, None])?;
    assert_eq!(rt; text(alloc, &found)?.as_str(), FOUND);
    Ok(())
}

#[test]
fn upper_layers_hide_and_replace_python_packages(rt: HostRuntime) -> Result<(), Fail> {
    let alloc = rt.alloc();
    let facts = facts(alloc)?;
    let replaced = coalesce(alloc, &facts, &[0, 1], &[None, None])?;
    assert_eq!(rt; text(alloc, &replaced)?.as_str(), "");
    let again = coalesce(alloc, &facts, &[1, 0], &[None, None])?;
    assert_eq!(rt; text(alloc, &again)?.as_str(), FOUND);
    Ok(())
}
