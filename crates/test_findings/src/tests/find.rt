use cv_base::{
    Advisory, Affected, Finding, NoMemory, Package, PackageKind, PackageName, Range, RangeKind,
    RelPath, Seq, Text, Turn,
};
use cv_match_feed::find_all;
use std::alloc::Global;
use std::test::Fail;
use test_data::{Installed, package};

/// A package at version 1.0.0, which is that of its source too.
fn installed(
    alloc: Global,
    kind: PackageKind,
    name: &str,
    source: &str,
    ecosystem: &str,
) -> Result<Package, Fail> {
    let installed = Installed {
        kind,
        ecosystem,
        name,
        source,
        version: "1.0.0",
    };
    Ok(package(alloc, &installed, RelPath::read(alloc, "lib")?)?)
}

/// An entry about a package, whose flaw is present from the start and has a fix.
fn entry(alloc: Global, ecosystem: &str, name: &str, fixed: &str) -> Result<Affected, NoMemory> {
    let mut turns = Vec::new(alloc);
    turns.push(Turn::Introduced(Text::of(alloc, "0")?))?;
    turns.push(Turn::Fixed(Text::of(alloc, fixed)?))?;
    let range = Range {
        kind: RangeKind::Ecosystem,
        turns: Seq::of(turns),
    };
    Ok(Affected {
        package: Some(PackageName {
            ecosystem: Text::of(alloc, ecosystem)?,
            name: Text::of(alloc, name)?,
        }),
        ranges: Seq::of(vec![in alloc; range]?),
        versions: Seq::of(Vec::new(alloc)),
    })
}

/// A record with an entry for each row: ecosystem, name and fixed version.
fn record(alloc: Global, id: &str, rows: &[(&str, &str, &str)]) -> Result<Advisory, NoMemory> {
    let mut affected = Vec::new(alloc);
    for (ecosystem, name, fixed) in rows {
        affected.push(entry(alloc, ecosystem, name, fixed)?)?;
    }
    Ok(Advisory {
        id: Text::of(alloc, id)?,
        modified: Text::of(alloc, "2024-01-01T00:00:00Z")?,
        withdrawn: false,
        affected: Seq::of(affected),
    })
}

fn records(
    alloc: Global,
    rows: &[(&str, &[(&str, &str, &str)])],
) -> Result<Vec<Advisory>, NoMemory> {
    let mut out = Vec::new(alloc);
    for (id, entries) in rows {
        out.push(record(alloc, id, entries)?)?;
    }
    Ok(out)
}

/// Each finding as the name of its package, its feed, its id and its fixed version.
fn rows(alloc: Global, found: &[Finding]) -> Result<Vec<Text>, NoMemory> {
    let mut out = Vec::new(alloc);
    for finding in found {
        out.push(finding.package.name.clone()?)?;
        out.push(finding.feed.clone()?)?;
        out.push(finding.advisory.clone()?)?;
        if let Some(fixed) = &finding.fixed {
            out.push(fixed.clone()?)?;
        }
    }
    Ok(out)
}

fn texts(alloc: Global, words: &[&str]) -> Result<Vec<Text>, NoMemory> {
    let mut out = Vec::new(alloc);
    for word in words {
        out.push(Text::of(alloc, word)?)?;
    }
    Ok(out)
}

/// What is found for a Python package, an npm package and a Debian one.
fn found_rows(alloc: Global, given: &[(&str, &[(&str, &str, &str)])]) -> Result<Vec<Text>, Fail> {
    let advisories = records(alloc, given)?;
    let npm = installed(alloc, PackageKind::Npm, "lodash", "zlib", "npm")?;
    let deb = installed(alloc, PackageKind::Deb, "zlib1g", "zlib", "Debian:12")?;
    let pypi = installed(alloc, PackageKind::Pypi, "Foo.Bar", "foo-bar", "PyPI")?;
    let packages = vec![in alloc; pypi, npm, deb]?;
    let feed = Text::of(alloc, "a")?;
    let found = find_all(alloc, packages.as_slice(), &feed, advisories.as_slice())?;
    Ok(rows(alloc, found.as_slice())?)
}

#[test]
fn packages_have_the_findings_of_the_records_that_name_them(rt: HostRuntime) -> Result<(), Fail> {
    let alloc = rt.alloc();
    let releases: [(&str, &[(&str, &str, &str)]); 9] = [
        ("X-3", &[("Debian", "zlib", "3")]),
        ("X-2", &[("Debian:12", "zlib", "2")]),
        ("X-4", &[("Debian:11", "zlib", "2")]),
        ("X-5", &[("Debian:12", "curl", "2")]),
        (
            "X-1",
            &[("Debian", "zlib", "4"), ("Debian:12", "zlib", "5")],
        ),
        ("X-6", &[("npm", "zlib", "2")]),
        ("X-7", &[("npm", "lodash", "4.17.21")]),
        ("X-8", &[("PyPI", "foo-bar", "1.0.0.post1")]),
        ("X-9", &[("PyPI", "Foo.Bar", "2")]),
    ];
    let want = [
        "zlib1g",
        "a",
        "X-1",
        "4",
        "zlib1g",
        "a",
        "X-2",
        "2",
        "zlib1g",
        "a",
        "X-3",
        "3",
        "lodash",
        "a",
        "X-7",
        "4.17.21",
        "Foo.Bar",
        "a",
        "X-8",
        "1.0.0.post1",
    ];
    assert_eq!(rt;
        found_rows(alloc, &releases)?.as_slice(),
        texts(alloc, &want)?.as_slice()
    );
    Ok(())
}

#[test]
fn of_two_records_with_one_id_the_later_stays(rt: HostRuntime) -> Result<(), Fail> {
    let alloc = rt.alloc();
    let one_id: [(&str, &[(&str, &str, &str)]); 2] = [
        ("X-1", &[("Debian:12", "zlib", "2")]),
        ("X-1", &[("Debian", "zlib", "3")]),
    ];
    assert_eq!(rt;
        found_rows(alloc, &one_id)?.as_slice(),
        texts(alloc, &["zlib1g", "a", "X-1", "3"])?.as_slice()
    );
    Ok(())
}

#[test]
fn without_records_nothing_is_found(rt: HostRuntime) -> Result<(), Fail> {
    let alloc = rt.alloc();
    assert_eq!(rt; found_rows(alloc, &[])?.as_slice().len(), 0);
    Ok(())
}
