ghost use Rattle.std.specs.Prelude.{◌≡◌, ◌<◌};

use cv_base::{
    Advisory, Affected, NoMemory, Package, PackageKind, PackageName, Range, RangeKind, RelPath,
    Seq, Steps, Text, Turn,
};
use cv_match::{
    FixedAt, Hit, PreparedForKinds, ReadyAdvisory, ReadyPackage, affects, fixed_text, package_keys,
    prepare, prepare_package,
};
use std::alloc::Global;
use std::marker::Brand;
use std::sync::ledger::{Blank, Ledger};
use std::test::Fail;

/// The kind of a package, the ecosystem of a record, the type of its range, the events of the range, the version of the
/// package and the answer: up to the fix and the last affected version; an introduction that outweighs a fix, and has its last
/// version; the least fix above; each kind with its own order and ranges; the ecosystem before the colon; versions of each
/// ecosystem.
const ANSWERS: &str = "\
deb Debian:12 ecosystem introduced=0,fixed=1.5,introduced=2.0,last_affected=2.3 1.4 1.5
deb Debian:12 ecosystem introduced=0,fixed=1.5,introduced=2.0,last_affected=2.3 1.5 no
deb Debian:12 ecosystem introduced=0,fixed=1.5,introduced=2.0,last_affected=2.3 2.3 yes
deb Debian:12 ecosystem introduced=0,fixed=1.5,introduced=2.0,last_affected=2.3 2.3.1 no
deb Debian:12 ecosystem introduced=3.0,fixed=3.0 3.0 yes
deb Debian:12 ecosystem introduced=3.0,last_affected=3.0 3.0 yes
deb Debian:12 ecosystem introduced=3.0,last_affected=3.0 3.1 no
deb Debian:12 ecosystem fixed=4,introduced=1.2,fixed=2.0,fixed=2.00,fixed=1 1.5 2.0
deb Debian:12 ecosystem introduced=0,fixed=1.2.0 1.2.0~rc1 1.2.0
deb Debian:12 semver introduced=0,fixed=1.2.0 1.1.0 no
apk Alpine:v3.18 ecosystem introduced=0,fixed=1.2.0 1.2.0_rc1 1.2.0
apk Alpine:v3.18 ecosystem introduced=0,fixed=1.2.0 1.2.0_p1 no
apk Alpine:v3.18 semver introduced=0,fixed=1.2.0 1.1.0 no
npm npm semver introduced=0,fixed=1.2.0 1.2.0-rc.1 1.2.0
npm npm ecosystem introduced=0,fixed=1.2.0 1.1.9 1.2.0
npm npm semver introduced=0,fixed=1.2.0 1.1 no
npm npm other introduced=0,fixed=1.2.0 1.1.0 no
deb Debian ecosystem introduced=0,fixed=1:1.3 1:1.2.13.dfsg-1 1:1.3
deb Debian:12 ecosystem introduced=0,fixed=1:1.3 1:1.2.13.dfsg-1 1:1.3
deb Debian:11 ecosystem introduced=0,fixed=1:1.3 1:1.2.13.dfsg-1 no
deb Debian:12 ecosystem introduced=0,fixed=3.0.11-1 3.0.9-1 3.0.11-1
apk Alpine:v3.18 ecosystem introduced=0,fixed=3.1.2-r0 3.1.1-r1 3.1.2-r0
npm npm semver introduced=0,fixed=1.0.1 1.0.0 1.0.1
pypi PyPI ecosystem introduced=0,fixed=1.0.post1 1.0 1.0.post1
pypi PyPI ecosystem introduced=0,fixed=1.0 v1.0.0RC1 1.0
pypi PyPI ecosystem introduced=0,fixed=1.0 1.0+abc no
pypi PyPI ecosystem introduced=0,last_affected=2!1 2!1+1 no
pypi PyPI ecosystem introduced=0,fixed=1.0 0.9x no
pypi PyPI semver introduced=0,fixed=1.2.0 1.1.0 no
pypi npm ecosystem introduced=0 1.0 no
";

fn package_kind(word: &str) -> PackageKind {
    match word {
        "deb" => PackageKind::Deb,
        "apk" => PackageKind::Apk,
        "pypi" => PackageKind::Pypi,
        _ => PackageKind::Npm,
    }
}

fn range_kind(word: &str) -> RangeKind {
    match word {
        "ecosystem" => RangeKind::Ecosystem,
        "semver" => RangeKind::Semver,
        _ => RangeKind::Other,
    }
}

fn turn(alloc: Global, word: &str, version: &str) -> Result<Turn, NoMemory> {
    let text = Text::of(alloc, version)?;
    match word {
        "introduced" => Ok(Turn::Introduced(text)),
        "fixed" => Ok(Turn::Fixed(text)),
        "last_affected" => Ok(Turn::LastAffected(text)),
        _ => Ok(Turn::Limit(text)),
    }
}

/// The events stand with commas between, each as `introduced=1.5`.
fn range(alloc: Global, kind: RangeKind, events: &str) -> Result<Range, Fail> {
    let mut turns = Vec::new(alloc);
    for event in events.split(',') {
        let (word, version) = event.split_once('=').ok_or("no version")?;
        turns.push(turn(alloc, word, version)?)?;
    }
    Ok(Range {
        kind,
        turns: Seq::of(turns),
    })
}

/// The source package `a`.
fn package_name(alloc: Global, ecosystem: &str) -> Result<PackageName, NoMemory> {
    Ok(PackageName {
        ecosystem: Text::of(alloc, ecosystem)?,
        name: Text::of(alloc, "a")?,
    })
}

fn entry(alloc: Global, ecosystem: &str, range: Range) -> Result<Affected, NoMemory> {
    Ok(Affected {
        ranges: Seq::of(vec![in alloc; range]?),
        package: Some(package_name(alloc, ecosystem)?),
        versions: Seq::of(Vec::new(alloc)),
    })
}

/// A record with one range about the source package `a`.
fn record(alloc: Global, ecosystem: &str, range: Range) -> Result<Advisory, NoMemory> {
    let affected = vec![in alloc; entry(alloc, ecosystem, range)?]?;
    Ok(Advisory {
        id: Text::of(alloc, "X-1")?,
        modified: Text::of(alloc, "2024-01-01T00:00:00Z")?,
        withdrawn: false,
        affected: Seq::of(affected),
    })
}

fn pair(alloc: Global, (first, second): (&str, &str)) -> Result<(Text, Text), NoMemory> {
    Ok((Text::of(alloc, first)?, Text::of(alloc, second)?))
}

/// A package of a kind and an ecosystem, with its own name and version, and those of its source.
fn package(
    alloc: Global,
    (kind, ecosystem): (PackageKind, &str),
    own: (&str, &str),
    source: (&str, &str),
) -> Result<Package, Fail> {
    let path = RelPath::read(alloc, "lib")?;
    let (name, version) = pair(alloc, own)?;
    let (source, source_version) = pair(alloc, source)?;
    let (arch, ecosystem) = pair(alloc, ("amd64", ecosystem))?;
    Ok(Package {
        kind,
        path,
        name,
        version,
        source,
        source_version,
        arch,
        ecosystem,
    })
}

/// A package of the source `a`, itself named `b`, for deb, apk and pypi, whose source has this version; for npm the package itself
/// is `a` and has it.
fn installed(alloc: Global, kind: PackageKind, version: &str) -> Result<Package, Fail> {
    match kind {
        PackageKind::Deb => package(alloc, (kind, "Debian:12"), ("b", "9"), ("a", version)),
        PackageKind::Apk => package(alloc, (kind, "Alpine:v3.18"), ("b", "9"), ("a", version)),
        PackageKind::Npm => package(alloc, (kind, "npm"), ("a", version), ("b", "9")),
        PackageKind::Pypi => package(alloc, (kind, "PyPI"), ("b", "9"), ("a", version)),
    }
}

/// `no`, `yes`, or the fixed version.
fn hit_text(advisory: &Advisory, hit: Hit) -> &str {
    match hit {
        Hit::No => "no",
        Hit::Yes { fixed: None } => "yes",
        Hit::Yes { fixed: Some(at) } => fixed_text(advisory, at).unwrap_or("lost"),
    }
}

/// What a record answers about a package.
fn answer<L: Ledger>(
    alloc: Global,
    blank: Blank,
    advisory: &Advisory,
    package: &Package,
) -> Result<Text, NoMemory>
    requires name { blank.name ≡ L.name }
    requires parts { blank.parts ≡ L.parts }
    requires has_parts { 0 < L.parts }
{
    let mut steps = Steps::<L>::open(blank);
    let prepared = prepare(alloc, advisory, package.kind)?;
    let package = prepare_package(alloc, package)?;
    let hit = affects(&prepared, &package, &mut steps);
    Text::of(alloc, hit_text(advisory, hit))
}

fn answered(alloc: Global, advisory: &Advisory, package: &Package) -> Result<Text, NoMemory> {
    answer::<Brand>(alloc, Blank::new(1), advisory, package)
}

/// What the record of a row answers about the package. The kind of package has an ecosystem; the record has its own one.
fn row(
    alloc: Global,
    [kind, ecosystem, range_type, events, version]: [&str; 5],
) -> Result<Text, Fail> {
    let package = installed(alloc, package_kind(kind), version)?;
    let range = range(alloc, range_kind(range_type), events)?;
    let record = record(alloc, ecosystem, range)?;
    Ok(answered(alloc, &record, &package)?)
}

/// The words of a row, and its answer.
fn words(line: &str) -> Option<([&str; 5], &str)> {
    let mut words = line.split(' ');
    let row = [
        words.next()?,
        words.next()?,
        words.next()?,
        words.next()?,
        words.next()?,
    ];
    Some((row, words.next()?))
}

#[test]
fn records_answer_for_packages(rt: HostRuntime) -> Result<(), Fail> {
    for line in ANSWERS.lines() {
        let (words, want) = words(line).ok_or("a row has six words")?;
        assert_eq!(rt; row(rt.alloc(), words)?.as_str(), want, "{line}");
    }
    Ok(())
}

fn key_count(alloc: Global, kind: PackageKind) -> Result<usize, Fail> {
    let package = installed(alloc, kind, "1")?;
    let keys = package_keys(alloc, &package)?;
    Ok(keys.as_slice().len())
}

#[test]
fn a_package_has_a_key_for_its_ecosystem_and_one_for_the_part_before_the_colon(
    rt: HostRuntime,
) -> Result<(), Fail> {
    assert_eq!(rt; key_count(rt.alloc(), PackageKind::Deb)?, 2);
    assert_eq!(rt; key_count(rt.alloc(), PackageKind::Npm)?, 1);
    assert_eq!(rt; key_count(rt.alloc(), PackageKind::Pypi)?, 1);
    Ok(())
}

/// Only a type that threads may share is one for which this can be called.
fn is_shared<T: Send + Sync>() {}

#[test]
fn prepared_records_are_shared_by_threads() {
    is_shared::<ReadyAdvisory>();
}

#[test]
fn records_prepared_for_all_kinds_are_shared_by_threads() {
    is_shared::<PreparedForKinds>();
}

#[test]
fn prepared_packages_are_shared_by_threads() {
    is_shared::<(ReadyPackage, Hit, FixedAt)>();
}
