ghost use Rattle.std.specs.Prelude.{◌≡◌, ◌<◌};

use cv_advdb::{Feeds, Touched};
use cv_base::{
    Advisory, Affected, Finding, NoMemory, Package, PackageName, Range, RangeKind, Seq, Steps,
    Text, Turn,
};
use cv_findings::{any_touched, match_all, rematch};
use std::alloc::Global;
use std::marker::Brand;
use std::sync::ledger::{Blank, Ledger};
use std::test::Fail;
use test_data::debian_package;

/// All versions before 2.
fn range(alloc: Global) -> Result<Range, NoMemory> {
    let introduced = Turn::Introduced(Text::of(alloc, "0")?);
    let fixed = Turn::Fixed(Text::of(alloc, "2")?);
    Ok(Range {
        kind: RangeKind::Ecosystem,
        turns: Seq::of(vec![in alloc; introduced, fixed]?),
    })
}

fn package_name(alloc: Global, ecosystem: &str, name: &str) -> Result<PackageName, NoMemory> {
    Ok(PackageName {
        ecosystem: Text::of(alloc, ecosystem)?,
        name: Text::of(alloc, name)?,
    })
}

/// An entry about a package that is fixed in version 2.
fn entry(alloc: Global, ecosystem: &str, name: &str) -> Result<Affected, NoMemory> {
    Ok(Affected {
        package: Some(package_name(alloc, ecosystem, name)?),
        ranges: Seq::of(vec![in alloc; range(alloc)?]?),
        versions: Seq::of(Vec::new(alloc)),
    })
}

/// A record about one package under two ecosystems.
fn record(
    alloc: Global,
    id: &str,
    name: &str,
    (first, second): (&str, &str),
) -> Result<Advisory, NoMemory> {
    let affected = vec![in alloc; entry(alloc, first, name)?, entry(alloc, second, name)?]?;
    Ok(Advisory {
        id: Text::of(alloc, id)?,
        modified: Text::of(alloc, "2024-01-01T00:00:00Z")?,
        withdrawn: false,
        affected: Seq::of(affected),
    })
}

/// Feeds of a record each: `b` about curl, and `a` about zlib.
fn feeds(alloc: Global) -> Result<Feeds, Fail> {
    let mut feeds = Feeds::new(alloc, 2)?;
    let curl = record(alloc, "X-1", "curl", ("Debian:12", "Debian"))?;
    add_feed(alloc, &mut feeds, "b", curl)?;
    let zlib = record(alloc, "X-2", "zlib", ("Debian", "Debian:11"))?;
    add_feed(alloc, &mut feeds, "a", zlib)?;
    Ok(feeds)
}

fn add_feed(alloc: Global, feeds: &mut Feeds, name: &str, record: Advisory) -> Result<(), Fail> {
    let records = Seq::of(vec![in alloc; record]?);
    let _touched = feeds.replace(alloc, Text::of(alloc, name)?, records)?;
    Ok(())
}

fn match_counted<L: Ledger>(
    blank: Blank,
    alloc: Global,
    packages: &[Package],
    feeds: &Feeds,
) -> Result<Seq<Finding>, NoMemory>
    requires name { blank.name ≡ L.name }
    requires parts { blank.parts ≡ L.parts }
    requires has_parts { 0 < L.parts }
{
    let mut steps = Steps::<L>::open(blank);
    match_all(alloc, packages, feeds, &mut steps)
}

fn matched(alloc: Global, packages: &[Package], feeds: &Feeds) -> Result<Seq<Finding>, NoMemory> {
    match_counted::<Brand>(Blank::new(1), alloc, packages, feeds)
}

/// The findings of zlib and curl, each with its package, its feed and its advisory.
fn findings(alloc: Global) -> Result<String, Fail> {
    let installed = vec![in alloc;
        debian_package(alloc, "zlib")?,
        debian_package(alloc, "curl")?,
    ]?;
    let feeds = feeds(alloc)?;
    let found = matched(alloc, &installed, &feeds)?;
    let mut names = String::new(alloc);
    for finding in found.as_slice() {
        names.push_str(named(alloc, finding)?.as_str())?;
    }
    Ok(names)
}

fn named(alloc: Global, finding: &Finding) -> Result<String, NoMemory> {
    let (name, feed) = (finding.package.name.as_str(), finding.feed.as_str());
    let advisory = finding.advisory.as_str();
    Ok(format!(in alloc; "{name} {feed} {advisory}\n")?)
}

#[test]
fn packages_are_matched_under_whole_and_short_ecosystems(rt: HostRuntime) -> Result<(), Fail> {
    assert_eq!(rt; findings(rt.alloc())?.as_str(), "curl b X-1\nzlib a X-2\n");
    Ok(())
}

fn match_again<L: Ledger>(
    blank: Blank,
    alloc: Global,
    packages: &[Package],
    before: &[Finding],
    feeds: &Feeds,
    touched: &Touched,
) -> Result<Seq<Finding>, NoMemory>
    requires name { blank.name ≡ L.name }
    requires parts { blank.parts ≡ L.parts }
    requires has_parts { 0 < L.parts }
{
    let mut steps = Steps::<L>::open(blank);
    rematch(alloc, packages, before, feeds, touched, &mut steps)
}

fn matched_again(
    alloc: Global,
    packages: &[Package],
    before: &[Finding],
    feeds: &Feeds,
    touched: &Touched,
) -> Result<Seq<Finding>, NoMemory> {
    match_again::<Brand>(Blank::new(1), alloc, packages, before, feeds, touched)
}

/// The record about zlib goes, one about curl comes, and another one about curl stays in another feed.
#[test]
fn touched_packages_are_matched_again(rt: HostRuntime) -> Result<(), Fail> {
    let alloc = rt.alloc();
    let installed = vec![in alloc;
        debian_package(alloc, "curl")?,
        debian_package(alloc, "zlib")?,
    ]?;
    let mut feeds = feeds(alloc)?;
    let before = matched(alloc, &installed, &feeds)?;
    let another = record(alloc, "X-3", "curl", ("Debian:12", "Debian"))?;
    let touched = feeds.replace(
        alloc,
        Text::of(alloc, "a")?,
        Seq::of(vec![in alloc; another]?),
    )?;
    assert!(rt; any_touched(&touched, &installed));
    let after = matched_again(alloc, &installed, before.as_slice(), &feeds, &touched)?;
    let mut names = String::new(alloc);
    for finding in after.as_slice() {
        names.push_str(named(alloc, finding)?.as_str())?;
    }
    assert_eq!(rt; names.as_str(), "curl a X-3\ncurl b X-1\n");
    Ok(())
}
