ghost use Rattle.std.specs.Prelude.{◌≡◌, ◌<◌};

use cv_advdb::Feeds;
use cv_base::{NoMemory, Package, PackageKind, RelPath, Steps, Text};
use cv_findings::match_all;
use std::alloc::Global;
use std::marker::Brand;
use std::sync::ledger::{Blank, Ledger};
use test_data::{FeedRecords, Installed, numbered, package};

/// Makes a number of records a number of times, and counts the last ones.
pub fn make_records(alloc: Global, count: u64, times: u64) -> Result<u64, NoMemory> {
    let sample = records(count, 0);
    let mut made = 0;
    for time in 0..times {
        made = sample.at_revision(alloc, time)?.as_slice().len() as u64;
    }
    Ok(made)
}

/// Makes a feed of a number of records, and then makes and replaces its records a number of times. One of `every` new records differs from
/// the one before, and none if that is 0. Counts the keys that the last replacement touched.
pub fn replace_records(alloc: Global, count: u64, every: u64, times: u64) -> Result<u64, NoMemory> {
    let sample = records(count, every);
    let mut feeds = feeds_of(alloc, sample)?;
    let mut keys = 0;
    for time in 0..times {
        keys = replace(alloc, &mut feeds, sample, time.saturating_add(1))?;
    }
    Ok(keys)
}

/// Matches a number of packages a number of times with a feed of a number of records, and counts the findings of the last time.
pub fn match_packages(
    alloc: Global,
    count: u64,
    packages: u64,
    times: u64,
) -> Result<u64, NoMemory> {
    let feeds = feeds_of(alloc, records(count, 0))?;
    let packages = packages_of(alloc, packages)?;
    count_findings::<Brand>(alloc, Blank::new(1), &feeds, &packages, times)
}

fn count_findings<L: Ledger>(
    alloc: Global,
    blank: Blank,
    feeds: &Feeds,
    packages: &[Package],
    times: u64,
) -> Result<u64, NoMemory>
    requires name { blank.name ≡ L.name }
    requires parts { blank.parts ≡ L.parts }
    requires has_parts { 0 < L.parts }
{
    let mut steps = Steps::<L>::open(blank);
    let mut found = 0;
    for _time in 0..times {
        found = match_all(alloc, packages, feeds, &mut steps)?
            .as_slice()
            .len() as u64;
    }
    Ok(found)
}

fn feeds_of(alloc: Global, sample: FeedRecords) -> Result<Feeds, NoMemory> {
    let mut feeds = Feeds::new(alloc, 1)?;
    replace(alloc, &mut feeds, sample, 0)?;
    Ok(feeds)
}

/// Replaces the records of the feed by those of a revision, and counts the keys that this touches.
fn replace(
    alloc: Global,
    feeds: &mut Feeds,
    sample: FeedRecords,
    revision: u64,
) -> Result<u64, NoMemory> {
    let feed = Text::of(alloc, "feed")?;
    let records = sample.at_revision(alloc, revision)?;
    match feeds.replace(alloc, feed, records) {
        Ok(touched) => Ok(touched.keys.as_slice().len() as u64),
        Err(_) => Err(NoMemory),
    }
}

/// A number of records, of which one of `every` differs from one revision to the next. Every other one affects the packages.
fn records(count: u64, every: u64) -> FeedRecords {
    FeedRecords {
        count,
        every,
        affecting: 2,
    }
}

fn packages_of(alloc: Global, count: u64) -> Result<Vec<Package>, NoMemory> {
    let mut packages = Vec::new(alloc);
    for index in 0..count {
        packages.push(package_of(alloc, index)?)?;
    }
    Ok(packages)
}

fn package_of(alloc: Global, index: u64) -> Result<Package, NoMemory> {
    let name = numbered(alloc, "p", index)?;
    let installed = Installed {
        kind: PackageKind::Deb,
        ecosystem: "Debian:12",
        name: name.as_str(),
        source: name.as_str(),
        version: "1.2",
    };
    package(alloc, &installed, RelPath::top())
}
