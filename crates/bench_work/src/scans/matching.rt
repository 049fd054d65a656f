ghost use Rattle.std.specs.Prelude.{◌≡◌, ◌<◌, ◌≤◌, IfOk};

use crate::scans::sample::Sample;
use cv_base::{Advisory, NoMemory, Package, RelPath, Steps};
use cv_match::{Hit, ReadyAdvisory, ReadyPackage, affects, prepare, prepare_package};
use std::alloc::Global;
use std::marker::Brand;
use std::sync::ledger::{Blank, Ledger};
use test_data::{Flaw, Installed, advisory, package};

/// Prepares the record of a sample this number of times, and then asks as often whether it affects the package. Counts how often it
/// does.
pub fn match_record(alloc: Global, sample: &Sample, pairs: u64, times: u64) -> Result<u64, NoMemory>
    ensures { IfOk result (λ hits. hits ≤ pairs) }
{
    let record = record(alloc, sample)?;
    for _ in 1..times {
        let _prepared = prepare(alloc, &record, sample.kind)?;
    }
    hits_of(alloc, &record, &installed(alloc, sample)?, pairs)
}

fn hits_of(
    alloc: Global,
    record: &Advisory,
    installed: &Package,
    pairs: u64,
) -> Result<u64, NoMemory>
    ensures { IfOk result (λ hits. hits ≤ pairs) }
{
    let prepared = prepare(alloc, record, installed.kind)?;
    let installed = prepare_package(alloc, installed)?;
    Ok(count_hits::<Brand>(Blank::new(1), &prepared, &installed, pairs))
}

fn count_hits<L: Ledger>(
    blank: Blank,
    prepared: &ReadyAdvisory,
    installed: &ReadyPackage,
    pairs: u64,
) -> u64
    requires name { blank.name ≡ L.name }
    requires parts { blank.parts ≡ L.parts }
    requires has_parts { 0 < L.parts }
    requires kind { prepared.now.kind ≡ installed.now.kind }
    ensures { result ≤ pairs }
{
    let mut steps = Steps::<L>::open(blank);
    let mut hits = 0;
    for _pair in 0..pairs {
        if affects(prepared, installed, &mut steps) != Hit::No {
            hits += 1;
        }
    }
    hits
}

fn record(alloc: Global, sample: &Sample) -> Result<Advisory, NoMemory> {
    let flaw = Flaw {
        id: "X-1",
        modified: "2024-01-01T00:00:00Z",
        withdrawn: false,
        ecosystem: sample.ecosystem,
        name: sample.name,
        kind: sample.order,
        ranges: sample.ranges,
    };
    advisory(alloc, &flaw)
}

fn installed(alloc: Global, sample: &Sample) -> Result<Package, NoMemory> {
    let installed = Installed {
        kind: sample.kind,
        ecosystem: sample.ecosystem,
        name: sample.name,
        source: sample.name,
        version: sample.version,
    };
    package(alloc, &installed, RelPath::top())
}
