use crate::flaw::{Flaw, advisory};
use crate::layers::NAMES;
use crate::lines::numbered;
use cv_base::{Advisory, NoMemory, RangeKind, Seq};
use std::alloc::Global;

/// The records of a feed, about packages of Debian 12 that are named `p0`, `p1` and so on.
#[derive(Clone, Copy)]
pub struct FeedRecords {
    /// How many there are.
    pub count: u64,
    /// One of this number is new at each revision, and none if it is 0. The others are as they were at first.
    pub every: u64,
    /// One of this number affects version 1.2 of its package, and none if it is 0.
    pub affecting: u64,
}

impl FeedRecords {
    /// The records at a revision.
    pub fn at_revision(&self, alloc: Global, revision: u64) -> Result<Seq<Advisory>, NoMemory> {
        let mut records = Vec::new(alloc);
        for index in 0..self.count {
            let revision = if is_nth(index, self.every) {
                revision
            } else {
                0
            };
            let fix = fix(is_nth(index, self.affecting), revision);
            records.push(record(alloc, index, revision, fix)?)?;
        }
        Ok(Seq::of(records))
    }
}

fn is_nth(index: u64, every: u64) -> bool {
    every != 0 && index % every == 0
}

/// The version with the fix.
fn fix(affects: bool, revision: u64) -> &'static str {
    if !affects {
        "1.1"
    } else if revision % 2 == 0 {
        "1.5"
    } else {
        "1.6"
    }
}

fn record(alloc: Global, index: u64, revision: u64, fix: &str) -> Result<Advisory, NoMemory> {
    let id = numbered(alloc, "X-", index)?;
    let modified = numbered(alloc, "2024-01-01T00:00:", revision)?;
    let name = numbered(alloc, "p", index % NAMES)?;
    advisory(
        alloc,
        &Flaw {
            id: id.as_str(),
            modified: modified.as_str(),
            withdrawn: false,
            ecosystem: "Debian:12",
            name: name.as_str(),
            kind: RangeKind::Ecosystem,
            ranges: &[("0", Some(fix))],
        },
    )
}
