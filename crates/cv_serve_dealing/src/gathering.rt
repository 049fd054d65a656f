ghost use Rattle.std.specs.Prelude.{◌≡◌, ◌++◌, map, IfOk};
ghost use Rattle.cv_serve_dealing.specs.declared.lane.Lane.{Lane};

use crate::lane::Lane;
use cv_base::{NoMemory, Seq};
use cv_core_records::ReadEntry;
use cv_transcript::Entry;
use std::alloc::Global;

/// The reads of each lane.
pub fn reads_of(alloc: Global, lanes: Vec<Lane>) -> Result<Seq<Seq<ReadEntry>>, NoMemory>
    ensures { IfOk result (λ reads. reads ≡ map (λ (lane : Lane). lane.reads.items) lanes.items) }
{
    let mut all = Vec::new(alloc);
    for lane in lanes {
        let Lane {
            number: _,
            requested: _,
            reads,
        } = lane;
        all.push(Seq::of(reads))?;
    }
    Ok(Seq::of(all))
}

/// Entries and then others.
pub fn joined(entries: Vec<Entry>, others: Vec<Entry>) -> Result<Vec<Entry>, NoMemory>
    ensures { IfOk result (λ all. all.items ≡ entries.items ++ others.items) }
{
    let mut all = entries;
    for entry in others {
        all.push(entry)?;
    }
    Ok(all)
}
