ghost use Rattle.std.specs.Prelude.{◌≡◌, ◌++◌, [], ◌∷◌, IfOk, OnOk};
ghost use Rattle.std.specs.List.{AllByRecursion, flat_map};
ghost use Rattle.cv_keep_record.specs.Record.{Fits, kept_bytes, work_event};
ghost use Rattle.cv_keep_record.specs.declared.event.WorkKind.TheVariants.{Claim};
ghost use Rattle.cv_keep_rounds.specs.Rounds.{no_layer};
ghost use Rattle.cv_keep_rounds.specs.code.Events.{kept_event, kept_events, worker_event};

use crate::lookup::text_of;
use cv_base::{Digest, NoMemory};
use cv_core_records::{Act, By, EventEntry};
use cv_keep_record::{WorkKind, push_line, push_work};
use cv_serve_dealing::NotedLine;
use cv_transcript::Entry;
use std::alloc::Global;

/// The record of the events of a round with these lines, or no bytes if it has no event.
pub(crate) fn round_bytes(
    alloc: Global,
    noted: &[NotedLine],
    entries: &[Entry],
) -> Result<Vec<u8>, NoMemory>
    ensures bytes { IfOk result (λ bytes. bytes.items ≡ flat_map kept_bytes (kept_events noted.now entries.now)) }
    ensures fit { OnOk result (AllByRecursion Fits (kept_events noted.now entries.now)) }
{
    let mut bytes = Vec::new(alloc);
    for entry in entries {
        push_entry(&mut bytes, noted, entry)?;
    }
    Ok(bytes)
}

/// Appends the event of an entry, if it is one.
fn push_entry(bytes: &mut Vec<u8>, noted: &[NotedLine], entry: &Entry) -> Result<(), NoMemory>
    ensures bytes { OnOk result (bytes.new.items ≡ bytes.old.items ++ flat_map kept_bytes (kept_events noted.now (entry.now ∷ []))) }
    ensures fit { OnOk result (AllByRecursion Fits (kept_events noted.now (entry.now ∷ []))) }
{
    match entry {
        Entry::Event(event) => push_event(bytes, noted, event),
        Entry::Refused { .. } => Ok(()),
        Entry::Read(_) => Ok(()),
    }
}

/// Appends an event.
fn push_event(bytes: &mut Vec<u8>, noted: &[NotedLine], event: &EventEntry) -> Result<(), NoMemory>
    ensures bytes { OnOk result (bytes.new.items ≡ bytes.old.items ++ kept_bytes (kept_event noted.now event.now)) }
    ensures fits { OnOk result (Fits (kept_event noted.now event.now)) }
{
    match event.by {
        By::Lane { lane, line } => {
            push_line(bytes, event.number, lane, line, text_of(noted, line))
        }
        By::Worker(worker) => push_act(bytes, event.number, worker, &event.act),
    }
}

/// Appends what a worker did with a layer.
fn push_act(bytes: &mut Vec<u8>, number: u64, worker: u32, act: &Act) -> Result<(), NoMemory>
    ensures bytes { OnOk result (bytes.new.items ≡ bytes.old.items ++ kept_bytes (worker_event number worker act.now)) }
    ensures fits { OnOk result (Fits (worker_event number worker act.now)) }
{
    match act {
        Act::Claim(layer) => push_work(bytes, number, worker, WorkKind::Claim, layer),
        Act::Indexed(layer) => push_work(bytes, number, worker, WorkKind::Indexed, layer),
        Act::Fault(layer) => push_work(bytes, number, worker, WorkKind::Fault, layer),
        Act::Memory(layer) => push_work(bytes, number, worker, WorkKind::Memory, layer),
        Act::Register(_) => push_other(bytes, number, worker),
        Act::DropImage(_) => push_other(bytes, number, worker),
        Act::Update(_) => push_other(bytes, number, worker),
        Act::Patch(_) => push_other(bytes, number, worker),
        Act::Ack(_) => push_other(bytes, number, worker),
    }
}

/// Appends a claim of no layer.
fn push_other(bytes: &mut Vec<u8>, number: u64, worker: u32) -> Result<(), NoMemory>
    ensures bytes { OnOk result (bytes.new.items ≡ bytes.old.items ++ kept_bytes (work_event number worker Claim no_layer)) }
    ensures fits { OnOk result (Fits (work_event number worker Claim no_layer)) }
{
    let layer = Digest::of([0; 32]);
    push_work(bytes, number, worker, WorkKind::Claim, &layer)
}
