ghost use Rattle.std.specs.Prelude.{◌≡◌, ◌<◌, ◌^◌, ◌++◌, length, IfOk, OnOk};
ghost use Rattle.std.specs.List.{AllByRecursion};
ghost use Rattle.cv_keep_record.specs.Record.{Fits, IsRecord, kept_bytes, kind_byte, line_event, work_event};

use crate::event::{BY_LINE, BY_WORKER, KeptBy, KeptEvent, WorkKind};
use cv_base::{Digest, NoMemory};
use std::alloc::Global;

/// Appends the event of a request line.
pub fn push_line(
    bytes: &mut Vec<u8>,
    number: u64,
    lane: u8,
    line: u64,
    text: &[u8],
) -> Result<(), NoMemory>
    requires { length text.now < 2 ^ 32 }
    ensures bytes { OnOk result (bytes.new.items ≡ bytes.old.items ++ kept_bytes (line_event number lane line text.now)) }
    ensures fits { OnOk result (Fits (line_event number lane line text.now)) }
{
    bytes.extend_from_slice(&number.to_be_bytes())?;
    bytes.extend_from_slice(&[BY_LINE, lane])?;
    bytes.extend_from_slice(&line.to_be_bytes())?;
    bytes.extend_from_slice(&(text.len() as u32).to_be_bytes())?;
    bytes.extend_from_slice(text)?;
    Ok(())
}

/// Appends the event of a worker.
pub fn push_work(
    bytes: &mut Vec<u8>,
    number: u64,
    worker: u32,
    kind: WorkKind,
    layer: &Digest,
) -> Result<(), NoMemory>
    ensures bytes { OnOk result (bytes.new.items ≡ bytes.old.items ++ kept_bytes (work_event number worker kind layer.now)) }
    ensures fits { OnOk result (Fits (work_event number worker kind layer.now)) }
{
    bytes.extend_from_slice(&number.to_be_bytes())?;
    bytes.push(BY_WORKER)?;
    bytes.extend_from_slice(&worker.to_be_bytes())?;
    bytes.push(kind_byte(kind))?;
    bytes.extend_from_slice(&layer.bytes())?;
    Ok(())
}

/// Appends an event.
pub fn push_event(bytes: &mut Vec<u8>, event: &KeptEvent) -> Result<(), NoMemory>
    requires { Fits event.now }
    ensures { OnOk result (bytes.new.items ≡ bytes.old.items ++ kept_bytes event.now) }
{
    match &event.by {
        KeptBy::Line { lane, line, text } => {
            push_line(bytes, event.number, *lane, *line, text.as_slice())
        }
        KeptBy::Work {
            worker,
            kind,
            layer,
        } => push_work(bytes, event.number, *worker, *kind, layer),
    }
}

/// The record of these events.
pub fn record_bytes(alloc: Global, events: &[KeptEvent]) -> Result<Vec<u8>, NoMemory>
    requires some { 0 < length events.now }
    requires fit { AllByRecursion Fits events.now }
    ensures { IfOk result (λ bytes. IsRecord bytes.items events.now) }
{
    let mut bytes = Vec::new(alloc);
    for event in events {
        push_event(&mut bytes, event)?;
    }
    Ok(bytes)
}

fn kind_byte(kind: WorkKind) -> u8
    ensures { result ≡ kind_byte kind }
{
    match kind {
        WorkKind::Claim => 0,
        WorkKind::Indexed => 1,
        WorkKind::Fault => 2,
        WorkKind::Memory => 3,
    }
}
