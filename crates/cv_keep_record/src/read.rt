ghost use Rattle.std.specs.Prelude.{◌≡◌, ℕ, List, option_map, IfSome, IfNone, IfOk};
ghost use Rattle.cv_keep_record.specs.declared.event.KeptEvent.{KeptEvent};
ghost use Rattle.cv_keep_record.specs.Record.{IsRecord};
ghost use Rattle.cv_keep_record.specs.code.Reading.{by_at, event_at, line_at, work_at};

use crate::event::{BY_LINE, BY_WORKER, KeptBy, KeptEvent};
use crate::fields::{byte_at, digest_at, kind_of, text_at, u32_at, u64_at};
use cv_base::{Digest, NoMemory, Seq};
use std::alloc::Global;

/// The events of a record, or `None` if the bytes are no record.
pub fn read_record(alloc: Global, bytes: &[u8]) -> Result<Option<Seq<KeptEvent>>, NoMemory>
    ensures found { IfOk result (λ found. IfSome found (IsRecord bytes.now)) }
    ensures none { IfOk result (λ found. IfNone found ((events : List KeptEvent) → IsRecord bytes.now events → ⊥)) }
{
    let mut events = Vec::new(alloc);
    let mut rest = bytes;
    while !rest.is_empty() {
        match event_at(alloc, rest)? {
            Some((event, after)) => {
                events.push(event)?;
                rest = after;
            }
            None => return Ok(None),
        }
    }
    if events.is_empty() {
        return Ok(None);
    }
    Ok(Some(Seq::of(events)))
}

/// Bytes are a record of one list of events at most.
pub fn record_law()
    ensures { (bytes : List ℕ) (a b : List KeptEvent) → IsRecord bytes a → IsRecord bytes b → a ≡ b }
{}

/// The event at the front, and the bytes after it.
#[tactic(auto, unfolding(crate::specs::code::Reading::event_at))]
fn event_at(alloc: Global, bytes: &[u8]) -> Result<Option<(KeptEvent, &[u8])>, NoMemory>
    ensures { IfOk result (λ found. option_map (λ x. (x.0, x.1.now)) found ≡ event_at bytes.now) }
{
    let Some((number, rest)) = u64_at(bytes) else {
        return Ok(None);
    };
    match by_at(alloc, rest)? {
        Some((by, rest)) => Ok(Some((KeptEvent { number, by }, rest))),
        None => Ok(None),
    }
}

/// What stands after the number, and the bytes after that.
#[tactic(auto, unfolding(crate::specs::code::Reading::by_at))]
fn by_at(alloc: Global, bytes: &[u8]) -> Result<Option<(KeptBy, &[u8])>, NoMemory>
    ensures { IfOk result (λ found. option_map (λ x. (x.0, x.1.now)) found ≡ by_at bytes.now) }
{
    match bytes {
        [] => Ok(None),
        [BY_LINE, rest @ ..] => line_at(alloc, rest),
        [BY_WORKER, rest @ ..] => Ok(work_at(rest)),
        [_, ..] => Ok(None),
    }
}

/// The fields of a request line, with a copy of it, and the bytes after them.
#[tactic(auto, unfolding(crate::specs::code::Reading::line_at))]
fn line_at(alloc: Global, bytes: &[u8]) -> Result<Option<(KeptBy, &[u8])>, NoMemory>
    ensures { IfOk result (λ found. option_map (λ x. (x.0, x.1.now)) found ≡ line_at bytes.now) }
{
    match line_parts(bytes) {
        Some((lane, line, text, rest)) => {
            let text = Seq::of(text.to_vec(alloc)?);
            Ok(Some((KeptBy::Line { lane, line, text }, rest)))
        }
        None => Ok(None),
    }
}

/// The lane, the line and the request line, and the bytes after them.
#[tactic(auto, unfolding(crate::specs::code::Reading::line_at))]
fn line_parts(bytes: &[u8]) -> Option<(u8, u64, &[u8], &[u8])>
    ensures { option_map (λ x. (KeptBy.Line x.0 x.1 x.2.now, x.3.now)) result ≡ line_at bytes.now }
{
    let (lane, rest) = byte_at(bytes)?;
    let (line, rest) = u64_at(rest)?;
    let (text, rest) = text_at(rest)?;
    Some((lane, line, text, rest))
}

/// The fields of a worker, and the bytes after them.
#[tactic(auto, unfolding(crate::specs::code::Reading::work_at))]
fn work_at(bytes: &[u8]) -> Option<(KeptBy, &[u8])>
    ensures { option_map (λ x. (x.0, x.1.now)) result ≡ work_at bytes.now }
{
    let (worker, rest) = u32_at(bytes)?;
    let (byte, rest) = byte_at(rest)?;
    let kind = kind_of(byte)?;
    let (layer, rest) = digest_at(rest)?;
    let layer = Digest::of(layer);
    Some((
        KeptBy::Work {
            worker,
            kind,
            layer,
        },
        rest,
    ))
}
