ghost use Rattle.std.specs.Prelude.{◌≡◌, ◌+◌, ◌<◌, ◌^◌, List, [], ◌∷◌, map, option_map, IfNone, IfOk, IfSome};
ghost use Rattle.std.specs.List.{AllByRecursion};
ghost use Rattle.cv_seq.specs.Cause.{CausedBy};
ghost use Rattle.cv_core.specs.Core.{IsSound, act_of};
ghost use Rattle.cv_core_machine.specs.declared.event.MachineEvent.{MachineEvent};
ghost use Rattle.cv_facts.specs.Cause.{is_desk_fault};
ghost use Rattle.cv_keep_record.specs.Record.{AreNumberedFrom, IsRecord};
ghost use Rattle.cv_keep_record.specs.declared.event.KeptEvent.{KeptEvent};
ghost use Rattle.cv_keep_replay.specs.Kept.{HaveActs, by_of, index_count, kept_act, line_act};
ghost use Rattle.cv_keep_replay.specs.code.Ready.{AreFor, IsPrepared, IsReadyRecord, IsWhole, acts_named, named, named_of};
ghost use Rattle.cv_request.specs.Limits.{IsWithinLimits};
ghost use Rattle.cv_serve_legal.specs.Replay.{event_of};

use crate::limits::MAX_WORKERS;
use cv_base::{Digest, NoMemory};
use cv_core::Event;
use cv_core_records::By;
use cv_desk::Desk;
use cv_facts::{IndexError, index_layer};
use cv_keep_record::{KeptBy, KeptEvent, WorkKind, are_numbered, read_record, record_law};
use cv_osv_text::read_request;
use cv_request::{Act, Request};
use std::alloc::Global;

/// A kept event that may be submitted: it is whole, or it is that a worker indexed a layer, whose facts are read before.
pub enum ReadyEvent<D: Desk> {
    Whole(By, Event<D>),
    Index(u32, Digest),
}

impl<D: Desk + Drop> Drop for ReadyEvent<D> {
    fn drop(self) {
        match self {
            ReadyEvent::Whole(_, _) => {}
            ReadyEvent::Index(_, _) => {}
        }
    }
}

impl<D: Desk + Drop> ReadyEvent<D> {
    /// The whole event, with who submits it. If a worker indexed a layer, the layer is listed.
    pub fn whole(self, alloc: Global, desk: &mut D) -> Result<(By, Event<D>), IndexError>
        requires prepared { IsPrepared self }
        requires room { D.listings desk.old < 2 ^ 63 + 2 ^ 62 }
        ensures event { IfOk result (λ found. named found.0 (act_of found.1) ≡ named_of self) }
        ensures sound { IfOk result (λ found. IsSound (act_of found.1)) }
        ensures listed { D.listings desk.new ≡ D.listings desk.old + index_count (acts_named (named_of self ∷ [])) }
        ensures cause { CausedBy (D.faults desk.old) (D.faults desk.new) (is_desk_fault result) }
    {
        match self {
            ReadyEvent::Whole(by, event) => Ok((by, event)),
            ReadyEvent::Index(worker, layer) => {
                let facts = index_layer(alloc, desk, layer)?;
                Ok((By::Worker(worker), Event::Indexed(facts, worker)))
            }
        }
    }
}

/// The events of a record, ready to be submitted after this many. `None` says that it is no record, that its numbers do not go on,
/// or that one of them is no event of the machine.
pub fn ready_record<D: Desk + Drop>(
    alloc: Global,
    bytes: &[u8],
    count: u64,
) -> Result<Option<Vec<ReadyEvent<D>>>, NoMemory>
    ensures found { IfOk result (λ found. IfSome found (λ ready. IsReadyRecord count bytes.now (map named_of ready.items))) }
    ensures prepared { IfOk result (λ found. IfSome found (λ ready. AllByRecursion (λ one. IsPrepared one) ready.items)) }
    ensures none { IfOk result (λ found. IfNone found ((events : List KeptEvent) (acts : List MachineEvent) → IsRecord bytes.now events → AreNumberedFrom count events → HaveActs events acts → ⊥)) }
{
    record_law();
    let Some(events) = read_record(alloc, bytes)? else {
        return Ok(None);
    };
    if !are_numbered(count, events.as_slice()) {
        return Ok(None);
    }
    ready_events(alloc, events.as_slice())
}

/// Kept events, ready to be submitted. `None` says that one of them is no event of the machine.
fn ready_events<D: Desk + Drop>(
    alloc: Global,
    events: &[KeptEvent],
) -> Result<Option<Vec<ReadyEvent<D>>>, NoMemory>
    ensures found { IfOk result (λ found. IfSome found (λ ready. AreFor events.now (map named_of ready.items))) }
    ensures prepared { IfOk result (λ found. IfSome found (λ ready. AllByRecursion (λ one. IsPrepared one) ready.items)) }
    ensures none { IfOk result (λ found. IfNone found ((acts : List MachineEvent) → HaveActs events.now acts → ⊥)) }
{
    let mut ready = Vec::new(alloc);
    for event in events {
        match ready_event(alloc, &event.by)? {
            Some(one) => ready.push(one)?,
            None => return Ok(None),
        }
    }
    Ok(Some(ready))
}

/// A kept event, ready to be submitted, if it is one of the machine.
fn ready_event<D: Desk + Drop>(
    alloc: Global,
    by: &KeptBy,
) -> Result<Option<ReadyEvent<D>>, NoMemory>
    ensures act { IfOk result (λ found. option_map (λ ready. (named_of ready).what) found ≡ kept_act by.now) }
    ensures by { IfOk result (λ found. IfSome found (λ ready. (named_of ready).who ≡ by_of by.now)) }
    ensures prepared { IfOk result (λ found. IfSome found (λ ready. IsPrepared ready)) }
{
    match by {
        KeptBy::Line { lane, line, text } => {
            let by = By::Lane {
                lane: *lane,
                line: *line,
            };
            let event = line_event(alloc, *lane, text.as_slice())?;
            Ok(event.map(|event| ReadyEvent::Whole(by, event)))
        }
        KeptBy::Work {
            worker,
            kind,
            layer,
        } => Ok(work_event(*worker, *kind, *layer)),
    }
}

/// What a worker did with a layer, ready to be submitted, if there may be a worker of this number.
fn work_event<D: Desk + Drop>(worker: u32, kind: WorkKind, layer: Digest) -> Option<ReadyEvent<D>>
    ensures act { option_map (λ ready. (named_of ready).what) result ≡ kept_act (KeptBy.Work worker kind layer) }
    ensures by { IfSome result (λ ready. (named_of ready).who ≡ By.Worker worker) }
    ensures prepared { IfSome result (λ ready. IsPrepared ready) }
{
    if worker >= MAX_WORKERS {
        return None;
    }
    let event = match kind {
        WorkKind::Claim => Event::Claim(layer, worker),
        WorkKind::Indexed => return Some(ReadyEvent::Index(worker, layer)),
        WorkKind::Fault => Event::Fault(layer, worker),
        WorkKind::Memory => Event::Memory(layer, worker),
    };
    Some(ReadyEvent::Whole(By::Worker(worker), event))
}

/// The event of a request line of this lane, if it is one.
#[tactic(auto, unfolding(crate::specs::Kept::line_act))]
fn line_event<D: Desk + Drop>(
    alloc: Global,
    lane: u8,
    text: &[u8],
) -> Result<Option<Event<D>>, NoMemory>
    ensures act { IfOk result (λ found. option_map act_of found ≡ line_act lane text.now) }
    ensures whole { IfOk result (λ found. IfSome found (λ event. IsWhole (act_of event))) }
{
    match read_request(alloc, text) {
        Ok(Request { lane: found, act }) => {
            if found == lane {
                Ok(event_of(act))
            } else {
                Ok(None)
            }
        }
        Err(error) => match error.fault() {
            Some(_) => Ok(None),
            None => Err(NoMemory),
        },
    }
}

/// The event that a request submits, if it submits one.
fn event_of<D: Desk + Drop>(act: Act) -> Option<Event<D>>
    requires within { IsWithinLimits act }
    ensures act { option_map act_of result ≡ event_of act }
    ensures whole { IfSome result (λ event. IsWhole (act_of event)) }
{
    match act {
        Act::Register(manifest) => Some(Event::Register(manifest)),
        Act::DropImage(image) => Some(Event::DropImage(image)),
        Act::Update { feed, records } => Some(Event::Update(feed, records)),
        Act::Patch {
            feed,
            base,
            records,
            remove,
        } => Some(Event::Patch {
            feed,
            base,
            records,
            remove,
        }),
        Act::Report(_) | Act::Page { .. } | Act::List => None,
        Act::Ack(number) => Some(Event::Ack(number)),
    }
}
