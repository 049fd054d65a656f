ghost use Rattle.std.specs.Prelude.{◌≡◌, ◌+◌, ◌<◌, ◌≤◌, ◌^◌, [], ◌∷◌, length, map, OnOk};
ghost use Rattle.std.specs.List.{AllByRecursion};
ghost use Rattle.cv_seq.specs.Cause.{CausedBy};
ghost use Rattle.cv_facts.specs.Cause.{is_desk_fault};
ghost use Rattle.cv_keep_replay.specs.code.Alone.{FirstSubmitted, HasRoom, Submitted};
ghost use Rattle.cv_keep_replay.specs.Kept.{index_count};
ghost use Rattle.cv_keep_replay.specs.code.Ready.{IsPrepared, acts_named, named_of};

use crate::ready::ReadyEvent;
use cv_desk::Desk;
use cv_facts::IndexError;
use cv_hub::{Hub, Identity, Seat};
use std::alloc::Global;
use std::sync::Wait;

/// Submits events at the first seat.
pub fn submit_first<D: Desk + Drop, L: Identity, W: Wait>(
    rt: &W,
    alloc: Global,
    hub: &Hub<D, L>,
    seats: &mut [Seat<D, L>],
    desk: &mut D,
    events: Vec<ReadyEvent<D>>,
) -> Result<(), IndexError>
    requires has_seats { 0 < length seats.old }
    requires prepared { AllByRecursion (λ one. IsPrepared one) events.items }
    requires room { HasRoom (D.listings desk.old) seats.old }
    ensures submitted { OnOk result (FirstSubmitted seats.old seats.new (map named_of events.items)) }
    ensures listed { OnOk result (D.listings desk.new ≡ D.listings desk.old + index_count (acts_named (map named_of events.items))) }
    ensures at_most { D.listings desk.new ≤ D.listings desk.old + index_count (acts_named (map named_of events.items)) }
    ensures cause { CausedBy (D.faults desk.old) (D.faults desk.new) (is_desk_fault result) }
{
    match seats.split_first_mut() {
        Some((first, _others)) => submit_all(rt, alloc, hub, first, desk, events),
        None => unreachable!(),
    }
}

/// Submits events at a seat, in order.
fn submit_all<D: Desk + Drop, L: Identity, W: Wait>(
    rt: &W,
    alloc: Global,
    hub: &Hub<D, L>,
    seat: &mut Seat<D, L>,
    desk: &mut D,
    events: Vec<ReadyEvent<D>>,
) -> Result<(), IndexError>
    requires prepared { AllByRecursion (λ one. IsPrepared one) events.items }
    requires room { D.listings desk.old < 2 ^ 62 + length seat.old.list }
    ensures submitted { OnOk result (Submitted seat.old seat.new (map named_of events.items)) }
    ensures listed { OnOk result (D.listings desk.new ≡ D.listings desk.old + index_count (acts_named (map named_of events.items))) }
    ensures at_most { D.listings desk.new ≤ D.listings desk.old + index_count (acts_named (map named_of events.items)) }
    ensures cause { CausedBy (D.faults desk.old) (D.faults desk.new) (is_desk_fault result) }
{
    for event in events {
        submit_one(rt, alloc, hub, seat, desk, event)?;
    }
    Ok(())
}

/// Submits an event at a seat. A layer that is to be indexed is listed first.
fn submit_one<D: Desk + Drop, L: Identity, W: Wait>(
    rt: &W,
    alloc: Global,
    hub: &Hub<D, L>,
    seat: &mut Seat<D, L>,
    desk: &mut D,
    event: ReadyEvent<D>,
) -> Result<(), IndexError>
    requires prepared { IsPrepared event }
    requires room { D.listings desk.old < 2 ^ 62 + length seat.old.list }
    ensures submitted { OnOk result (Submitted seat.old seat.new (named_of event ∷ [])) }
    ensures listed { OnOk result (D.listings desk.new ≡ D.listings desk.old + index_count (acts_named (named_of event ∷ []))) }
    ensures at_most { D.listings desk.new ≤ D.listings desk.old + index_count (acts_named (named_of event ∷ [])) }
    ensures cause { CausedBy (D.faults desk.old) (D.faults desk.new) (is_desk_fault result) }
{
    let _seen = seat.seen().len();
    let (by, event) = event.whole(alloc, desk)?;
    hub.submit(rt, alloc, seat, by, event)?;
    Ok(())
}
