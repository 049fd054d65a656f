ghost use Rattle.std.specs.Prelude.{◌≡◌, ◌+◌, ◌<◌, ◌≤◌, ◌^◌, List, false, true, length, IfOk};
ghost use Rattle.cv_seq.specs.Cause.{CausedBy};
ghost use Rattle.cv_core_machine.specs.Scans.{StatesEveryLayer, trees_of};
ghost use Rattle.cv_facts.specs.Cause.{is_desk_fault};
ghost use Rattle.cv_hub_seats.specs.Events.{IsReplayed};
ghost use Rattle.cv_hub_seats.specs.Seats.{AreAllReceipts};
ghost use Rattle.cv_keep_record.specs.declared.event.KeptEvent.{KeptEvent};
ghost use Rattle.cv_keep_replay.specs.Good.{IsGoodFrom, moment_of};
ghost use Rattle.cv_keep_replay.specs.code.Alone.{IsAlone, first_list};
ghost use Rattle.cv_keep_replay.specs.code.Record.{AddsRecord, IsResumed, ListsWithin};
ghost use Rattle.cv_serve_legal.specs.Replay.{Moment};

use crate::counts::{generation_after, leaves_claims};
use crate::ready::ready_record;
use crate::resumed::Resumed;
use crate::submit::submit_first;
use cv_core_machine::step_laws;
use cv_desk::Desk;
use cv_facts::IndexError;
use cv_hub::{Hub, Identity, Seat};
use cv_keep_record::record_law;
use std::alloc::Global;
use std::sync::Wait;

/// Submits the events of a record, if it is good. If not, the hub and the seats are not to be used further.
pub fn replay_record<D: Desk + Drop, L: Identity, W: Wait>(
    rt: &W,
    alloc: Global,
    hub: &mut Hub<D, L>,
    seats: &mut [Seat<D, L>],
    desk: &mut D,
    bytes: &[u8],
    resumed: &mut Resumed,
) -> Result<bool, IndexError>
    requires all { length seats.old ≡ L.parts }
    requires alone { IsAlone hub.old seats.old }
    requires replayed { IsReplayed D.tree L.limits hub.old }
    requires resumed { IsResumed D.tree L.limits hub.old resumed.old }
    requires room { D.listings desk.old < 2 ^ 62 + length hub.old }
    ensures added { IfOk result (λ good. good ≡ true → AddsRecord D.tree L.limits bytes.now hub.old hub.new (D.listings desk.old) (D.listings desk.new)) }
    ensures bad { StatesEveryLayer D.tree → IfOk result (λ good. good ≡ false → (events : List KeptEvent) (after : Moment) → IsGoodFrom (trees_of D.tree) (moment_of (trees_of D.tree) L.limits hub.old) bytes.now events after → ⊥) }
    ensures alone { IfOk result (λ good. good ≡ true → IsAlone hub.new seats.new) }
    ensures receipts { IfOk result (λ good. good ≡ true → AreAllReceipts hub.new seats.new) }
    ensures replayed { IfOk result (λ good. good ≡ true → IsReplayed D.tree L.limits hub.new) }
    ensures resumed { IfOk result (λ good. good ≡ true → IsResumed D.tree L.limits hub.new resumed.new) }
    ensures at_most { ListsWithin bytes.now (D.listings desk.old) (D.listings desk.new) }
    ensures cause { CausedBy (D.faults desk.old) (D.faults desk.new) (is_desk_fault result) }
{
    step_laws();
    record_law();
    let Some(events) = ready_record(alloc, bytes, resumed.events)? else {
        return Ok(false);
    };
    submit_first(rt, alloc, hub, seats, desk, events)?;
    let entries = hub.take_events(rt, seats);
    resumed.events = events_seen(seats);
    resumed.generation = generation_after(resumed.generation, entries.as_slice());
    Ok(!leaves_claims(entries.as_slice()))
}

/// How many events the first seat has seen.
fn events_seen<D: Desk, L: Identity>(seats: &[Seat<D, L>]) -> u64
    requires { 0 < length seats.now }
    ensures count { result ≡ length (first_list seats.now) }
    ensures at_most { result ≤ 2 ^ 63 }
{
    match seats.first() {
        Some(first) => first.seen().len(),
        None => 0,
    }
}
