ghost use Rattle.std.specs.Prelude.{◌≡◌, ◌+◌, ◌≤◌, ◌<◌, ◌^◌, drop, length, None, Some, IfOk, IfSome, OnErr};
ghost use mathlib.Core.List.{IsPrefix};
ghost use Rattle.cv_core_machine.specs.Layers.{queued};
ghost use Rattle.cv_core_machine.specs.Scans.{StatesEveryLayer, trees_of};
ghost use Rattle.cv_hub.specs.Core.{IsSound, act_of};
ghost use Rattle.cv_hub_seats.specs.Events.{entries_from, state_of};
ghost use Rattle.cv_hub_seats.specs.Seats.{AreAllReceipts, AreNumbered, HaveSeen, IsApplied};
ghost use Rattle.cv_hub.specs.code.Locked.{IsAfter};

use crate::locked::{Locked, Receipt};
use cv_base::{Digest, NoMemory, Seq};
use cv_core::{Core, Event};
use cv_core_records::{By, EventEntry};
use cv_desk::Desk;
use cv_hub_seats::{Identity, Note, Prefix, Seat};
use std::alloc::Global;
use std::marker::Model;
use std::mem;
use std::sync::{MutexGuard, Wait};

/// A hold of a hub's lock: the core after the events so far, and their list. Contracts see these events. Nobody else applies an event
/// until it is dropped.
pub struct Hold<'a, D: Desk, L: Identity> {
    guard: MutexGuard<'a, Option<Locked<D, L>>>,
    front: Prefix<D, L>,
}

/// Written out, so that it drops nothing of what lies under the lock, which is not `Drop`.
impl<'a, D: Desk, L: Identity> Drop for Hold<'a, D, L> {
    fn drop(self) {
        let Hold { guard, front: _ } = self;
        MutexGuard::unlock(guard);
    }
}

impl<'a, D: Desk, L: Identity> Model for Hold<'a, D, L> {
    ghost use Rattle.std.specs.Prelude.{◌≡◌, List, Some};
    ghost use Rattle.std.specs.Option.{option_map};
    ghost use Rattle.std.specs.Sync.Mutex.{mutex_guard_value};
    ghost use Rattle.cv_hub_seats.specs.declared.submission.Submission.{Submission};

    ghost Value = { List Submission };

    ghost view = { λ h. h.front };

    ghost invariant = { λ h. option_map (λ locked. locked.list) (mutex_guard_value h.guard) ≡ Some h.front };
}

impl<'a, D: Desk + Drop, L: Identity> Hold<'a, D, L> {
    /// The hold of a guard, unless a hold ended before it gave back what lies under the lock.
    pub fn of(guard: MutexGuard<'a, Option<Locked<D, L>>>) -> Option<Hold<'a, D, L>> {
        let front = match &*guard {
            Some(locked) => locked.front().again(),
            None => {
                MutexGuard::unlock(guard);
                return None;
            }
        };
        Some(Hold { guard, front })
    }

    /// How many events were applied. It takes no memory.
    pub fn front(&self) -> u64
        ensures { result ≡ length self.now }
    {
        self.front.len()
    }

    /// The beginning of the list with these events.
    pub fn seen(&self) -> &Prefix<D, L>
        ensures { result.now ≡ self.now }
    {
        &self.front
    }

    /// The layers that are queued after these events, in ascending order.
    pub fn queued(&self, alloc: Global) -> Result<Seq<Digest>, NoMemory>
        ensures { StatesEveryLayer D.tree → IfOk result (λ layers. layers ≡ queued (state_of (trees_of D.tree) L.limits self.now).layers) }
    {
        self.core().queued(alloc)
    }

    fn core(&self) -> &Core<D>
        ensures { IsAfter D.tree L.limits self.now result.now }
    {
        match &*self.guard {
            Some(locked) => locked.core(),
            None => unreachable!(),
        }
    }

    /// A note of the list, unless all places for readers are in use.
    pub fn note(&mut self) -> Option<Note<D, L>>
        ensures note { IfSome result (λ note. note ≡ self.old) }
        ensures same { self.new ≡ self.old }
    {
        match &mut *self.guard {
            Some(locked) => locked.note(),
            None => unreachable!(),
        }
    }

    /// Applies an event of a seat. If memory runs out, or all places for readers are in use, the event is consumed, and all else is as
    /// before.
    pub fn submit<W: Wait>(
        &mut self,
        rt: &W,
        alloc: Global,
        seat: &mut Seat<D, L>,
        by: By,
        event: Event<D>,
    ) -> Result<Receipt<D, L>, NoMemory>
        requires sound { IsSound (act_of event) }
        requires below_2_63_events { length self.old < 2 ^ 63 }
        requires seen { IsPrefix seat.old.list self.old }
        ensures applied { IfOk result (λ receipt. IsApplied D.tree L.limits self.old seat.old by (act_of event) receipt.number receipt.reply receipt.note seat.new) }
        ensures seat { OnErr result (seat.new ≡ seat.old) }
    {
        let Some(locked) = self.guard.take() else {
            unreachable!()
        };
        let (locked, result) = locked.submit(rt, alloc, seat, by, event);
        self.front = locked.front().again();
        give_back(rt, &mut *self.guard, locked);
        result
    }

    /// The entries since the last drain, by all seats of the hub, if this number of events was taken before.
    pub fn take<W: Wait>(
        &mut self,
        rt: &W,
        taken: u64,
        seats: &mut [Seat<D, L>],
    ) -> Option<Vec<EventEntry>>
        requires all { length seats.old ≡ L.parts }
        requires has_seats { 0 < length seats.old }
        requires numbered { AreNumbered 0 seats.old }
        requires seen { HaveSeen self.old seats.old }
        ensures entries { IfSome result (λ entries. entries.items ≡ entries_from (taken + 1) (drop taken self.old)) }
        ensures receipts { IfSome result (λ _. AreAllReceipts self.old seats.old) }
        ensures list { self.new ≡ self.old }
        ensures seats { seats.new ≡ seats.old }
    {
        let Some(locked) = self.guard.take() else {
            unreachable!()
        };
        if locked.taken() != taken {
            give_back(rt, &mut *self.guard, locked);
            return None;
        }
        let (locked, entries) = locked.take(seats);
        give_back(rt, &mut *self.guard, locked);
        Some(entries)
    }
}

/// Gives back what lies under a lock, to the hold that took it.
fn give_back<W: Wait, D: Desk + Drop, L: Identity>(
    rt: &W,
    place: &mut Option<Locked<D, L>>,
    locked: Locked<D, L>,
)
    requires { place.old ≡ None }
    ensures { place.new ≡ Some locked }
{
    if let Some(other) = mem::replace(place, Some(locked)) {
        other.end(rt);
    }
}
