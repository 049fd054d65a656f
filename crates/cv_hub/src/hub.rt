ghost use Rattle.std.specs.Prelude.{◌≡◌, ◌+◌, ◌≤◌, ◌<◌, ◌^◌, List, [], drop, length, IfOk, OnErr};
ghost use Rattle.std.specs.List.{AllByRecursion};
ghost use mathlib.Core.List.{IsPrefix};
ghost use Rattle.cv_core_machine.specs.Layers.{queued};
ghost use Rattle.cv_core_machine.specs.Scans.{StatesEveryLayer, trees_of};
ghost use Rattle.cv_hub.specs.Core.{IsSound, act_of, opened};
ghost use Rattle.cv_hub_seats.specs.Events.{IsReplayed, entries_from, state_of};
ghost use Rattle.cv_hub_seats.specs.Seats.{AreAllReceipts, AreFresh, AreNumbered, HaveSeen, IsApplied, seat_of};
ghost use Rattle.cv_hub_seats.specs.declared.submission.Submission.{Submission};

use crate::hold::Hold;
use crate::locked::{Locked, Receipt};
use crate::posting::{end_writer, opened_writer};
use cv_base::{Digest, NoMemory, Seq};
use cv_core::{Core, Event};
use cv_core_records::{By, EventEntry};
use cv_desk::Desk;
use cv_hub_seats::{Blank, Identity, Note, Parts, Prefix, Seat, fresh_seats, have_seen};
use std::alloc::Global;
use std::marker::Model;
use std::sync::{Mutex, Wait};

/// How many events a hub applies at most: their numbers have 64 bits.
const MOST_EVENTS: u64 = 1 << 63;

/// A core that threads share, with the one list of its events. Contracts see the list up to the last drain. It is not `Drop`: who owns
/// a hub ends it by `end`.
pub struct Hub<D: Desk, L: Identity> {
    locked: Mutex<Option<Locked<D, L>>>,
    taken: Prefix<D, L>,
}

impl<D: Desk, L: Identity> Model for Hub<D, L> {
    ghost use Rattle.std.specs.Prelude.{List};
    ghost use Rattle.cv_hub_seats.specs.declared.submission.Submission.{Submission};

    ghost Value = { List Submission };

    ghost view = { λ h. h.taken };
}

impl<D: Desk + Drop, L: Identity> Hub<D, L> {
    /// A hub of a core that has applied no event, with this number of seats. It publishes the board before all events. If memory runs
    /// out, what was made is ended.
    pub fn start<W: Wait>(
        rt: &W,
        alloc: Global,
        blank: Blank,
        core: Core<D>,
        seats: u32,
    ) -> Result<(Hub<D, L>, Vec<Seat<D, L>>), NoMemory>
        requires name { blank.name ≡ L.name }
        requires parts { blank.parts ≡ L.parts }
        requires book { blank.book ≡ L.book }
        requires seats { (1 ≤ seats) × (seats ≤ 64) × (L.parts ≡ seats) }
        requires core { core ≡ opened L.limits }
        ensures hub { IfOk result (λ started. started.0 ≡ []) }
        ensures seats { IfOk result (λ started. (length started.1.items ≡ seats) × AreFresh 0 started.1.items) }
    {
        let Parts {
            head,
            front,
            book,
            share,
        } = blank.open::<D, L>();
        let taken = front.again();
        let writer = opened_writer(rt, alloc, &core, &taken, seats)?;
        match fresh_seats(rt, alloc, &taken, share, seats, &writer) {
            Ok(made) => {
                let locked = Locked::new(alloc, core, head, front, book, writer);
                let hub = Hub {
                    locked: Mutex::new(Some(locked)),
                    taken,
                };
                Ok((hub, made))
            }
            Err(NoMemory) => {
                end_writer(rt, writer);
                Err(NoMemory)
            }
        }
    }

    /// Applies an event that a seat submits for a lane or a worker. The receipt has its number in the list, the machine's reply there
    /// and a note of the list up to it, which the seat has then seen. If memory runs out, or so many notes live that no reader has a
    /// place, the event is consumed, the seat is as before, and the list has no event of this call, as the next taking shows. It waits
    /// for the lock, and there for each view of the board before the last one: so a thread has no view open when it submits. If 2^63
    /// events were applied it does not return.
    pub fn submit<W: Wait>(
        &self,
        rt: &W,
        alloc: Global,
        seat: &mut Seat<D, L>,
        by: By,
        event: Event<D>,
    ) -> Result<Receipt<D, L>, NoMemory>
        requires sound { IsSound (act_of event) }
        ensures applied { IfOk result (λ receipt. (list : List Submission) × IsPrefix self.now list
            × IsApplied D.tree L.limits list seat.old by (act_of event) receipt.number receipt.reply receipt.note seat.new) }
        ensures err { OnErr result (seat.new ≡ seat.old) }
    {
        let mut held = self.hold_with_room(rt, seat.seen());
        held.submit(rt, alloc, seat, by, event)
    }

    /// A note of the list, with at least all events that were taken. It takes no memory. It waits for the lock, and until a reader has a
    /// place.
    pub fn note<W: Wait>(&self, rt: &W) -> Note<D, L>
        ensures { IsPrefix self.now result }
    {
        for _ in rt.forever() {
            let mut held = self.hold(rt, &self.taken);
            if let Some(note) = held.note() {
                return note;
            }
        }
        unreachable!()
    }

    /// The layers that are queued after exactly the events that were taken, in ascending order. It waits for the lock, and if an event
    /// came after the last drain it does not return.
    pub fn queued<W: Wait>(&self, rt: &W, alloc: Global) -> Result<Seq<Digest>, NoMemory>
        ensures { StatesEveryLayer D.tree → IfOk result (λ layers. layers ≡ queued (state_of (trees_of D.tree) L.limits self.now).layers) }
    {
        for _ in rt.forever() {
            let held = self.hold(rt, &self.taken);
            if held.front() == self.taken.len() {
                return held.queued(alloc);
            }
        }
        unreachable!()
    }

    /// The entries of the events since the last drain, in order, by all seats of the hub: up to a number that is at least what any of
    /// them has seen. The seats stay as they are. It takes no memory, and waits for the lock.
    pub fn take_events<W: Wait>(&mut self, rt: &W, seats: &mut [Seat<D, L>]) -> Vec<EventEntry>
        requires all { length seats.old ≡ L.parts }
        requires has_seats { 0 < length seats.old }
        requires numbered { AreNumbered 0 seats.old }
        ensures more { IsPrefix self.old self.new }
        ensures replayed { IsReplayed D.tree L.limits self.new }
        ensures entries { result.items ≡ entries_from (length self.old + 1) (drop (length self.old) self.new) }
        ensures seen { HaveSeen self.new seats.old }
        ensures receipts { AreAllReceipts self.new seats.old }
        ensures of_seats { AllByRecursion (λ event. event.seat < length seats.old) self.new }
        ensures seats { seats.new ≡ seats.old }
    {
        let (taken, entries) = self.take(rt, seats);
        self.taken = taken;
        entries
    }

    /// Ends the hub and its seats. It takes no memory, and waits for those who read a board.
    pub fn end<W: Wait>(self, rt: &W, seats: Vec<Seat<D, L>>) {
        let Hub { locked, taken: _ } = self;
        if let Some(locked) = locked.into_inner() {
            locked.end(rt);
        }
        drop(seats);
    }

    /// The list with the entries since the last drain.
    fn take<W: Wait>(&self, rt: &W, seats: &mut [Seat<D, L>]) -> (Prefix<D, L>, Vec<EventEntry>)
        requires all { length seats.old ≡ L.parts }
        requires has_seats { 0 < length seats.old }
        requires numbered { AreNumbered 0 seats.old }
        ensures more { IsPrefix self.now result.0 }
        ensures entries { result.1.items ≡ entries_from (length self.now + 1) (drop (length self.now) result.0) }
        ensures seen { HaveSeen result.0 seats.old }
        ensures receipts { AreAllReceipts result.0 seats.old }
        ensures seats { seats.new ≡ seats.old }
    {
        for _ in rt.forever() {
            let mut held = self.hold(rt, &self.taken);
            if have_seen(held.seen(), seats) {
                if let Some(entries) = held.take(rt, self.taken.len(), seats) {
                    return (held.seen().again(), entries);
                }
            }
        }
        unreachable!()
    }

    /// Holds the lock, with room for one more event.
    fn hold_with_room<W: Wait>(&self, rt: &W, seen: &Prefix<D, L>) -> Hold<'_, D, L>
        ensures seen { IsPrefix seen.now result }
        ensures taken { IsPrefix self.now result }
        ensures below_2_63_events { length result < 2 ^ 63 }
    {
        for _ in rt.forever() {
            let held = self.hold(rt, seen);
            if held.front() < MOST_EVENTS {
                return held;
            }
        }
        unreachable!()
    }

    /// Holds the lock. A hold that finds fewer events than were seen or taken is given up and tried again.
    fn hold<W: Wait>(&self, rt: &W, seen: &Prefix<D, L>) -> Hold<'_, D, L>
        ensures seen { IsPrefix seen.now result }
        ensures taken { IsPrefix self.now result }
    {
        for _ in rt.forever() {
            if let Some(held) = Hold::of(self.locked.lock(rt)) {
                if seen.begins(held.seen()) && self.taken.begins(held.seen()) {
                    return held;
                }
            }
        }
        unreachable!()
    }
}
