ghost use Rattle.std.specs.Prelude.{◌≡◌, ◌+◌, ◌≤◌, ◌<◌, ◌^◌, [], ◌∷◌, ◌++◌, drop, length, OnOk};
ghost use mathlib.Core.List.{IsPrefix};
ghost use Rattle.cv_core_machine.specs.History.{act_name};
ghost use Rattle.cv_core.specs.Core.{act_of};
ghost use Rattle.cv_hub_seats.specs.Events.{IsReplayed, entries_from};
ghost use Rattle.cv_hub_seats.specs.Seats.{AreAllReceipts, AreNumbered, HaveSeen, seat_of};
ghost use Rattle.cv_hub_seats.specs.code.Book.{submission_of};
ghost use Rattle.left_right.specs.Sides.{view};

use cv_base::NoMemory;
use cv_core_records::{Act, EventEntry, Reply};
use cv_desk::Desk;
use cv_hub_seats::{
    Identity, ListLength, PostReader, Prefix, Seat, SubmittedEvent, counted, empty_share,
};
use std::alloc::Global;
use std::marker::Model;
use std::mem;
use std::sync::Wait;
use std::sync::ledger::Book;

/// The list of events under the lock, with the entries since the last drain and the ledger that counts the events.
pub struct EventList<D: Desk, L: Identity> {
    pub(crate) head: ListLength<L>,
    pub(crate) front: Prefix<D, L>,
    pub(crate) entries: Vec<EventEntry>,
    pub(crate) taken: u64,
    pub(crate) book: Book<L>,
}

/// Written out, so that the crates above call it, and do not prove anew how each part is dropped.
impl<D: Desk, L: Identity> Drop for EventList<D, L> {
    fn drop(self) {
        let EventList {
            head: _,
            front: _,
            entries: _,
            taken: _,
            book: _,
        } = self;
    }
}

impl<D: Desk, L: Identity> Model for EventList<D, L> {
    ghost use Rattle.std.specs.Prelude.{◌-◌};
    ghost use Rattle.std.specs.Vec.{vec_capacity, vec_len};
    ghost use Rattle.cv_hub.specs.code.Locked.{EventListView, IsListed};

    ghost Value = { EventListView };

    ghost view = { λ e. record { list = e.front; taken = e.taken; room = vec_capacity e.entries - vec_len e.entries } };

    ghost invariant = { λ e. IsListed e.front e.taken e.entries.items e.book.total };
}

impl<D: Desk, L: Identity> EventList<D, L> {
    /// The list of a hub before all events.
    pub fn new(
        alloc: Global,
        head: ListLength<L>,
        front: Prefix<D, L>,
        book: Book<L>,
    ) -> EventList<D, L>
        requires front { front ≡ [] }
        requires book { book.total ≡ 0 }
        ensures list { result.list ≡ [] }
        ensures taken { result.taken ≡ 0 }
    {
        EventList {
            head,
            front,
            entries: Vec::new(alloc),
            taken: 0,
            book,
        }
    }

    /// Makes room for one more entry.
    pub fn reserve(&mut self) -> Result<(), NoMemory>
        ensures list { self.new.list ≡ self.old.list }
        ensures taken { self.new.taken ≡ self.old.taken }
        ensures room { OnOk result (0 < self.new.room) }
    {
        self.entries.reserve(1)?;
        Ok(())
    }

    /// The list with one more event. Under the lock nobody else adds one, so the first try succeeds.
    pub fn added<W: Wait>(
        &self,
        rt: &W,
        seat: &Seat<D, L>,
        submitted: &SubmittedEvent<D>,
    ) -> Prefix<D, L>
        requires below_2_63_events { length self.now.list < 2 ^ 63 }
        requires seat { submitted.now.seat ≡ seat.now.index }
        requires replayed { IsReplayed D.tree L.limits (self.now.list ++ submission_of submitted.now ∷ []) }
        ensures { result ≡ self.now.list ++ submission_of submitted.now ∷ [] }
    {
        let _index = seat.index();
        for _ in rt.forever() {
            if let Some(next) = self.front.add(&self.head, submitted) {
                return next;
            }
        }
        unreachable!()
    }

    /// Keeps the list with one more event, `next`, with the entry of that event and its seat's receipt.
    pub fn keep(
        &mut self,
        next: Prefix<D, L>,
        seat: &mut Seat<D, L>,
        submitted: SubmittedEvent<D>,
        name: Act,
        reply: Reply,
        reader: PostReader<D, L>,
    )
        requires next { next ≡ self.old.list ++ submission_of submitted ∷ [] }
        requires room { 0 < self.old.room }
        requires seat { submitted.seat ≡ seat.old.index }
        requires seen { IsPrefix seat.old.list self.old.list }
        requires name { name ≡ act_name (act_of submitted.event.value) }
        requires reply { reply ≡ submitted.reply.value }
        requires known { length next ≤ view reader.place }
        ensures list { self.new.list ≡ next }
        ensures taken { self.new.taken ≡ self.old.taken }
        ensures seat { seat.new ≡ seat_of seat.old.index next (seat.old.count + 1) seat.old.refused }
    {
        let entry = EventEntry {
            number: next.len(),
            by: submitted.by,
            act: name,
            reply,
        };
        self.entries.push_reserved(entry);
        seat.receive(&mut self.book, &next, reader);
        self.front = next;
    }

    /// The entries since the last drain, by all seats of the hub.
    pub fn take(&mut self, seats: &mut [Seat<D, L>]) -> Vec<EventEntry>
        requires all { length seats.old ≡ L.parts }
        requires has_seats { 0 < length seats.old }
        requires numbered { AreNumbered 0 seats.old }
        requires seen { HaveSeen self.old.list seats.old }
        ensures entries { result.items ≡ entries_from (self.old.taken + 1) (drop self.old.taken self.old.list) }
        ensures list { self.new.list ≡ self.old.list }
        ensures taken { self.new.taken ≡ length self.old.list }
        ensures receipts { AreAllReceipts self.old.list seats.old }
        ensures seats { seats.new ≡ seats.old }
    {
        let mut total = empty_share(seats);
        counted(&mut self.book, seats, &mut total);
        self.taken = self.front.len();
        let none = Vec::new(*self.entries.allocator());
        mem::replace(&mut self.entries, none)
    }
}
