ghost use Rattle.std.specs.Prelude.{◌≡◌, ◌+◌, ◌≤◌, ◌<◌, ◌^◌, [], drop, length, IfOk, IfSome, OnErr};
ghost use mathlib.Core.List.{IsPrefix};
ghost use Rattle.cv_core.specs.Core.{IsSound, act_of, opened};
ghost use Rattle.cv_hub_seats.specs.Events.{entries_from};
ghost use Rattle.cv_hub_seats.specs.Seats.{AreAllReceipts, AreNumbered, HaveSeen, IsApplied};
ghost use Rattle.left_right.specs.Sides.{view};
ghost use Rattle.cv_hub.specs.code.Locked.{IsAfter, IsEventPrepared};
ghost use Rattle.cv_hub.specs.code.Posting.{IsPublished};

use crate::events::EventList;
use crate::posting::{end_writer, publish, told_one};
use crate::prepared::PreparedEvent;
use cv_base::NoMemory;
use cv_core::{Core, Event};
use cv_core_records::{By, EventEntry, Reply};
use cv_desk::Desk;
use cv_hub_seats::{
    Identity, ListLength, Note, PostReader, PostWriter, Prefix, Seat, SubmittedEvent, told,
};
use std::alloc::Global;
use std::marker::Model;
use std::snapshot::Snapshot;
use std::sync::Wait;
use std::sync::ledger::Book;

/// The receipt of an event that was applied: its number in the hub's list, from 1, the machine's reply, and a note of the list up to it.
#[derive(Drop)]
pub struct Receipt<D: Desk, L: Identity> {
    pub number: u64,
    pub reply: Reply,
    pub note: Note<D, L>,
}

/// What lies under the lock of a hub: the core, the list of the events that it applied, and the writer of its boards. It is not
/// `Drop`, since a writer is not: end it by `end`.
pub struct Locked<D: Desk, L: Identity> {
    pub(crate) core: Core<D>,
    pub(crate) events: EventList<D, L>,
    pub(crate) writer: PostWriter<D, L>,
}

impl<D: Desk, L: Identity> Model for Locked<D, L> {
    ghost use Rattle.std.specs.Prelude.{drop};
    ghost use Rattle.left_right.specs.Sides.{view as known};
    ghost use Rattle.cv_hub.specs.code.Locked.{IsAfter, LockedView};
    ghost use Rattle.cv_hub.specs.code.Posting.{IsPublished};

    ghost Value = { LockedView };

    ghost view = { λ l. record { list = l.events.list; taken = l.events.taken } };

    ghost invariant = { λ l. IsAfter D.tree L.limits l.events.list l.core
        × IsPublished l.events.list l.writer.desk.shown.value.list (drop l.writer.behind l.writer.log.items) (known l.writer.desk.place) };
}

impl<D: Desk + Drop, L: Identity> Locked<D, L> {
    /// A core that has applied no event, with the list before all events and a writer that shows its board.
    pub fn new(
        alloc: Global,
        core: Core<D>,
        head: ListLength<L>,
        front: Prefix<D, L>,
        book: Book<L>,
        writer: PostWriter<D, L>,
    ) -> Locked<D, L>
        requires core { core ≡ opened L.limits }
        requires front { front ≡ [] }
        requires book { book.total ≡ 0 }
        requires published { IsPublished [] writer.desk.shown.value.list (drop writer.behind writer.log.items) (view writer.desk.place) }
        ensures list { result.list ≡ [] }
        ensures taken { result.taken ≡ 0 }
    {
        let events = EventList::new(alloc, head, front, book);
        Locked {
            core,
            events,
            writer,
        }
    }

    /// The core after the events of the list.
    pub fn core(&self) -> &Core<D>
        ensures { IsAfter D.tree L.limits self.now.list result.now }
    {
        &self.core
    }

    /// The list of events.
    pub fn front(&self) -> &Prefix<D, L>
        ensures { result.now ≡ self.now.list }
    {
        &self.events.front
    }

    /// How many events were taken.
    pub fn taken(&self) -> u64
        ensures { result ≡ self.now.taken }
    {
        self.events.taken
    }

    /// A note of the list, unless all places for readers are in use.
    pub fn note(&mut self) -> Option<Note<D, L>>
        ensures note { IfSome result (λ note. note ≡ self.old.list) }
        ensures same { self.new ≡ self.old }
    {
        let _facts = self.events.front.len();
        let reader = told(&mut self.writer)?;
        Some(Note::of(reader, self.events.front.again()))
    }

    /// Applies an event of a seat. If memory runs out, or all places for readers are in use, the event is consumed, and all else is as
    /// before.
    pub fn submit<W: Wait>(
        self,
        rt: &W,
        alloc: Global,
        seat: &mut Seat<D, L>,
        by: By,
        event: Event<D>,
    ) -> (Locked<D, L>, Result<Receipt<D, L>, NoMemory>)
        requires sound { IsSound (act_of event) }
        requires below_2_63_events { length self.list < 2 ^ 63 }
        requires seen { IsPrefix seat.old.list self.list }
        ensures applied { IfOk result.1 (λ receipt. IsApplied D.tree L.limits self.list seat.old by (act_of event) receipt.number receipt.reply receipt.note seat.new) }
        ensures list { IfOk result.1 (λ receipt. result.0.list ≡ receipt.note) }
        ensures seat { OnErr result.1 (seat.new ≡ seat.old) }
        ensures same { OnErr result.1 (result.0.list ≡ self.list) }
        ensures taken { result.0.taken ≡ self.taken }
    {
        let Locked {
            core,
            mut events,
            mut writer,
        } = self;
        let Ok(place) = room(&mut events, &mut writer) else {
            let same = Locked {
                core,
                events,
                writer,
            };
            return (same, Err(NoMemory));
        };
        match PreparedEvent::of(alloc, core, event) {
            Err((core, NoMemory)) => {
                let same = Locked {
                    core,
                    events,
                    writer,
                };
                (same, Err(NoMemory))
            }
            Ok(prepared) => {
                let (locked, receipt) = enter(rt, events, writer, place, seat, by, prepared);
                (locked, Ok(receipt))
            }
        }
    }

    /// The entries since the last drain, by all seats of the hub.
    pub fn take(self, seats: &mut [Seat<D, L>]) -> (Locked<D, L>, Vec<EventEntry>)
        requires all { length seats.old ≡ L.parts }
        requires has_seats { 0 < length seats.old }
        requires numbered { AreNumbered 0 seats.old }
        requires seen { HaveSeen self.list seats.old }
        ensures entries { result.1.items ≡ entries_from (self.taken + 1) (drop self.taken self.list) }
        ensures list { result.0.list ≡ self.list }
        ensures taken { result.0.taken ≡ length self.list }
        ensures receipts { AreAllReceipts self.list seats.old }
        ensures seats { seats.new ≡ seats.old }
    {
        let Locked {
            core,
            mut events,
            writer,
        } = self;
        let entries = events.take(seats);
        (
            Locked {
                core,
                events,
                writer,
            },
            entries,
        )
    }

    /// Ends it. It waits for those who read a board.
    pub fn end<W: Wait>(self, rt: &W) {
        let Locked {
            core: _,
            events: _,
            writer,
        } = self;
        end_writer(rt, writer);
    }
}

/// Makes room for one more event: for its entry, and for one more reader, which keeps its place.
fn room<D: Desk, L: Identity>(
    events: &mut EventList<D, L>,
    writer: &mut PostWriter<D, L>,
) -> Result<PostReader<D, L>, NoMemory>
    ensures list { events.new.list ≡ events.old.list }
    ensures taken { events.new.taken ≡ events.old.taken }
    ensures room { IfOk result (λ _. 0 < events.new.room) }
    ensures shown { writer.new.desk.shown ≡ writer.old.desk.shown }
    ensures pending { drop writer.new.behind writer.new.log.items ≡ drop writer.old.behind writer.old.log.items }
    ensures same { view writer.new.desk.place ≡ view writer.old.desk.place }
{
    let place = told(writer).ok_or(NoMemory)?;
    events.reserve()?;
    Ok(place)
}

/// Enters an event that took all its memory into the list, publishes the board after it, and gives the core after it. The reader that
/// kept a place gives it to the next reader of the seat.
fn enter<W: Wait, D: Desk + Drop, L: Identity>(
    rt: &W,
    mut events: EventList<D, L>,
    writer: PostWriter<D, L>,
    place: PostReader<D, L>,
    seat: &mut Seat<D, L>,
    by: By,
    prepared: PreparedEvent<D>,
) -> (Locked<D, L>, Receipt<D, L>)
    requires room { 0 < events.room }
    requires below_2_63_events { length events.list < 2 ^ 63 }
    requires published { IsPublished events.list writer.desk.shown.value.list (drop writer.behind writer.log.items) (view writer.desk.place) }
    requires seen { IsPrefix seat.old.list events.list }
    requires prepared { IsEventPrepared D.tree prepared.planned.before (act_of prepared.event.value) prepared.planned prepared.board prepared.name prepared.reply }
    requires after { IsAfter D.tree L.limits events.list prepared.planned.before }
    ensures applied { IsApplied D.tree L.limits events.list seat.old by (act_of prepared.event.value) result.1.number result.1.reply result.1.note seat.new }
    ensures list { result.0.list ≡ result.1.note }
    ensures taken { result.0.taken ≡ events.taken }
{
    let PreparedEvent {
        planned,
        board,
        event,
        name,
        reply,
    } = prepared;
    let _facts = events.front.len();
    let submitted = SubmittedEvent {
        seat: seat.index(),
        by,
        event,
        reply: Snapshot::of(&reply),
    };
    let next = events.added(rt, seat, &submitted);
    let mut writer = publish(rt, writer, board, &next);
    drop(place);
    let reader = told_one(rt, &mut writer);
    events.keep(next, seat, submitted, name, reply, reader);
    let front = events.front.again();
    let number = front.len();
    let note = Note::of(told_one(rt, &mut writer), front);
    let (core, reply) = planned.commit();
    let receipt = Receipt {
        number,
        reply,
        note,
    };
    (
        Locked {
            core,
            events,
            writer,
        },
        receipt,
    )
}
