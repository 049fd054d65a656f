ghost use Rattle.std.specs.Prelude.{◌≡◌, ◌+◌, ◌-◌, ◌≤◌, ◌<◌, ◌^◌, [], length, min, MatchResult};
ghost use mathlib.Core.List.{IsPrefix};
ghost use Rattle.left_right.specs.Sides.{view};
ghost use Rattle.cv_hub_seats.specs.Seats.{made_by, seat_of};

use crate::door::Door;
use crate::identity::Identity;
use crate::note::Note;
use crate::post::PostReader;
use crate::prefix::Prefix;
use crate::view::View;
use cv_desk::Desk;
use std::marker::Model;
use std::sync::ledger::{Book, Share};

/// A place from which events are submitted to a hub, and at which its boards are read. Contracts see its number, what it has seen of
/// the hub's list, how many receipts it got, and how often it was refused.
pub struct Seat<D: Desk, L: Identity> {
    pub(crate) index: u64,
    pub(crate) count: u64,
    pub(crate) front: Prefix<D, L>,
    pub(crate) share: Share<L>,
    pub(crate) door: Door<D, L>,
}

/// Written out, so that the crates above call it, and do not prove anew how each part is dropped.
impl<D: Desk, L: Identity> Drop for Seat<D, L> {
    fn drop(self) {
        let Seat {
            index: _,
            count: _,
            front: _,
            share: _,
            door: _,
        } = self;
    }
}

impl<D: Desk, L: Identity> Model for Seat<D, L> {
    ghost use Rattle.std.specs.Prelude.{◌≤◌, length};
    ghost use Rattle.cv_hub_seats.specs.Seats.{SeatView, seat_of};
    ghost use Rattle.cv_hub_seats.specs.code.Book.{IsSeat};

    ghost Value = { SeatView };

    ghost view = { λ s. seat_of s.index s.front s.count s.door.refused };

    ghost invariant = { λ s. IsSeat L.parts s.share.parts s.share.amount (seat_of s.index s.front s.count s.door.refused) × (length s.front ≤ s.door.known) };
}

impl<D: Desk, L: Identity> Seat<D, L> {
    /// A seat of this number that has seen nothing.
    pub fn fresh(
        index: u64,
        front: &Prefix<D, L>,
        share: Share<L>,
        reader: PostReader<D, L>,
    ) -> Seat<D, L>
        requires index { index < L.parts }
        requires front { front.now ≡ [] }
        requires share { (share.parts ≡ 1) × (share.amount ≡ 0) }
        ensures { result ≡ seat_of index [] 0 0 }
    {
        Seat {
            index,
            count: 0,
            front: front.again(),
            share,
            door: Door::new(reader),
        }
    }

    /// Its index among the seats of its hub.
    pub fn index(&self) -> u64
        ensures index { result ≡ self.now.index }
        ensures numbered { self.now.index < L.parts }
    {
        self.index
    }

    /// How often no view could be had, counted up to 2^64 - 1.
    pub fn refused(&self) -> u64
        ensures { result ≡ self.now.refused }
    {
        self.door.refused()
    }

    /// The beginning of the list that it has seen.
    pub fn seen(&self) -> &Prefix<D, L>
        ensures { result.now ≡ self.now.list }
    {
        &self.front
    }

    /// A view of the board that is published, which has all that the seat has seen. It neither waits nor takes memory. `Err` gives
    /// back the seat, which counts it.
    pub fn view(self) -> Result<View<D, L>, Seat<D, L>>
        ensures { MatchResult result (λ view. IsPrefix self.list view.list × (view ≡ seat_of self.index view.list self.count self.refused)) (λ seat. seat ≡ seat_of self.index self.list self.count (min (self.refused + 1) (2 ^ 64 - 1))) }
    {
        let Seat {
            index,
            count,
            front,
            share,
            door,
        } = self;
        match door.enter() {
            Ok(entered) => Ok(View::of(index, count, front, share, entered)),
            Err(door) => Err(Seat {
                index,
                count,
                front,
                share,
                door,
            }),
        }
    }

    /// Learns a note: it has then also seen all events of the note, and its views have them. It takes no memory.
    pub fn learn(&mut self, note: Note<D, L>)
        ensures seen { IsPrefix self.old.list self.new.list }
        ensures note { IsPrefix note self.new.list }
        ensures same { self.new ≡ seat_of self.old.index self.new.list self.old.count self.old.refused }
    {
        let (reader, front) = note.open();
        if self.front.begins(&front) {
            self.see(&front, reader);
        }
    }

    /// Sees a list that goes on from the one that it has seen, with a reader that knows that it was published.
    pub fn see(&mut self, front: &Prefix<D, L>, reader: PostReader<D, L>)
        requires longer { IsPrefix self.old.list front.now }
        requires known { length front.now ≤ view reader.place }
        ensures { self.new ≡ seat_of self.old.index front.now self.old.count self.old.refused }
    {
        self.door.learn(reader);
        self.front = front.again();
    }

    /// Records a receipt: the list has one more event of this seat, and the reader knows that it was published.
    pub fn receive(&mut self, book: &mut Book<L>, front: &Prefix<D, L>, reader: PostReader<D, L>)
        requires more { made_by self.old.index self.old.list + 1 ≤ made_by self.old.index front.now }
        requires known { length front.now ≤ view reader.place }
        ensures seat { self.new ≡ seat_of self.old.index front.now (self.old.count + 1) self.old.refused }
        ensures book { book.new.total ≡ book.old.total + 1 }
    {
        let _events = front.len();
        book.add(&mut self.share, 1);
        self.count += 1;
        self.door.learn(reader);
        self.front = front.again();
    }
}
