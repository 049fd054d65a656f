ghost use Rattle.std.specs.Prelude.{◌≡◌, []};

use crate::book::EventListRule;
use crate::identity::Identity;
use crate::prefix::{ListLength, Prefix};
use crate::submission::Submission;
use cv_desk::Desk;
use logbook::{Seen, Start, Word};
use std::marker::{Model, PhantomData};
use std::sync::ledger::{self, Book, Share};

/// The ledger and the empty list of a hub that is not started. Contracts see the ledger's name, its parts and the book of the list.
pub struct Blank {
    marks: ledger::Blank,
    word: Word<Submission, u64, EventListRule>,
    seen: Seen<Submission, u64, EventListRule>,
}

impl Model for Blank {
    ghost use Rattle.std.specs.Prelude.{◌≡◌, []};
    ghost use Rattle.cv_hub_seats.specs.Seats.{BlankView};
    ghost use Rattle.cv_hub_seats.specs.code.Book.{head_of};

    ghost Value = { BlankView };

    ghost view = { λ b. record { name = b.marks.name; parts = b.marks.parts; book = b.seen.book } };

    ghost invariant = { λ b. (b.seen.log ≡ []) × (b.word ≡ head_of b.seen.book) };
}

/// A hub's parts before all events.
pub struct Parts<D: Desk, L: Identity> {
    pub head: ListLength<L>,
    pub front: Prefix<D, L>,
    pub book: Book<L>,
    pub share: Share<L>,
}

impl Blank {
    /// One for a hub with this number of seats. It takes no memory.
    pub fn new(seats: u64) -> Blank
        ensures { result.parts ≡ seats }
    {
        let (seen, mut first, _second) = Seen::open(Start::alone(), 0, 0);
        Blank {
            marks: ledger::Blank::new(seats),
            word: Word::tracked(0, &mut first),
            seen,
        }
    }

    /// Opens the ledger and the list under the name of a hub.
    pub fn open<D: Desk, L: Identity>(self) -> Parts<D, L>
        requires name { self.name ≡ L.name }
        requires parts { self.parts ≡ L.parts }
        requires book { self.book ≡ L.book }
        ensures front { result.front ≡ [] }
        ensures book { result.book.total ≡ 0 }
        ensures share { (result.share.parts ≡ L.parts) × (result.share.amount ≡ 0) }
    {
        let Blank { marks, word, seen } = self;
        let (book, share) = marks.open::<L>();
        Parts {
            head: ListLength {
                word,
                of: PhantomData,
            },
            front: Prefix {
                number: 0,
                seen,
                of: PhantomData,
            },
            book,
            share,
        }
    }
}
