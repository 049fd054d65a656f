ghost use Rattle.std.specs.Prelude.{◌≡◌, ◌+◌, ◌<◌, ◌≤◌, ◌^◌, [], ◌∷◌, ◌++◌, length, IfSome, MatchBool};
ghost use Rattle.std.specs.List.{AllByRecursion};
ghost use mathlib.Core.List.{IsPrefix};
ghost use Rattle.cv_hub_seats.specs.Events.{IsReplayed};
ghost use Rattle.cv_hub_seats.specs.code.Book.{head_of, submission_of};

use crate::book::{Add, EventListRule, Nothing, SubmittedEvent};
use crate::identity::Identity;
use crate::submission::Submission;
use cv_desk::Desk;
use logbook::{Offer, Seen, Word};
use std::marker::{Model, PhantomData};

/// The word of a hub's book: the length of its list.
pub struct ListLength<L: Identity> {
    pub(crate) word: Word<Submission, u64, EventListRule>,
    pub(crate) of: PhantomData<L>,
    pub(crate) ghost word_is: { word ≡ head_of L.book },
}

/// Written out, so that the crates above call it, and do not prove anew how each part is dropped.
impl<L: Identity> Drop for ListLength<L> {
    fn drop(self) {
        let ListLength { word: _, of: _ } = self;
    }
}

/// A beginning of a hub's list. Contracts see it as its events.
pub struct Prefix<D: Desk, L: Identity> {
    pub(crate) number: u64,
    pub(crate) seen: Seen<Submission, u64, EventListRule>,
    pub(crate) of: PhantomData<(D, L)>,
}

/// Written out, so that the crates above call it, and do not prove anew how each part is dropped.
impl<D: Desk, L: Identity> Drop for Prefix<D, L> {
    fn drop(self) {
        let Prefix {
            number: _,
            seen: _,
            of: _,
        } = self;
    }
}

impl<D: Desk, L: Identity> Model for Prefix<D, L> {
    ghost use Rattle.std.specs.Prelude.{List};
    ghost use Rattle.cv_hub_seats.specs.Events.{IsListPrefix};
    ghost use Rattle.cv_hub_seats.specs.declared.submission.Submission.{Submission};

    ghost Value = { List Submission };

    ghost view = { λ f. f.seen.log };

    ghost invariant = { λ f. IsListPrefix D.tree L.limits L.parts L.book f.number f.seen.book f.seen.log };
}

impl<D: Desk, L: Identity> Prefix<D, L> {
    /// How many events it has.
    pub fn len(&self) -> u64
        ensures length { result ≡ length self.now }
        ensures at_most_2_63_events { length self.now ≤ 2 ^ 63 }
        ensures seats { AllByRecursion (λ event. event.seat < L.parts) self.now }
        ensures replayed { IsReplayed D.tree L.limits self.now }
    {
        self.number
    }

    /// A copy.
    pub fn again(&self) -> Prefix<D, L>
        ensures { result ≡ self.now }
    {
        Prefix {
            number: self.number,
            seen: self.seen.again(),
            of: PhantomData,
        }
    }

    /// Whether the other one begins with all of these events. If not, these begin with the other's.
    pub fn begins(&self, other: &Prefix<D, L>) -> bool
        ensures { MatchBool result (IsPrefix self.now other.now) (IsPrefix other.now self.now) }
    {
        let mut both = self.seen.again();
        both.learn(&other.seen);
        self.number <= other.number
    }

    /// With one more event. `None` says that the list may have others after these.
    pub fn add(&self, head: &ListLength<L>, submitted: &SubmittedEvent<D>) -> Option<Prefix<D, L>>
        requires room { length self.now < 2 ^ 63 }
        requires seat { submitted.now.seat < L.parts }
        requires replayed { IsReplayed D.tree L.limits (self.now ++ submission_of submitted.now ∷ []) }
        ensures { IfSome result (λ next. next ≡ self.now ++ submission_of submitted.now ∷ []) }
    {
        let mut seen = self.seen.again();
        let mut offer: Offer<Submission, u64, EventListRule, Nothing> = seen.plain::<
            Nothing,
            SubmittedEvent<D>,
            Add,
        >(submitted);
        let mut pen = seen.no_pen();
        let number = self.number;
        let found = head
            .word
            .compare_exchange::<Add, Nothing>(number, number + 1, &mut seen, &mut offer, &mut pen);
        if found != number {
            return None;
        }
        Some(Prefix {
            number: number + 1,
            seen,
            of: PhantomData,
        })
    }
}
