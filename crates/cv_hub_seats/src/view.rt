ghost use Rattle.std.specs.Prelude.{◌≡◌, ◌≤◌, length, IfOk};
ghost use mathlib.Core.List.{IsPrefix};
ghost use Rattle.cv_core_records.specs.Pages.{heads, page_of};
ghost use Rattle.cv_core_machine.specs.Answer.{report_of};
ghost use Rattle.cv_core_machine.specs.Scans.{StatesEveryLayer, trees_of};
ghost use Rattle.cv_core.specs.Reports.{shown};
ghost use Rattle.cv_notice.specs.Pages.{shown as shown_page};
ghost use Rattle.cv_hub_seats.specs.Events.{state_of};
ghost use Rattle.cv_hub_seats.specs.Posts.{Shows};
ghost use Rattle.cv_hub_seats.specs.Seats.{seat_of};
ghost use Rattle.cv_hub_seats.specs.code.Book.{IsSeat};

use crate::door::Entered;
use crate::identity::Identity;
use crate::prefix::Prefix;
use crate::seat::Seat;
use cv_base::{Digest, NoMemory, Seq};
use cv_core::{NoticeHead, Page, PageError, Report, ReportRefusal};
use cv_core_machine::board_law;
use cv_desk::Desk;
use std::alloc::Global;
use std::marker::Model;
use std::sync::ledger::Share;

/// A view of the board that a hub had published, by a seat, which `close` gives back. Contracts see it as that seat, whose list is the
/// one that the board is of. It stays as it is while the hub goes on. It is not `Drop`: end it by `close`.
pub struct View<D: Desk, L: Identity> {
    entered: Entered<D, L>,
    front: Prefix<D, L>,
    index: u64,
    count: u64,
    share: Share<L>,
}

impl<D: Desk, L: Identity> Model for View<D, L> {
    ghost use Rattle.cv_hub_seats.specs.Seats.{SeatView, seat_of};
    ghost use Rattle.cv_hub_seats.specs.code.Views.{IsViewed};

    ghost Value = { SeatView };

    ghost view = { λ v. seat_of v.index v.front v.count v.entered.refused };

    ghost invariant = { λ v. IsViewed D.tree L.limits L.parts L.book v.entered.post v.entered.known v.share.parts v.share.amount (seat_of v.index v.front v.count v.entered.refused) };
}

impl<D: Desk, L: Identity> View<D, L> {
    /// The view of a seat with these parts, at what it reads.
    pub(crate) fn of(
        index: u64,
        count: u64,
        front: Prefix<D, L>,
        share: Share<L>,
        entered: Entered<D, L>,
    ) -> View<D, L>
        requires shows { Shows D.tree L.limits L.parts L.book entered.post }
        requires known { entered.known ≡ length entered.post.list }
        requires longer { length front ≤ length entered.post.list }
        requires seat { IsSeat L.parts share.parts share.amount (seat_of index front count entered.refused) }
        ensures seen { IsPrefix front result.list }
        ensures seat { result ≡ seat_of index result.list count entered.refused }
    {
        let next = entered.get().front::<D, L>();
        View {
            entered,
            front: later(&front, next),
            index,
            count,
            share,
        }
    }

    /// Ends it, and gives back its seat, which has seen the list of the board. It neither waits nor takes memory.
    pub fn close(self) -> Seat<D, L>
        ensures { result ≡ self }
    {
        let View {
            entered,
            front,
            index,
            count,
            share,
        } = self;
        Seat {
            index,
            count,
            front,
            share,
            door: entered.leave(),
        }
    }

    /// How many events the list of the board has. It takes no memory.
    pub fn front(&self) -> u64
        ensures { result ≡ length self.now.list }
    {
        self.front.len()
    }

    /// The report of an image after these events. It takes no memory.
    pub fn report(&self, image: &Digest) -> Result<Report<'_>, ReportRefusal<'_>>
        ensures { StatesEveryLayer D.tree → shown result ≡ report_of (trees_of D.tree) (state_of (trees_of D.tree) L.limits self.now.list) image.now }
    {
        board_law();
        self.entered.get().board().report(image)
    }

    /// Page `page` of the notification `number` after these events, in pages of `size` rows. Pages are numbered from 1. It takes no
    /// memory.
    pub fn page(&self, number: u64, size: u64, page: u64) -> Result<Page<'_>, PageError>
        requires size { 1 ≤ size }
        requires page { 1 ≤ page }
        ensures { StatesEveryLayer D.tree → shown_page result ≡ page_of (state_of (trees_of D.tree) L.limits self.now.list).notifications number size page }
    {
        self.entered
            .get()
            .board()
            .notices()
            .page(number, size, page)
    }

    /// All notifications after these events, in ascending order of their numbers, with how many rows each has.
    pub fn list(&self, alloc: Global) -> Result<Seq<NoticeHead>, NoMemory>
        ensures { StatesEveryLayer D.tree → IfOk result (λ list. list ≡ heads (state_of (trees_of D.tree) L.limits self.now.list).notifications) }
    {
        self.entered.get().board().notices().list(alloc)
    }
}

/// The second of two beginnings of one list, which is not shorter.
fn later<D: Desk, L: Identity>(front: &Prefix<D, L>, next: Prefix<D, L>) -> Prefix<D, L>
    requires { length front.now ≤ length next }
    ensures next { result ≡ next }
    ensures seen { IsPrefix front.now result }
{
    let _facts = front.begins(&next);
    next
}
