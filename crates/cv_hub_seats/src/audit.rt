ghost use Rattle.std.specs.Prelude.{◌≡◌, ◌+◌, ◌≤◌, ◌<◌, length};
ghost use Rattle.cv_hub_seats.specs.code.Audit.{AreMade, receipts_of};

use crate::identity::Identity;
use crate::seat::Seat;
use cv_desk::Desk;
use std::sync::ledger::{Book, Share};

/// Audits the ledger by the shares of seats, which are lent to one share in turn and given back.
pub fn counted<D: Desk, L: Identity>(
    book: &mut Book<L>,
    seats: &mut [Seat<D, L>],
    share: &mut Share<L>,
)
    requires all { share.old.parts + length seats.old ≡ L.parts }
    requires backed { share.old.parts ≡ 0 → share.old.amount ≡ 0 }
    ensures total { share.old.amount + receipts_of seats.old ≡ book.old.total }
    ensures made { AreMade seats.old }
    ensures book { book.new.total ≡ book.old.total }
    ensures seats { seats.new ≡ seats.old }
    ensures parts { share.new.parts ≡ share.old.parts }
    ensures amount { share.new.amount ≡ share.old.amount }
{
    match seats.split_first_mut() {
        None => book.audit(share),
        Some((first, rest)) => {
            let Seat {
                share: mine,
                count,
                ..
            } = first;
            mine.give(share, 1, *count);
            counted(book, rest, share);
            share.give(mine, 1, *count);
        }
    }
}

/// A share without parts, of the ledger of the seats.
pub fn empty_share<D: Desk, L: Identity>(seats: &mut [Seat<D, L>]) -> Share<L>
    requires has_seats { 0 < length seats.old }
    ensures parts { result.parts ≡ 0 }
    ensures amount { result.amount ≡ 0 }
    ensures seats { seats.new ≡ seats.old }
{
    let first = &mut seats[0];
    first.share.empty()
}
