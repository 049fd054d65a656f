ghost use Rattle.std.specs.Prelude.{◌≡◌, [], true, length, IfOk};
ghost use Rattle.cv_hub_seats.specs.Seats.{AreFresh, HaveSeen};

use crate::identity::Identity;
use crate::post::PostWriter;
use crate::prefix::Prefix;
use crate::seat::Seat;
use crate::telling::seated;
use cv_base::NoMemory;
use cv_desk::Desk;
use std::alloc::Global;
use std::sync::Wait;
use std::sync::ledger::Share;

/// If true, each seat has seen no more than a beginning of the list.
pub fn have_seen<D: Desk, L: Identity>(front: &Prefix<D, L>, seats: &[Seat<D, L>]) -> bool
    ensures { result ≡ true → HaveSeen front.now seats.now }
{
    match seats.split_first() {
        None => true,
        Some((first, rest)) => first.front.begins(front) && have_seen(front, rest),
    }
}

/// A number of seats, which share the parts of the ledger, each with a reader of what is published. It waits while no place for a reader
/// is free.
pub fn fresh_seats<W: Wait, D: Desk, L: Identity>(
    rt: &W,
    alloc: Global,
    front: &Prefix<D, L>,
    mut share: Share<L>,
    seats: u32,
    writer: &PostWriter<D, L>,
) -> Result<Vec<Seat<D, L>>, NoMemory>
    requires front { front.now ≡ [] }
    requires parts { share.parts ≡ L.parts }
    requires amount { share.amount ≡ 0 }
    requires seats { L.parts ≡ seats }
    ensures count { IfOk result (λ made. length made.items ≡ seats) }
    ensures fresh { IfOk result (λ made. AreFresh 0 made.items) }
{
    let mut made = Vec::new(alloc);
    for index in 0..seats {
        let part = share.split_off(1, 0);
        let reader = seated(rt, writer);
        made.push(Seat::fresh(u64::from(index), front, part, reader))?;
    }
    Ok(made)
}
