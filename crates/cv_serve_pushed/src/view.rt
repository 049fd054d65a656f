ghost use Rattle.std.specs.Prelude.{◌≡◌};
ghost use mathlib.Core.List.{IsPrefix};
ghost use Rattle.cv_hub_seats.specs.Seats.{seat_of};

use cv_desk::Desk;
use cv_hub::{Hub, Identity, Seat, View};
use std::sync::Wait;

/// A view by a seat of at least the events that were taken of the hub. It is tried again for as long as the seat is handed back.
#[tactic(auto, using(cv_hub_seats::proofs::Prefixes::prefix_chain))]
pub(crate) fn view_of<D: Desk + Drop, L: Identity, W: Wait>(
    rt: &W,
    hub: &Hub<D, L>,
    mut seat: Seat<D, L>,
) -> View<D, L>
    ensures taken { IsPrefix hub.now result.list }
    ensures seat { result ≡ seat_of seat.index result.list seat.count result.refused }
{
    seat.learn(hub.note(rt));
    for _ in rt.forever() {
        match seat.view() {
            Ok(view) => return view,
            Err(back) => seat = back,
        }
    }
    unreachable!()
}
