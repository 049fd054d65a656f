ghost use Rattle.cv_serve_lanes.specs.code.Refreshed.{AreRefreshed};

use cv_desk::Desk;
use cv_hub::{Hub, Identity, Seat};
use std::sync::Wait;

/// Each seat learns a note of the hub: it has then seen at least the events that were taken.
#[tactic(auto, using(cv_hub_seats::proofs::Prefixes::prefix_chain))]
pub fn refresh<D: Desk + Drop, L: Identity, W: Wait>(
    rt: &W,
    hub: &Hub<D, L>,
    seats: &mut [Seat<D, L>],
)
    ensures { AreRefreshed hub.now seats.old seats.new }
{
    let Some((seat, seats)) = seats.split_first_mut() else {
        return;
    };
    seat.learn(hub.note(rt));
    refresh(rt, hub, seats);
}
