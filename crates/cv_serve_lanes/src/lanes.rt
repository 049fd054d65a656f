ghost use Rattle.std.specs.Prelude.{OnOk};
ghost use Rattle.cv_serve_dealing.specs.code.Dealt.{IsLanePrepared};
ghost use Rattle.cv_serve_lanes.specs.code.Lane.{LaneAt};

use crate::request::carry_out;
use cv_base::NoMemory;
use cv_desk::Desk;
use cv_hub::{Hub, Identity, Seat};
use cv_serve_crew::Team;
use cv_serve_dealing::Lane;
use std::mem;
use std::sync::Wait;

/// What lanes work with.
#[derive(Drop)]
pub struct LaneTeam<'a, D: Desk + Drop, L: Identity, W: Wait> {
    pub rt: &'a W,
    pub hub: &'a Hub<D, L>,
}

impl<'a, D: Desk + Drop, L: Identity, W: Wait> Team<Seat<D, L>, Lane> for LaneTeam<'a, D, L, W> {
    ghost prepared = { λ _ _ lane. IsLanePrepared lane };

    ghost did = { λ _ before after lane lane_after. LaneAt D.tree L.limits before after lane lane_after };

    fn is_idle(&self, lane: &Lane) -> bool {
        lane.requested.is_empty()
    }

    fn run(&self, seat: &mut Seat<D, L>, lane: &mut Lane) -> Result<(), NoMemory> {
        run_lane(self.rt, self.hub, seat, lane)
    }
}

/// Carries out the requests of a lane in their order.
fn run_lane<D: Desk + Drop, L: Identity, W: Wait>(
    rt: &W,
    hub: &Hub<D, L>,
    seat: &mut Seat<D, L>,
    lane: &mut Lane,
) -> Result<(), NoMemory>
    requires { IsLanePrepared lane.old }
    ensures { OnOk result (LaneAt D.tree L.limits seat.old seat.new lane.old lane.new) }
{
    let alloc = *lane.requested.allocator();
    let requested = mem::replace(&mut lane.requested, Vec::new(alloc));
    for one in requested {
        if let Some(read) = carry_out(rt, alloc, hub, seat, one) {
            lane.reads.push(read)?;
        }
    }
    Ok(())
}
