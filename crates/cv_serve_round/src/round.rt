ghost use Rattle.std.specs.Prelude.{◌≡◌, ◌+◌, ◌<◌, ◌^◌, length, take, drop, OnOk};
ghost use Rattle.std.specs.List.{AllByRecursion};
ghost use Rattle.cv_pool.specs.Hands.{AreSameHands};
ghost use Rattle.cv_serve_crew.specs.code.Team.{AreLater};
ghost use Rattle.cv_serve_dealing.specs.code.Dealt.{IsLanePrepared};
ghost use Rattle.cv_serve_lanes.specs.Counts.{failures};
ghost use Rattle.cv_serve_lanes.specs.code.Lane.{LanesDid};
ghost use Rattle.cv_serve_lanes.specs.code.Worker.{AreDone, AreHandsPrepared, HaveRoom, WorkersDid};

use cv_base::{Digest, NoMemory};
use cv_desk::Desk;
use cv_pool::Hand;
use cv_serve_crew::run_sides;
use cv_serve_dealing::Lane;
use cv_serve_lanes::{Hub, Identity, LaneTeam, Seat, WorkerCrew};
use std::alloc::Global;
use std::sync::Wait;
use std::thread::Threads;

/// Carries out the requests of lanes beside workers that index the layers of a queue. The first seats are the lanes', the others the
/// workers'.
pub fn run_all<D: Desk + Drop + Send + Sync, L: Identity + Send + Sync, W: Threads + Wait + Sync>(
    rt: &W,
    alloc: Global,
    hub: &Hub<D, L>,
    queue: &[Digest],
    lanes: &mut [Lane],
    hands: &mut [Hand],
    seats: &mut [Seat<D, L>],
    desks: &mut [D],
) -> Result<(), NoMemory>
    requires in_range { length desks.old < 2 ^ 32 }
    requires same { (length hands.old ≡ length desks.old) × (length seats.old ≡ length lanes.old + length desks.old) }
    requires lanes { AllByRecursion IsLanePrepared lanes.old }
    requires hands { AreHandsPrepared (length queue.now) hands.old }
    requires room { HaveRoom D.listings (drop (length lanes.old) seats.old) desks.old }
    ensures lanes { OnOk result (LanesDid D.tree L.limits (take (length lanes.old) seats.old) (take (length lanes.old) seats.new) lanes.old lanes.new) }
    ensures workers { OnOk result (WorkersDid D.listings D.faults queue.now 0 hands.new (drop (length lanes.old) seats.old) (drop (length lanes.old) seats.new) desks.old desks.new) }
    ensures hands { OnOk result (AreSameHands hands.old hands.new × AreDone hands.new) }
    ensures room { OnOk result (HaveRoom D.listings (drop (length lanes.old) seats.new) desks.new) }
    ensures listed { AreLater D.listings desks.old desks.new }
    ensures failed { AreLater (failures D.faults) desks.old desks.new }
{
    let team = LaneTeam { rt, hub };
    let crew = WorkerCrew {
        rt,
        alloc,
        hub,
        queue,
    };
    run_sides(rt, &team, &crew, lanes, hands, seats, desks)
}
