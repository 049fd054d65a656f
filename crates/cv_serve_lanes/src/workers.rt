ghost use Rattle.std.specs.Prelude.{length};
ghost use Rattle.cv_serve_lanes.specs.Counts.{failures};
ghost use Rattle.cv_serve_lanes.specs.code.Worker.{HandDid, HasRoom, IsHandPrepared};

use crate::worker::run_worker;
use cv_base::{Digest, NoMemory};
use cv_desk::Desk;
use cv_hub::{Hub, Identity, Seat};
use cv_pool::Hand;
use cv_serve_crew::Crew;
use std::alloc::Global;
use std::sync::Wait;

/// What workers work with.
#[derive(Drop)]
pub struct WorkerCrew<'a, D: Desk + Drop, L: Identity, W: Wait> {
    pub rt: &'a W,
    pub alloc: Global,
    pub hub: &'a Hub<D, L>,
    pub queue: &'a [Digest],
}

impl<'a, D: Desk + Drop, L: Identity, W: Wait> Crew<Hand, Seat<D, L>, D>
    for WorkerCrew<'a, D, L, W> {
    ghost prepared = { λ crew _ hand seat desk. IsHandPrepared (length crew.queue.now) hand × HasRoom D.listings seat desk };

    ghost did = { λ crew worker hand hand_after seat seat_after desk desk_after. HandDid D.listings D.faults crew.queue.now worker hand hand_after seat seat_after desk desk_after };

    ghost listed = { D.listings };

    ghost failed = { failures D.faults };

    fn is_idle(&self) -> bool {
        self.queue.is_empty()
    }

    fn run(
        &self,
        number: u32,
        hand: &mut Hand,
        seat: &mut Seat<D, L>,
        desk: &mut D,
    ) -> Result<(), NoMemory> {
        run_worker(
            self.rt, self.alloc, self.hub, number, self.queue, hand, seat, desk,
        )
    }
}
