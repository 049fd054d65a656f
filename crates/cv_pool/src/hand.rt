ghost use Rattle.std.specs.Prelude.{◌≡◌, ◌<◌, true, None, IfSome};
ghost use Rattle.std.specs.List.{AllByRecursion};
ghost use Rattle.cv_pool.specs.Hands.{hand_after};

use crate::queue_owners::QueueOwners;
use crate::seat::{Seat, take_from};
use std::marker::Model;
use std::sync::Wait;

/// One of the hands of a fill. It takes jobs, and keeps the list of those that it took.
#[derive(Drop)]
pub struct Hand {
    pub(crate) jobs: u32,
    pub(crate) index: usize,
    pub(crate) seats: Vec<Seat>,
    pub(crate) list: Vec<u32>,
    pub(crate) queue_owners: Option<QueueOwners>,
}

impl Model for Hand {
    ghost use Rattle.cv_pool.specs.Hands.{HandState};

    ghost Value = { HandState };

    ghost use Rattle.cv_pool.specs.code.HandParts.{hand_state, IsHand};

    ghost view = { λ h. hand_state h.jobs h.index h.seats.items h.list.items };

    ghost invariant = { λ h. IsHand h.jobs h.index h.seats.items h.list h.queue_owners };
}

impl Hand {
    /// The next job, which is appended to the hand's list: one of the hand's own deque while it has one, else one of
    /// another hand's. None if no deque has a job, and none will have one; each later call gives None, too. It takes no
    /// memory. It waits while other hands take the jobs that it tries to take.
    pub fn next<R: Wait>(&mut self, rt: &R) -> Option<u32>
        ensures hand { self.new ≡ hand_after self.old result }
        ensures below { IfSome result (λ job. job < self.old.fill.jobs) }
        ensures last { self.old.done ≡ true → result ≡ None }
    {
        let job = take_from(rt, &mut self.seats, self.index)?;
        self.list.push_reserved(job);
        Some(job)
    }
}
