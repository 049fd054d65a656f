ghost use Rattle.std.specs.Prelude.{◌≡◌, ◌<◌, ◌≤◌, ◌∷◌, [], length};
ghost use Rattle.std.specs.List.{AllByRecursion};
ghost use Rattle.crossbeam_deque.specs.Handles.{view, IsPassOf, stealer_deque, stealer_flavor};
ghost use Rattle.cv_pool.specs.code.Tasks.{marks};
ghost use Rattle.cv_pool.specs.code.Accounts.{with_taken, IsWithin};
ghost use Rattle.cv_pool.specs.code.Seats.{IsSeated, SeatTook, SeatsTook, task_of};

use crate::account::{Account, Taking};
use crate::task::{Task, Thief};
use crossbeam_deque::{Pass, Steal};
use std::sync::Wait;

/// A hand's seat at one deque.
#[derive(Drop)]
pub struct Seat {
    pub thief: Thief,
    pub pass: Pass<Task, Account>,
    /// Whether the hand has yet to take a mark here.
    pub more: bool,
}

/// A job of a deque, or None for a mark.
fn steal_one<R: Wait>(rt: &R, thief: &Thief, pass: &mut Pass<Task, Account>) -> Option<u32>
    requires table { IsPassOf (stealer_deque thief.now) pass.old }
    requires fifo { stealer_flavor thief.now ≡ 0 }
    requires full { marks (view pass.old).pushed ≡ 9 }
    requires share { (view pass.old).ended < (view pass.old).shares }
    ensures table { IsPassOf (stealer_deque thief.now) pass.new }
    ensures took { view pass.new ≡ with_taken (view pass.old) (task_of result ∷ []) }
    ensures within { IsWithin (view pass.new) }
{
    for _ in rt.forever() {
        match thief.steal_as::<Taking>(pass) {
            Steal::Success(Task::Job(job)) => return Some(job),
            Steal::Success(Task::End) => return None,
            Steal::Empty => unreachable!(),
            Steal::Retry => {}
        }
    }
    unreachable!()
}

impl Seat {
    /// A job of the deque, or None if no job is in it, and none will be.
    fn take<R: Wait>(&mut self, rt: &R) -> Option<u32>
        requires { IsSeated self.old }
        ensures { SeatTook self.old result self.new }
    {
        if !self.more {
            return None;
        }
        let job = steal_one(rt, &self.thief, &mut self.pass);
        self.more = job.is_some();
        job
    }
}

/// A job of the first deque that has one, or None if none has.
fn take_first<R: Wait>(rt: &R, seats: &mut [Seat]) -> Option<u32>
    requires { AllByRecursion IsSeated seats.old }
    ensures { SeatsTook seats.old result seats.new }
{
    let (seat, others) = seats.split_first_mut()?;
    match seat.take(rt) {
        Some(job) => Some(job),
        None => take_first(rt, others),
    }
}

/// A job of a deque from an index on, else of one before it, or None if none has one.
pub fn take_from<R: Wait>(rt: &R, seats: &mut Vec<Seat>, index: usize) -> Option<u32>
    requires { AllByRecursion IsSeated seats.old.items × (index ≤ length seats.old.items) }
    ensures { SeatsTook seats.old.items result seats.new.items }
{
    let (before, after) = seats.as_mut_slice().split_at_mut(index);
    match take_first(rt, after) {
        Some(job) => Some(job),
        None => take_first(rt, before),
    }
}
