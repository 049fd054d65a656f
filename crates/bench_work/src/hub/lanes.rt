ghost use Rattle.cv_core.specs.Core.{IsSound, act_of};

use crate::hub::spread::Spread;
use core::mem::replace_with;
use cv_base::{Digest, NoMemory};
use cv_core::{Event, Reply};
use cv_core_records::By;
use cv_hub::{Hub, Identity, Seat, View};
use std::alloc::Global;
use std::sync::Wait;
use std::thread::{self, Threads};
use test_data::{SampleDesk, hash};

/// What a lane does, and how often.
#[derive(Clone, Copy, Debug, PartialEq, Eq)]
pub enum Work {
    /// Submits an event: its worker claims the lane's layer, or gives it back.
    Submit,
    /// Takes a view, and looks up the report of one of the images, of which this is the number.
    Report { images: u32 },
}

impl Work {
    /// The word for it in the output.
    pub fn name(self) -> &'static str {
        match self {
            Work::Submit => "submit",
            Work::Report { .. } => "report",
        }
    }
}

/// What all lanes do, each this number of times.
#[derive(Clone, Copy, Debug)]
pub struct Task {
    pub alloc: Global,
    pub work: Work,
    pub times: u64,
}

/// A seat that a thread works at, with its number, a layer that nobody else claims, whether its worker has claimed it, how often the
/// last task was done as it should be, and how long the reports took that were looked up beside an update.
#[derive(Drop)]
pub struct Lane<L: Identity> {
    pub seat: Seat<SampleDesk, L>,
    pub number: u32,
    pub layer: Digest,
    pub is_claimed: bool,
    pub done: u64,
    pub spread: Spread,
}

/// Each lane does a task in a thread of its own, of which there are at most eight.
pub fn run_lanes<L: Identity + Send + Sync, R: Threads + Wait + Sync>(
    rt: &R,
    hub: &Hub<SampleDesk, L>,
    task: &Task,
    lanes: &mut [Lane<L>],
) {
    thread::for_each_mut(
        rt,
        lanes,
        8,
        &|_: usize, lane: &mut Lane<L>| {
            lane.done = done(rt, hub, task, lane);
        },
    );
}

/// Does a task, and counts how often it was done as it should be. A lane that runs out of memory stops.
fn done<L: Identity, R: Wait>(
    rt: &R,
    hub: &Hub<SampleDesk, L>,
    task: &Task,
    lane: &mut Lane<L>,
) -> u64 {
    let mut done = 0;
    for time in 0..task.times {
        match is_done(rt, hub, task, time, lane) {
            Ok(true) => done = u64::saturating_add(done, 1),
            Ok(false) => {}
            Err(NoMemory) => return done,
        }
    }
    done
}

/// Does the work of a task once. Whether it was done as it should be.
fn is_done<L: Identity, R: Wait>(
    rt: &R,
    hub: &Hub<SampleDesk, L>,
    task: &Task,
    time: u64,
    lane: &mut Lane<L>,
) -> Result<bool, NoMemory> {
    match task.work {
        Work::Submit => submit(rt, hub, task.alloc, lane),
        Work::Report { images } => Ok(has_report(rt, image_at(time, images), &mut lane.seat)),
    }
}

/// The lane's worker claims its layer, or gives it back. Whether the machine did so.
fn submit<L: Identity, R: Wait>(
    rt: &R,
    hub: &Hub<SampleDesk, L>,
    alloc: Global,
    lane: &mut Lane<L>,
) -> Result<bool, NoMemory> {
    let by = By::Worker(lane.number);
    let event = next_event(lane);
    let receipt = hub.submit(rt, alloc, &mut lane.seat, by, event)?;
    let was_claimed = lane.is_claimed;
    lane.is_claimed = receipt.reply == Reply::Claimed;
    Ok(lane.is_claimed || was_claimed && receipt.reply == Reply::Requeued)
}

fn next_event<L: Identity>(lane: &Lane<L>) -> Event<SampleDesk>
    ensures { IsSound (act_of result) }
{
    if lane.is_claimed {
        Event::Fault(lane.layer, lane.number)
    } else {
        Event::Claim(lane.layer, lane.number)
    }
}

/// One of the images in turn.
pub fn image_at(time: u64, images: u32) -> u32 {
    if images == 0 {
        return 0;
    }
    (time % u64::from(images)) as u32
}

/// Whether a view has the report of an image.
pub fn has_report<L: Identity, R: Wait>(
    rt: &R,
    image: u32,
    seat: &mut Seat<SampleDesk, L>,
) -> bool {
    replace_with(seat, (rt, image), report_from)
}

fn report_from<L: Identity, R: Wait>(
    seat: Seat<SampleDesk, L>,
    asked: (&R, u32),
) -> (Seat<SampleDesk, L>, bool) {
    let (rt, image) = asked;
    let view = entered(rt, seat);
    let has_report = view.report(&hash(image)).is_ok();
    (view.close(), has_report)
}

/// The view that a seat enters. It is tried again for as long as the seat is handed back.
fn entered<L: Identity, R: Wait>(rt: &R, mut seat: Seat<SampleDesk, L>) -> View<SampleDesk, L> {
    for _ in rt.forever() {
        match seat.view() {
            Ok(view) => return view,
            Err(back) => seat = back,
        }
    }
    unreachable!()
}
