use crate::events::event;
use crate::views::{Viewed, view_until};
use cv_base::NoMemory;
use cv_core::{By, Reply};
use cv_hub::{Hub, Identity, Seat};
use std::alloc::Global;
use std::sync::Wait;
use std::thread::{self, Threads};
use test_data::SampleDesk;

/// How many events a lane submits.
pub const LINES: u64 = 1250;

/// How many lanes there are at most.
const LANES: usize = 16;

/// What lanes do: the first ones submit events, and the others view the hub until they have seen all of these.
#[derive(Clone, Copy, Debug)]
pub struct Task {
    pub alloc: Global,
    pub submitters: u8,
}

/// A seat at which a thread works, with the numbers and the replies of its receipts, what its views showed, and how its work ended.
#[derive(Drop)]
struct Lane<L: Identity> {
    seat: Seat<SampleDesk, L>,
    receipts: Vec<(u64, Reply)>,
    views: Vec<Viewed>,
    result: Result<(), NoMemory>,
}

/// What lanes were given and saw: the numbers and the replies of the receipts of each, and what its views showed.
#[derive(Drop)]
pub struct Work {
    pub receipts: Vec<Vec<(u64, Reply)>>,
    pub views: Vec<Vec<Viewed>>,
}

/// The seats after each did its part of a task in a thread of its own, and what came of it. A lane that runs out of memory stops, and
/// then so does this call. It waits for the threads.
pub fn worked<L: Identity + Send + Sync, W: Threads + Wait + Sync>(
    rt: &W,
    hub: &Hub<SampleDesk, L>,
    task: &Task,
    seats: Vec<Seat<SampleDesk, L>>,
) -> Result<(Vec<Seat<SampleDesk, L>>, Work), NoMemory> {
    let mut lanes = lanes_of(task.alloc, seats)?;
    work_all(rt, hub, task, lanes.as_mut_slice());
    taken_apart(task.alloc, lanes)
}

/// A lane for each seat, without receipts and views.
fn lanes_of<L: Identity>(
    alloc: Global,
    seats: Vec<Seat<SampleDesk, L>>,
) -> Result<Vec<Lane<L>>, NoMemory> {
    let mut lanes = Vec::new(alloc);
    for seat in seats {
        lanes.push(Lane {
            seat,
            receipts: Vec::new(alloc),
            views: Vec::new(alloc),
            result: Ok(()),
        })?;
    }
    Ok(lanes)
}

/// Each lane does its part of a task in a thread of its own.
fn work_all<L: Identity + Send + Sync, R: Threads + Wait + Sync>(
    rt: &R,
    hub: &Hub<SampleDesk, L>,
    task: &Task,
    lanes: &mut [Lane<L>],
) {
    thread::for_each_mut(
        rt,
        lanes,
        LANES,
        &|index: usize, lane: &mut Lane<L>| {
            lane.result = do_part(rt, hub, task, (index % LANES) as u8, lane);
        },
    );
}

/// Submits events, or views the hub.
fn do_part<L: Identity, R: Wait>(
    rt: &R,
    hub: &Hub<SampleDesk, L>,
    task: &Task,
    index: u8,
    lane: &mut Lane<L>,
) -> Result<(), NoMemory> {
    if index < task.submitters {
        return submit_lines(rt, task.alloc, hub, index, lane);
    }
    let last = u64::from(task.submitters) * LINES;
    view_until(rt, task.alloc, hub, last, &mut lane.seat, &mut lane.views)
}

fn submit_lines<L: Identity, R: Wait>(
    rt: &R,
    alloc: Global,
    hub: &Hub<SampleDesk, L>,
    index: u8,
    lane: &mut Lane<L>,
) -> Result<(), NoMemory> {
    for line in 1..=LINES {
        let by = By::Lane { lane: index, line };
        let event = event(alloc, index, line)?;
        let receipt = hub.submit(rt, alloc, &mut lane.seat, by, event)?;
        lane.receipts.push((receipt.number, receipt.reply))?;
    }
    Ok(())
}

/// The seats of lanes, and what came of the work of each.
fn taken_apart<L: Identity>(
    alloc: Global,
    lanes: Vec<Lane<L>>,
) -> Result<(Vec<Seat<SampleDesk, L>>, Work), NoMemory> {
    let mut seats = Vec::new(alloc);
    let mut all = Work {
        receipts: Vec::new(alloc),
        views: Vec::new(alloc),
    };
    for lane in lanes {
        let Lane {
            seat,
            receipts,
            views,
            result,
        } = lane;
        result?;
        seats.push(seat)?;
        all.receipts.push(receipts)?;
        all.views.push(views)?;
    }
    Ok((seats, all))
}
