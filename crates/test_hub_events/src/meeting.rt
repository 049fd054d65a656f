use crate::events::event;
use crate::seats::entered;
use core::mem::replace_with;
use cv_base::NoMemory;
use cv_core::By;
use cv_hub::{Hub, Identity, Seat};
use std::alloc::Global;
use std::sync::Wait;
use std::sync::atomic::AtomicU64;
use std::sync::atomic::Ordering::SeqCst;
use std::thread::{self, Threads, yield_now};
use test_data::SampleDesk;

/// The most turns that a thread takes until the other one has come so far.
const TURNS: u32 = 10_000_000;

/// For this number of turns a view is kept once the other thread has submitted its first event.
const PAUSE: u32 = 100_000;

/// How many events are submitted.
const EVENTS: u64 = 1002;

/// What two threads count: the views that one of them entered, and the events that the other one submitted.
#[derive(Drop)]
struct Meeting {
    alloc: Global,
    entered: AtomicU64,
    submitted: AtomicU64,
}

/// A seat at which a thread works, and how many events were submitted when it ended its part, unless it ran out of memory.
#[derive(Drop)]
struct Part<L: Identity> {
    seat: Seat<SampleDesk, L>,
    result: Result<u64, NoMemory>,
}

/// The seats after a thread kept a view at the first one and another thread submitted 1,002 events at the second one, and how many had been
/// submitted when each was done. The view is kept until the first event is submitted, and some time longer.
pub fn met<L: Identity + Send + Sync, W: Threads + Wait + Sync>(
    rt: &W,
    alloc: Global,
    hub: &Hub<SampleDesk, L>,
    seats: Vec<Seat<SampleDesk, L>>,
) -> Result<(Vec<Seat<SampleDesk, L>>, Vec<u64>), NoMemory> {
    let meeting = Meeting {
        alloc,
        entered: AtomicU64::new(0),
        submitted: AtomicU64::new(0),
    };
    let mut parts = Vec::new(alloc);
    for seat in seats {
        parts.push(Part {
            seat,
            result: Ok(0),
        })?;
    }
    meet(rt, hub, &meeting, parts.as_mut_slice());
    taken_apart(alloc, parts)
}

/// The first part keeps a view and the other ones submit events, each in a thread of its own.
fn meet<L: Identity + Send + Sync, R: Threads + Wait + Sync>(
    rt: &R,
    hub: &Hub<SampleDesk, L>,
    meeting: &Meeting,
    parts: &mut [Part<L>],
) {
    thread::for_each_mut(
        rt,
        parts,
        2,
        &|index: usize, part: &mut Part<L>| {
            part.result = do_part(rt, hub, meeting, index, &mut part.seat);
        },
    );
}

/// Keeps a view, or submits events.
fn do_part<L: Identity, R: Wait>(
    rt: &R,
    hub: &Hub<SampleDesk, L>,
    meeting: &Meeting,
    index: usize,
    seat: &mut Seat<SampleDesk, L>,
) -> Result<u64, NoMemory> {
    match index {
        0 => Ok(replace_with(seat, (rt, meeting), keep)),
        _ => submit(rt, hub, meeting, seat),
    }
}

/// Keeps a view. How many events were submitted before it ended.
fn keep<L: Identity, R: Wait>(
    seat: Seat<SampleDesk, L>,
    with: (&R, &Meeting),
) -> (Seat<SampleDesk, L>, u64) {
    let (rt, meeting) = with;
    let view = entered(rt, seat);
    add_one(&meeting.entered);
    await_one(&meeting.submitted);
    for _ in 0..PAUSE {
        yield_now();
    }
    let submitted = meeting.submitted.load(SeqCst);
    (view.close(), submitted)
}

/// Submits the events, once a view is kept. How many it submitted.
fn submit<L: Identity, R: Wait>(
    rt: &R,
    hub: &Hub<SampleDesk, L>,
    meeting: &Meeting,
    seat: &mut Seat<SampleDesk, L>,
) -> Result<u64, NoMemory> {
    await_one(&meeting.entered);
    for line in 1..=EVENTS {
        let event = event(meeting.alloc, 0, line)?;
        hub.submit(rt, meeting.alloc, seat, By::Lane { lane: 0, line }, event)?;
        add_one(&meeting.submitted);
    }
    Ok(meeting.submitted.load(SeqCst))
}

fn add_one(count: &AtomicU64) {
    let _ = count.fetch_update(SeqCst, SeqCst, |count| count.checked_add(1));
}

/// Takes turns until a count is not 0.
fn await_one(count: &AtomicU64) {
    for _ in 0..TURNS {
        if count.load(SeqCst) > 0 {
            return;
        }
        yield_now();
    }
}

/// The seats of the parts, and the count of each.
fn taken_apart<L: Identity>(
    alloc: Global,
    parts: Vec<Part<L>>,
) -> Result<(Vec<Seat<SampleDesk, L>>, Vec<u64>), NoMemory> {
    let mut seats = Vec::new(alloc);
    let mut counts = Vec::new(alloc);
    for part in parts {
        let Part { seat, result } = part;
        seats.push(seat)?;
        counts.push(result?)?;
    }
    Ok((seats, counts))
}
