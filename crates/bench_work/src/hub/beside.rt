use crate::hub::lanes::{Lane, has_report, image_at};
use crate::hub::speed::passed;
use cv_base::{NoMemory, Text};
use cv_core::{Event, Reply};
use cv_core_records::By;
use cv_hub::{Hub, Identity};
use std::alloc::Global;
use std::sync::Wait;
use std::sync::atomic::AtomicU64;
use std::sync::atomic::Ordering::SeqCst;
use std::thread::{self, Threads, yield_now};
use std::time::{Clock, Instant};
use test_data::{FeedRecords, SampleDesk};

/// The most turns that a thread takes until the update begins.
const TURNS: u64 = 1_000_000_000;

/// The most reports that a lane looks up beside an update.
const MOST_REPORTS: u64 = 1_000_000_000;

/// An update is not begun, or begun, or done.
const BEGUN: u64 = 1;

const DONE: u64 = 2;

/// An update that the first of some lanes submits, and how far it is. The other ones look up reports of this number of images until it is
/// done.
#[derive(Drop)]
pub struct Update {
    alloc: Global,
    images: u32,
    records: FeedRecords,
    revision: u64,
    state: AtomicU64,
}

impl Update {
    /// An update that is not begun, to the records of a revision.
    pub fn new(alloc: Global, images: u32, records: FeedRecords, revision: u64) -> Update {
        Update {
            alloc,
            images,
            records,
            revision,
            state: AtomicU64::new(0),
        }
    }
}

/// The first lane submits an update, and the other ones look up reports from when it begins until it is done, each in a
/// thread of its own, of which there are at most eight.
pub fn run_beside<L: Identity + Send + Sync, R: Threads + Wait + Clock + Sync>(
    rt: &R,
    hub: &Hub<SampleDesk, L>,
    update: &Update,
    lanes: &mut [Lane<L>],
) {
    thread::for_each_mut(
        rt,
        lanes,
        8,
        &|index: usize, lane: &mut Lane<L>| {
            do_part(rt, hub, update, index, lane);
        },
    );
}

/// Submits the update, or looks up reports.
fn do_part<L: Identity, R: Wait + Clock>(
    rt: &R,
    hub: &Hub<SampleDesk, L>,
    update: &Update,
    index: usize,
    lane: &mut Lane<L>,
) {
    if index > 0 {
        return look_up(rt, update, lane);
    }
    let _ = submit(rt, hub, update, lane);
    update.state.store(DONE, SeqCst);
}

/// Submits the update, and notes how long it took if the machine did it.
fn submit<L: Identity, R: Wait + Clock>(
    rt: &R,
    hub: &Hub<SampleDesk, L>,
    update: &Update,
    lane: &mut Lane<L>,
) -> Result<(), NoMemory> {
    let feed = Text::of(update.alloc, "feed")?;
    let records = update.records.at_revision(update.alloc, update.revision)?;
    let event = Event::Update(feed, records);
    let by = By::Worker(lane.number);
    let begun = Instant::now(rt).ok();
    update.state.store(BEGUN, SeqCst);
    let receipt = hub.submit(rt, update.alloc, &mut lane.seat, by, event)?;
    if matches!(receipt.reply, Reply::Updated { .. }) {
        lane.spread.add(passed(rt, begun));
    }
    Ok(())
}

/// Looks up reports while the update is submitted, and notes how long each took with its view.
fn look_up<L: Identity, R: Wait + Clock>(rt: &R, update: &Update, lane: &mut Lane<L>) {
    await_begun(update);
    for time in 0..MOST_REPORTS {
        if update.state.load(SeqCst) == DONE {
            return;
        }
        let begun = Instant::now(rt).ok();
        if has_report(rt, image_at(time, update.images), &mut lane.seat) {
            lane.spread.add(passed(rt, begun));
        }
    }
}

fn await_begun(update: &Update) {
    for _ in 0..TURNS {
        if update.state.load(SeqCst) >= BEGUN {
            return;
        }
        yield_now();
    }
}
