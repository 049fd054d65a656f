ghost use Rattle.std.specs.Prelude.{◌≡◌, ◌<◌, ◌≤◌};
ghost use Rattle.test_hub_events.specs.Core.{opened};

use cv_base::NoMemory;
use cv_hub::{Blank, Hub, Identity, Seat};
use std::alloc::Global;
use std::marker::Brand;
use std::process::Abort;
use std::sync::{Wait, ledger};
use std::thread::Threads;
use test_hub_events::{
    Core, EventEntry, LINES, SampleDesk, Task, Work, lanes_with_entries, learned, met, new_core,
    replayed, seats_with_right_views, shown_to_first, taken, worked,
};

/// What came of seats that worked together: the receipts and the views of each, the entries that all took, how many events a seat has seen
/// that learned a note, and what the hub shows.
#[derive(Drop)]
struct Together {
    work: Work,
    entries: Vec<EventEntry>,
    seen: u64,
    shown: String,
}

#[test]
fn seats_in_threads_submit_one_list_of_events(rt: HostRuntime) -> Result<(), NoMemory> {
    let alloc = rt.alloc();
    let core = new_core(alloc)?;
    let all = work_together::<Brand, _>(&rt, alloc, Blank::new(8), core, 8, 8)?;
    let again = replayed::<Brand>(alloc, ledger::Blank::new(1), all.entries.as_slice())?;
    compare(&rt, &all, &again, 8);
    Ok(())
}

#[test]
fn views_in_threads_show_the_machine_after_their_fronts(rt: HostRuntime) -> Result<(), NoMemory> {
    let alloc = rt.alloc();
    let core = new_core(alloc)?;
    let all = work_together::<Brand, _>(&rt, alloc, Blank::new(10), core, 2, 10)?;
    let again = replayed::<Brand>(alloc, ledger::Blank::new(1), all.entries.as_slice())?;
    compare(&rt, &all, &again, 2);
    let right = seats_with_right_views::<Brand>(
        alloc,
        ledger::Blank::new(1),
        all.entries.as_slice(),
        all.work.views.as_slice(),
    )?;
    assert_eq!(rt; right, 10);
    Ok(())
}

/// Each event was taken and seen, each lane that submitted has its receipts, and the hub shows what the replay of its entries shows.
fn compare<R: Abort>(rt: &R, all: &Together, again: &Option<String>, submitters: u8) {
    let events = u64::from(submitters) * LINES;
    let submitters = usize::from(submitters);
    assert_eq!(rt; all.entries.len() as u64, events);
    assert_eq!(rt; all.seen, events);
    let receipts = all.work.receipts.get(..submitters).unwrap_or(&[]);
    assert_eq!(rt;
        lanes_with_entries(receipts, LINES, &all.entries),
        submitters
    );
    assert!(rt; again.is_some(), "the entries do not replay");
    assert!(rt; is_text(again, all.shown.as_str()));
}

fn is_text(found: &Option<String>, text: &str) -> bool {
    match found {
        Some(found) => found.as_str() == text,
        None => false,
    }
}

/// The first seats submit their events while the other ones view the hub, and all take the events.
fn work_together<L: Identity + Send + Sync, W: Threads + Wait + Sync>(
    rt: &W,
    alloc: Global,
    blank: Blank,
    core: Core<SampleDesk>,
    submitters: u8,
    seats: u32,
) -> Result<Together, NoMemory>
    requires name { blank.name ≡ L.name }
    requires parts { (blank.parts ≡ L.parts) × (L.parts ≡ seats) }
    requires seats { (1 ≤ seats) × (seats ≤ 64) }
    requires book { blank.book ≡ L.book }
    requires core { core ≡ opened L.limits }
{
    let (mut hub, all) = Hub::<SampleDesk, L>::start(rt, alloc, blank, core, seats)?;
    let task = Task { alloc, submitters };
    let together = taken_together(rt, &mut hub, &task, all, seats as usize);
    hub.end(rt, Vec::new(alloc));
    together
}

/// All that seats took and saw of the events that they submitted.
fn taken_together<L: Identity + Send + Sync, W: Threads + Wait + Sync>(
    rt: &W,
    hub: &mut Hub<SampleDesk, L>,
    task: &Task,
    seats: Vec<Seat<SampleDesk, L>>,
    count: usize,
) -> Result<Together, NoMemory>
    requires parts { L.parts ≡ count }
    requires has_seats { 0 < count }
{
    let (mut seats, work) = worked(rt, hub, task, seats)?;
    let seen = learned(rt, hub, seats.as_mut_slice());
    let entries = taken(rt, hub, seats.as_mut_slice(), count)?;
    let shown = shown_to_first(rt, task.alloc, hub, seats.as_mut_slice())?;
    Ok(Together {
        work,
        entries,
        seen,
        shown,
    })
}

/// What came of a view that was kept: how many events had been submitted when each of two threads was done, how many events a seat has seen
/// that learned a note, and how many all took.
#[derive(Drop)]
struct Kept {
    counts: Vec<u64>,
    seen: u64,
    entries: usize,
}

#[test]
fn a_second_event_waits_for_a_view_that_is_kept(rt: HostRuntime) -> Result<(), NoMemory> {
    let core = new_core(rt.alloc())?;
    let kept = keep_and_submit::<Brand, _>(&rt, rt.alloc(), Blank::new(2), core)?;
    let how = match kept.counts.as_slice() {
        [0 | 1002, _] => "in turn, as without memory for a thread",
        _ => "at once",
    };
    assert_eq!(rt; how, "at once");
    assert_eq!(rt; kept.counts.as_slice(), [1, 1002].as_slice());
    assert_eq!(rt; (kept.seen, kept.entries), (1002, 1002));
    Ok(())
}

/// Of two seats one keeps a view while the other one submits events.
fn keep_and_submit<L: Identity + Send + Sync, W: Threads + Wait + Sync>(
    rt: &W,
    alloc: Global,
    blank: Blank,
    core: Core<SampleDesk>,
) -> Result<Kept, NoMemory>
    requires name { blank.name ≡ L.name }
    requires parts { (blank.parts ≡ L.parts) × (L.parts ≡ 2) }
    requires book { blank.book ≡ L.book }
    requires core { core ≡ opened L.limits }
{
    let (mut hub, seats) = Hub::<SampleDesk, L>::start(rt, alloc, blank, core, 2)?;
    let kept = taken_after_meeting(rt, alloc, &mut hub, seats);
    hub.end(rt, Vec::new(alloc));
    kept
}

fn taken_after_meeting<L: Identity + Send + Sync, W: Threads + Wait + Sync>(
    rt: &W,
    alloc: Global,
    hub: &mut Hub<SampleDesk, L>,
    seats: Vec<Seat<SampleDesk, L>>,
) -> Result<Kept, NoMemory>
    requires parts { L.parts ≡ 2 }
{
    let (mut seats, counts) = met(rt, alloc, hub, seats)?;
    let seen = learned(rt, hub, seats.as_mut_slice());
    let entries = taken(rt, hub, seats.as_mut_slice(), 2)?;
    Ok(Kept {
        counts,
        seen,
        entries: entries.len(),
    })
}
