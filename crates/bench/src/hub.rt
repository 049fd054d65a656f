ghost use Rattle.std.specs.Prelude.{◌≡◌};
ghost use Rattle.cv_core.specs.Core.{IsSound, act_of, opened};

use bench_work::{Lane, Speed, Spread, Task, Update, Watch, Work, run_beside, run_lanes};
use cv_base::{Digest, NoMemory};
use cv_core::{Core, Event, Limits, MAX_FEEDS, MAX_IMAGES, Reply};
use cv_core_records::By;
use cv_hub::{Blank, Hub, Identity, Seat};
use std::alloc::Global;
use std::io;
use std::marker::Brand;
use std::sync::Wait;
use std::thread::Threads;
use std::time::{Clock, CpuClock};
use test_data::{FeedRecords, SampleDesk, image_facts, last_layer, manifest, number};

/// How many seats the hub has: as many as the hub of a service with eight lanes and eight workers, and one.
const SEATS: u32 = 17;

/// How many threads work concurrently.
const THREADS: [usize; 4] = [1, 2, 4, 8];

/// How many threads there are while an update is submitted: one submits it, and the others look up reports.
const THREADS_AT_UPDATE: usize = 4;

/// How many updates are submitted.
const UPDATES: u64 = 3;

const LIMITS: Limits = Limits {
    images: MAX_IMAGES,
    feeds: MAX_FEEDS,
};

const WORKER: u32 = 0;

/// What was measured: how fast each kind of work was done, how long updates took, and the reports that were looked up meanwhile.
#[derive(Drop)]
struct Figures {
    speeds: Vec<Speed>,
    updates: Spread,
    reports: Spread,
}

/// Does what the arguments say, `[IMAGES [TIMES [RECORDS]]]`: the hub has that number of images, and 1, 2, 4 and 8 threads
/// do each kind of work that number of times in all; then three updates of that number of records are submitted, while
/// three threads look up reports. Prints each kind of work, the threads, how often all of them did it and, with arguments,
/// how often in a second and the nanoseconds of processor time for one; of the updates, and with arguments of the reports
/// meanwhile, the number, the median, the 99th percentile and the longest time, in nanoseconds.
pub fn report<W: Threads + Wait + Clock + CpuClock + Sync>(
    rt: &HostRuntime,
    threads: &W,
    arguments: &[String],
) -> io::Result<()> {
    let images = number(arguments, 0, 10);
    let times = number(arguments, 1, 100);
    let records = number(arguments, 2, 100);
    match measured_of(threads, rt.alloc(), images, times, records) {
        Ok(figures) => print_figures(rt, &figures, !arguments.is_empty()),
        Err(NoMemory) => println!(rt; "hub: out of memory"),
    }
}

fn print_figures(rt: &HostRuntime, figures: &Figures, timed: bool) -> io::Result<()> {
    print_speeds(rt, &figures.speeds, timed)?;
    print_spread(rt, "update", &figures.updates, timed)?;
    if timed {
        print_spread(rt, "report-at-update", &figures.reports, timed)?;
    }
    Ok(())
}

fn print_spread(rt: &HostRuntime, name: &str, spread: &Spread, timed: bool) -> io::Result<()> {
    print!(rt; "hub {name} {THREADS_AT_UPDATE} {}", spread.count())?;
    if timed {
        let median = spread.percentile(50);
        print!(rt; " {median} {} {}", spread.percentile(99), spread.longest())?;
    }
    println!(rt; "")
}

fn print_speeds(rt: &HostRuntime, speeds: &[Speed], timed: bool) -> io::Result<()> {
    for work in speeds {
        print!(rt; "hub {} {} {}", work.name, work.threads, work.count)?;
        if timed {
            print!(rt; " {} {}", work.each_second(), work.each())?;
        }
        println!(rt; "")?;
    }
    Ok(())
}

/// Registers and indexes images at a hub, at least one and at most as many as there may be besides one for each seat. Then threads
/// submit this number of events in all, and look up this number of reports, and updates of this number of records follow.
fn measured_of<W: Threads + Wait + Clock + CpuClock + Sync>(
    rt: &W,
    alloc: Global,
    images: u64,
    times: u64,
    records: u64,
) -> Result<Figures, NoMemory> {
    let core = Core::new(alloc, LIMITS)?;
    let plan = Plan {
        images: images_of(images),
        times,
        records,
    };
    measured::<Brand, W>(rt, alloc, Blank::new(17), core, plan)
}

fn images_of(images: u64) -> u32 {
    match u32::try_from(images) {
        Ok(images) => images.clamp(1, MAX_IMAGES - SEATS),
        Err(_) => MAX_IMAGES - SEATS,
    }
}

/// How many images there are, how often each kind of work is done in all, and how many records an update has.
#[derive(Clone, Copy, Debug)]
struct Plan {
    images: u32,
    times: u64,
    records: u64,
}

fn measured<L: Identity + Send + Sync, W: Threads + Wait + Clock + CpuClock + Sync>(
    rt: &W,
    alloc: Global,
    blank: Blank,
    core: Core<SampleDesk>,
    plan: Plan,
) -> Result<Figures, NoMemory>
    requires name { blank.name ≡ L.name }
    requires parts { (blank.parts ≡ L.parts) × (L.parts ≡ 17) }
    requires book { blank.book ≡ L.book }
    requires core { core ≡ opened L.limits }
{
    let (hub, seats) = Hub::<SampleDesk, L>::start(rt, alloc, blank, core, SEATS)?;
    let measured = measured_at(rt, alloc, &hub, seats, plan);
    hub.end(rt, Vec::new(alloc));
    measured
}

/// Fills a hub, and measures all that is done at its seats.
fn measured_at<L: Identity + Send + Sync, W: Threads + Wait + Clock + CpuClock + Sync>(
    rt: &W,
    alloc: Global,
    hub: &Hub<SampleDesk, L>,
    seats: Vec<Seat<SampleDesk, L>>,
    plan: Plan,
) -> Result<Figures, NoMemory> {
    let mut lanes = lanes_of(alloc, plan.images, seats)?;
    if let Some(first) = lanes.first_mut() {
        let mut client = Client {
            rt,
            alloc,
            hub,
            seat: &mut first.seat,
        };
        client.fill(plan.images)?;
    }
    let lanes = lanes.as_mut_slice();
    let speeds = speeds_of(rt, alloc, hub, lanes, plan)?;
    update_all(rt, alloc, hub, lanes, plan);
    spreads_of(alloc, speeds, lanes)
}

/// What was measured, with the times of the updates of the first lane, and of the reports of the other ones.
fn spreads_of<L: Identity>(
    alloc: Global,
    speeds: Vec<Speed>,
    lanes: &[Lane<L>],
) -> Result<Figures, NoMemory> {
    let mut updates = Spread::new(alloc)?;
    let mut reports = Spread::new(alloc)?;
    if let Some((first, others)) = lanes.split_first() {
        updates.add_all(&first.spread);
        for lane in others {
            reports.add_all(&lane.spread);
        }
    }
    Ok(Figures {
        speeds,
        updates,
        reports,
    })
}

/// The first lane submits updates, and other lanes look up reports meanwhile.
fn update_all<L: Identity + Send + Sync, W: Threads + Wait + Clock + Sync>(
    rt: &W,
    alloc: Global,
    hub: &Hub<SampleDesk, L>,
    lanes: &mut [Lane<L>],
    plan: Plan,
) {
    let records = FeedRecords {
        count: plan.records,
        every: 1,
        affecting: 7,
    };
    for revision in 1..=UPDATES {
        let update = Update::new(alloc, plan.images, records, revision);
        if let Some(lanes) = lanes.get_mut(..THREADS_AT_UPDATE) {
            run_beside(rt, hub, &update, lanes);
        }
    }
}

/// How fast each number of threads does each kind of work as often as planned.
fn speeds_of<L: Identity + Send + Sync, W: Threads + Wait + Clock + CpuClock + Sync>(
    rt: &W,
    alloc: Global,
    hub: &Hub<SampleDesk, L>,
    lanes: &mut [Lane<L>],
    plan: Plan,
) -> Result<Vec<Speed>, NoMemory> {
    let images = plan.images;
    let mut speeds = Vec::new(alloc);
    for threads in THREADS {
        for work in [Work::Submit, Work::Report { images }] {
            let task = Task {
                alloc,
                work,
                times: plan.times.checked_div(threads as u64).unwrap_or(0),
            };
            speeds.push(speed(rt, hub, &task, threads, lanes))?;
        }
    }
    Ok(speeds)
}

/// A lane for each seat. Its layer is the last one of an image of its own.
fn lanes_of<L: Identity>(
    alloc: Global,
    images: u32,
    seats: Vec<Seat<SampleDesk, L>>,
) -> Result<Vec<Lane<L>>, NoMemory> {
    let mut lanes = Vec::new(alloc);
    for seat in seats {
        let number = (lanes.len() % SEATS as usize) as u32;
        lanes.push(Lane {
            seat,
            number,
            layer: last_layer(images.saturating_add(number)),
            is_claimed: false,
            done: 0,
            spread: Spread::new(alloc)?,
        })?;
    }
    Ok(lanes)
}

/// Submits events of a worker to the hub, at a seat.
#[derive(Drop)]
struct Client<'a, L: Identity, W: Wait> {
    rt: &'a W,
    alloc: Global,
    hub: &'a Hub<SampleDesk, L>,
    seat: &'a mut Seat<SampleDesk, L>,
}

impl<L: Identity, W: Wait> Client<'_, L, W> {
    /// Registers and indexes images, and registers one more for each seat.
    fn fill(&mut self, images: u32) -> Result<(), NoMemory> {
        for image in 0..images {
            for layer in self.register(image)? {
                self.index(layer)?;
            }
        }
        for image in 0..SEATS {
            self.register(images.saturating_add(image))?;
        }
        Ok(())
    }

    /// Registers an image, and gives its layers.
    fn register(&mut self, image: u32) -> Result<Vec<Digest>, NoMemory> {
        let manifest = manifest(self.alloc, image)?;
        let layers = manifest.layers.as_slice().to_vec(self.alloc)?;
        self.submit(Event::Register(manifest))?;
        Ok(layers)
    }

    /// Indexes a layer that is not indexed yet.
    fn index(&mut self, layer: Digest) -> Result<(), NoMemory> {
        let reply = self.submit(Event::Claim(layer, WORKER))?;
        if reply == Reply::Claimed {
            let facts = image_facts(self.alloc, layer)?;
            self.submit(Event::Indexed(facts, WORKER))?;
        }
        Ok(())
    }

    fn submit(&mut self, event: Event<SampleDesk>) -> Result<Reply, NoMemory>
        requires sound { IsSound (act_of event) }
    {
        let by = By::Worker(WORKER);
        let receipt = self.hub.submit(self.rt, self.alloc, self.seat, by, event)?;
        Ok(receipt.reply)
    }
}

/// How fast this number of threads does a task.
fn speed<L: Identity + Send + Sync, W: Threads + Wait + Clock + CpuClock + Sync>(
    rt: &W,
    hub: &Hub<SampleDesk, L>,
    task: &Task,
    threads: usize,
    lanes: &mut [Lane<L>],
) -> Speed {
    let watch = Watch::start(rt);
    let mut count = 0;
    if let Some(lanes) = lanes.get_mut(..threads) {
        run_lanes(rt, hub, task, lanes);
        for lane in lanes.iter() {
            count = u64::saturating_add(count, lane.done);
        }
    }
    watch.stop(rt, task.work.name(), threads, count)
}
