ghost use Rattle.std.specs.Prelude.{◌≡◌, ◌<◌};
ghost use Rattle.cv_core.specs.Core.{IsSound, act_of};

use bench_work::{Cost, TimedCore};
use cv_base::{NoMemory, Steps};
use cv_core::{Event, MAX_IMAGES};
use cv_facts::LayerFacts;
use std::io;
use std::marker::Brand;
use std::ops::Range;
use std::sync::ledger::{Blank, Ledger};
use test_data::{
    FeedRecords, SampleDesk, hash, image_facts, last_layer, manifest, manifest_over, number,
};

/// The kinds of updates: the name, and of how many records one differs from the one before.
const UPDATES: [(&str, u64); 3] = [
    ("update-one", u64::MAX),
    ("update-tenth", 10),
    ("update-all", 1),
];

const WORKER: u32 = 0;

/// What is done: a number of images is registered and indexed, one more image comes and goes a number of times, and a number of updates
/// of each kind follows, of a feed with a number of records.
#[derive(Clone, Copy, Debug)]
struct Plan {
    images: u64,
    times: u64,
    updates: u64,
    records: u64,
}

/// Does what the arguments say, `[IMAGES [TIMES [UPDATES [RECORDS]]]]`. Prints each kind of event with how often it came,
/// how many rows came of it and, with arguments, the nanoseconds of processor time for one.
pub fn report(rt: &HostRuntime, arguments: &[String]) -> io::Result<()> {
    let plan = Plan {
        images: number(arguments, 0, 8),
        times: number(arguments, 1, 2),
        updates: number(arguments, 2, 1),
        records: number(arguments, 3, 100),
    };
    match costs_of(rt, plan) {
        Ok(costs) => print_costs(rt, &costs, !arguments.is_empty()),
        Err(NoMemory) => println!(rt; "events: out of memory"),
    }
}

fn print_costs(rt: &HostRuntime, costs: &[Cost], timed: bool) -> io::Result<()> {
    for cost in costs {
        print!(rt; "events {} {} {}", cost.name, cost.count, cost.rows)?;
        if timed {
            print!(rt; " {}", cost.each())?;
        }
        println!(rt; "")?;
    }
    Ok(())
}

/// Does what the plan says, with at least one image and with one fewer than there may be at most, and gives what was done.
fn costs_of(rt: &HostRuntime, plan: Plan) -> Result<Vec<Cost>, NoMemory> {
    run::<Brand>(rt, Blank::new(1), plan)
}

fn run<L: Ledger>(rt: &HostRuntime, blank: Blank, plan: Plan) -> Result<Vec<Cost>, NoMemory>
    requires name { blank.name ≡ L.name }
    requires parts { blank.parts ≡ L.parts }
    requires has_parts { 0 < L.parts }
{
    let mut session = Session {
        rt,
        core: TimedCore::new(rt.alloc())?,
        steps: Steps::<L>::open(blank),
    };
    session.follow(plan)?;
    let Session { core, .. } = session;
    Ok(core.into_costs())
}

fn images_of(plan: Plan) -> u32 {
    match u32::try_from(plan.images) {
        Ok(images) => images.clamp(1, MAX_IMAGES - 1),
        Err(_) => MAX_IMAGES - 1,
    }
}

/// Records of the feed, of which one of `every` differs from revision to revision.
fn records(count: u64, every: u64) -> FeedRecords {
    FeedRecords {
        count,
        every,
        affecting: 7,
    }
}

/// A core, and the steps that it takes.
#[derive(Drop)]
struct Session<'a, L: Ledger> {
    rt: &'a HostRuntime,
    core: TimedCore,
    steps: Steps<L>,
}

impl<L: Ledger> Session<'_, L> {
    /// Does what a plan says. The image that comes and goes has the number after the others.
    fn follow(&mut self, plan: Plan) -> Result<(), NoMemory> {
        let images = images_of(plan);
        self.notify(plan)?;
        self.fill(1..images)?;
        self.come_and_go(images, plan.times)?;
        self.update_all(plan)
    }

    /// Registers and indexes the first image, makes this number of notifications about it, and then updates the whole feed.
    fn notify(&mut self, plan: Plan) -> Result<(), NoMemory> {
        self.fill(0..1)?;
        for _ in 0..plan.times {
            self.update("update-small", records(1, 1))?;
        }
        self.update("update-first", records(plan.records, 1))
    }

    /// Registers the images of these numbers, and indexes all layers.
    fn fill(&mut self, images: Range<u32>) -> Result<(), NoMemory> {
        for image in images {
            let manifest = manifest(self.rt.alloc(), image)?;
            self.apply("first-register", Event::Register(manifest))?;
        }
        for layer in self.core.queued()?.into_vec() {
            self.apply("first-claim", Event::Claim(layer, WORKER))?;
            let facts = self.core.facts(self.rt, "index_layer", layer)?;
            self.apply("first-indexed", Event::Indexed(facts, WORKER))?;
        }
        Ok(())
    }

    /// The image of a number comes and goes this number of times: with a new layer, and with layers that are indexed. Each time a
    /// notification is acknowledged.
    fn come_and_go(&mut self, image: u32, times: u64) -> Result<(), NoMemory> {
        let facts = image_facts(self.rt.alloc(), last_layer(image))?;
        for _ in 0..times {
            self.come_new(image, &facts)?;
            self.come_indexed(image)?;
            self.acknowledge("ack")?;
        }
        Ok(())
    }

    /// An image with a new layer comes; the layer is claimed, given back, claimed again and indexed; and the image goes.
    fn come_new(&mut self, image: u32, facts: &LayerFacts<SampleDesk>) -> Result<(), NoMemory> {
        let layer = facts.digest();
        let manifest = manifest_over(self.rt.alloc(), image, 0, image)?;
        self.apply("register", Event::Register(manifest))?;
        self.apply("claim", Event::Claim(layer, WORKER))?;
        self.apply("fault", Event::Fault(layer, WORKER))?;
        self.apply("claim", Event::Claim(layer, WORKER))?;
        self.apply("indexed", Event::Indexed(facts.share()?, WORKER))?;
        self.apply("drop", Event::DropImage(hash(image)))
    }

    /// An image whose layers are indexed comes and goes.
    fn come_indexed(&mut self, image: u32) -> Result<(), NoMemory> {
        let manifest = manifest_over(self.rt.alloc(), image, 0, 0)?;
        self.apply("register-indexed", Event::Register(manifest))?;
        self.apply("drop-indexed", Event::DropImage(hash(image)))
    }

    /// Updates the feed this number of times in each way. Each time a notification is acknowledged.
    fn update_all(&mut self, plan: Plan) -> Result<(), NoMemory> {
        for (name, every) in UPDATES {
            self.update("update-first", records(plan.records, every))?;
            self.acknowledge("ack-rows")?;
            for _ in 0..plan.updates {
                self.update(name, records(plan.records, every))?;
                self.acknowledge("ack-rows")?;
            }
        }
        Ok(())
    }

    fn apply(&mut self, name: &'static str, event: Event<SampleDesk>) -> Result<(), NoMemory>
        requires sound { IsSound (act_of event) }
    {
        self.core.apply(self.rt, name, event, &mut self.steps)
    }

    fn update(&mut self, name: &'static str, records: FeedRecords) -> Result<(), NoMemory> {
        self.core.update(self.rt, name, records, &mut self.steps)
    }

    fn acknowledge(&mut self, name: &'static str) -> Result<(), NoMemory> {
        self.core.acknowledge(self.rt, name, &mut self.steps)
    }
}
