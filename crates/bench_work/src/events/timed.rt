ghost use Rattle.std.specs.Prelude.{◌≡◌, IfOk};
ghost use Rattle.cv_core.specs.Core.{IsSound, act_of};

use crate::events::cost::{Cost, add};
use cv_base::{Digest, NoMemory, Seq, Steps, Text};
use cv_core::{Core, Event, Limits, MAX_FEEDS, MAX_IMAGES, Reply};
use cv_facts::LayerFacts;
use std::alloc::Global;
use std::sync::ledger::Ledger;
use std::time::CpuClock;
use test_data::{FeedRecords, SampleDesk, image_facts, processor_time};

const MOST_EVENTS: u64 = 1 << 63;

/// A core, and what its events took.
#[derive(Drop)]
pub struct TimedCore {
    alloc: Global,
    core: Core<SampleDesk>,
    /// The generation of the last update.
    generation: u64,
    /// The last notification that was acknowledged.
    acknowledged: u64,
    costs: Vec<Cost>,
}

impl TimedCore {
    /// A core with as many images and feeds as there may be at most.
    pub fn new(alloc: Global) -> Result<TimedCore, NoMemory> {
        let limits = Limits {
            images: MAX_IMAGES,
            feeds: MAX_FEEDS,
        };
        Ok(TimedCore {
            alloc,
            core: Core::new(alloc, limits)?,
            generation: 0,
            acknowledged: 0,
            costs: Vec::new(alloc),
        })
    }

    /// What was done, each kind where it came first.
    pub fn into_costs(self) -> Vec<Cost> {
        self.costs
    }

    /// The layers that wait for a worker.
    pub fn queued(&self) -> Result<Seq<Digest>, NoMemory> {
        self.core.queued(self.alloc)
    }

    /// Indexes a layer, which is noted as a kind of work.
    pub fn facts<R: CpuClock>(
        &mut self,
        rt: &R,
        name: &'static str,
        layer: Digest,
    ) -> Result<LayerFacts<SampleDesk>, NoMemory>
        ensures { IfOk result (λ facts. facts.digest ≡ layer) }
    {
        let begun = processor_time(rt);
        let facts = image_facts(self.alloc, layer)?;
        add(rt, &mut self.costs, name, begun, 0)?;
        Ok(facts)
    }

    /// Replaces the records of the feed by those of the next revision.
    pub fn update<R: CpuClock, L: Ledger>(
        &mut self,
        rt: &R,
        name: &'static str,
        records: FeedRecords,
        steps: &mut Steps<L>,
    ) -> Result<(), NoMemory> {
        let feed = Text::of(self.alloc, "feed")?;
        let records = records.at_revision(self.alloc, self.generation.saturating_add(1))?;
        self.apply(rt, name, Event::Update(feed, records), steps)
    }

    /// Acknowledges the next notification.
    pub fn acknowledge<R: CpuClock, L: Ledger>(
        &mut self,
        rt: &R,
        name: &'static str,
        steps: &mut Steps<L>,
    ) -> Result<(), NoMemory> {
        self.acknowledged = self.acknowledged.saturating_add(1);
        self.apply(rt, name, Event::Ack(self.acknowledged), steps)
    }

    /// Applies an event of a kind.
    pub fn apply<R: CpuClock, L: Ledger>(
        &mut self,
        rt: &R,
        name: &'static str,
        event: Event<SampleDesk>,
        steps: &mut Steps<L>,
    ) -> Result<(), NoMemory>
        requires sound { IsSound (act_of event) }
    {
        if self.core.count() >= MOST_EVENTS {
            return Ok(());
        }
        let begun = processor_time(rt);
        let reply = self.core.apply(self.alloc, event, steps)?;
        self.note(rt, name, begun, &reply)
    }

    /// Notes an event of a kind that began at a time, or one that was refused.
    fn note<R: CpuClock>(
        &mut self,
        rt: &R,
        name: &'static str,
        begun: u64,
        reply: &Reply,
    ) -> Result<(), NoMemory> {
        match reply {
            Reply::Updated { generation, rows } => {
                self.generation = *generation;
                add(rt, &mut self.costs, name, begun, *rows)
            }
            _ if is_change(reply) => add(rt, &mut self.costs, name, begun, 0),
            _ => add(rt, &mut self.costs, "refused", begun, 0),
        }
    }
}

/// Whether the core was changed, by an event other than an update.
fn is_change(reply: &Reply) -> bool {
    matches!(
        reply,
        Reply::Registered
            | Reply::Dropped
            | Reply::Claimed
            | Reply::Entered
            | Reply::Requeued
            | Reply::Acked
    )
}
