ghost use Rattle.std.specs.Prelude.{◌≡◌, ◌+◌, ◌^◌, ◌<◌, true, false, IfOk};
ghost use Rattle.cv_core_machine.specs.History.{act_name};
ghost use Rattle.cv_core_machine.specs.Matching.{IsStepCount};
ghost use Rattle.cv_core_machine.specs.Scans.{StatesEveryLayer, Trees, trees_of};
ghost use Rattle.cv_core_machine.specs.Step.{step};
ghost use Rattle.cv_core.specs.Core.{IsSound, IsUpdated, act_of, counted, is_update};

use crate::machine::Core;
use cv_base::{Advisory, Digest, Manifest, NoMemory, Seq, Steps, Text};
use cv_core_records::{Act, Reply};
use cv_desk::Desk;
use cv_facts::LayerFacts;
use std::alloc::Global;
use std::sync::ledger::Ledger;

/// An event of the machine. Workers are numbered from 0.
pub enum Event<D: Desk> {
    /// Registers an image of 1 to 128 layers, with a seal or none for each.
    Register(Manifest),
    /// Drops the image of this hash.
    DropImage(Digest),
    /// A worker claims a layer.
    Claim(Digest, u32),
    /// A worker has indexed the layer that it claimed.
    Indexed(LayerFacts<D>, u32),
    /// A worker gives a layer back, as its desk failed.
    Fault(Digest, u32),
    /// A worker gives a layer back, as it ran out of memory.
    Memory(Digest, u32),
    /// A feed has these records in place of those before. Their order does not matter.
    Update(Text, Seq<Advisory>),
    /// A feed of which the client knows the generation `base` gets these records, each in place of one of the same id, and loses
    /// those of the ids to remove.
    Patch {
        feed: Text,
        base: u64,
        records: Seq<Advisory>,
        remove: Seq<Text>,
    },
    /// Acknowledges the notification of this number.
    Ack(u64),
}

/// Written out, so that the crates above call it, and do not prove anew how each part is dropped.
impl<D: Desk + Drop> Drop for Event<D> {
    fn drop(self) {
        match self {
            Event::Register(_) => {}
            Event::DropImage(_) => {}
            Event::Claim(_, _) => {}
            Event::Indexed(_, _) => {}
            Event::Fault(_, _) => {}
            Event::Memory(_, _) => {}
            Event::Update(_, _) => {}
            Event::Patch {
                feed: _,
                base: _,
                records: _,
                remove: _,
            } => {}
            Event::Ack(_) => {}
        }
    }
}

impl<D: Desk> Event<D> {
    /// The event as the transcript names it.
    pub fn name(&self) -> Result<Act, NoMemory>
        ensures { IfOk result (λ name. name ≡ act_name (act_of self.now)) }
    {
        match self {
            Event::Register(manifest) => Ok(Act::Register(manifest.hash)),
            Event::DropImage(image) => Ok(Act::DropImage(*image)),
            Event::Claim(layer, _) => Ok(Act::Claim(*layer)),
            Event::Indexed(facts, _) => Ok(Act::Indexed(facts.digest())),
            Event::Fault(layer, _) => Ok(Act::Fault(*layer)),
            Event::Memory(layer, _) => Ok(Act::Memory(*layer)),
            Event::Update(feed, _) => Ok(Act::Update(feed.clone()?)),
            Event::Patch { feed, .. } => Ok(Act::Patch(feed.clone()?)),
            Event::Ack(number) => Ok(Act::Ack(*number)),
        }
    }
}

impl<D: Desk + Drop> Event<D> {
    /// The core after this event, with its reply. The core before it stays as it is, also if memory runs out. Which rows an update
    /// or a patch notifies of is stated if the type of the desks says of each layer what it has; all else does not depend on that.
    pub fn after<L: Ledger>(
        self,
        alloc: Global,
        core: &Core<D>,
        steps: &mut Steps<L>,
    ) -> Result<(Core<D>, Reply), NoMemory>
        requires room { core.now.count < 2 ^ 63 }
        requires sound { IsSound (act_of self) }
        ensures stepped { StatesEveryLayer D.tree → IfOk result (λ after. after ≡ counted core.now (step (trees_of D.tree) core.now.state (act_of self))) }
        ensures others { (trees : Trees) → is_update (act_of self) ≡ false → IfOk result (λ after. after ≡ counted core.now (step trees core.now.state (act_of self))) }
        ensures update { is_update (act_of self) ≡ true → IfOk result (λ after. IsUpdated core.now (act_of self) after) }
        ensures count { IfOk result (λ after. after.0.count ≡ core.now.count + 1) }
        ensures tries { StatesEveryLayer D.tree → IsStepCount (trees_of D.tree) core.now.state (act_of self) steps.old steps.new }
    {
        match self {
            Event::Register(manifest) => core.register(alloc, &manifest, steps),
            Event::DropImage(image) => core.drop_image(alloc, &image),
            Event::Claim(layer, worker) => core.claim(alloc, &layer, worker),
            Event::Indexed(facts, worker) => core.index(alloc, facts, worker, steps),
            Event::Fault(layer, worker) => core.requeue(alloc, &layer, worker),
            Event::Memory(layer, worker) => core.requeue(alloc, &layer, worker),
            Event::Update(feed, records) => core.update(alloc, feed, records, steps),
            Event::Patch {
                feed,
                base,
                records,
                remove,
            } => core.patch(alloc, feed, base, records, remove.as_slice(), steps),
            Event::Ack(number) => core.ack(alloc, number),
        }
    }
}
