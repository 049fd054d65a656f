ghost use Rattle.std.specs.Prelude.{◌<◌, ◌^◌, ◌≡◌, IfOk};
ghost use Rattle.cv_core_machine.specs.Matching.{IsStepCount};
ghost use Rattle.cv_core_machine.specs.Scans.{StatesEveryLayer, trees_of};
ghost use Rattle.cv_core_machine.specs.Step.{claim, finish};
ghost use Rattle.cv_core_machine.specs.declared.event.MachineEvent.{MachineEvent};
ghost use Rattle.cv_core.specs.Core.{counted};

use crate::machine::Core;
use cv_base::{Digest, Steps};
use cv_core_machine::Status;
use cv_core_records::{Replied, Reply};
use cv_desk::Desk;
use cv_facts::LayerFacts;
use std::alloc::Global;
use std::sync::ledger::Ledger;

impl<D: Desk + Drop> Core<D> {
    pub(crate) fn claim(&self, alloc: Global, layer: &Digest, worker: u32) -> Replied<Core<D>>
        requires room { self.now.count < 2 ^ 63 }
        ensures { IfOk result (λ after. after ≡ counted self.now (claim self.now.state layer.now worker)) }
    {
        let (inventory, reply) = self.inventory.claim(alloc, layer, worker)?;
        self.with_inventory(inventory, reply)
    }

    /// A worker has indexed a layer.
    pub(crate) fn index<L: Ledger>(
        &self,
        alloc: Global,
        facts: LayerFacts<D>,
        worker: u32,
        steps: &mut Steps<L>,
    ) -> Replied<Core<D>>
        requires room { self.now.count < 2 ^ 63 }
        ensures value { IfOk result (λ after. after ≡ counted self.now (finish self.now.state facts.digest worker Status.Indexed Reply.Entered)) }
        ensures tries { StatesEveryLayer D.tree → IsStepCount (trees_of D.tree) self.now.state (MachineEvent.Indexed facts.digest worker) steps.old steps.new }
    {
        let (inventory, reply) = self.inventory.index(alloc, facts, worker, steps)?;
        self.with_inventory(inventory, reply)
    }

    /// A worker gives a layer back.
    pub(crate) fn requeue(&self, alloc: Global, layer: &Digest, worker: u32) -> Replied<Core<D>>
        requires room { self.now.count < 2 ^ 63 }
        ensures { IfOk result (λ after. after ≡ counted self.now (finish self.now.state layer.now worker Status.Queued Reply.Requeued)) }
    {
        let (inventory, reply) = self.inventory.requeue(alloc, layer, worker)?;
        self.with_inventory(inventory, reply)
    }
}
