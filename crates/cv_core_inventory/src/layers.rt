ghost use Rattle.std.specs.Prelude.{◌≡◌, ◌≤◌, ◌+◌, IfOk};
ghost use Rattle.cv_core_machine.specs.Matching.{IsStepCount, fresh_pairs};
ghost use Rattle.cv_core_machine.specs.Scans.{StatesEveryLayer, trees_of};
ghost use Rattle.cv_core_machine.specs.State.{State};
ghost use Rattle.cv_core_machine.specs.Step.{claim, finish};
ghost use Rattle.cv_core_machine.specs.declared.event.MachineEvent.{MachineEvent};
ghost use Rattle.cv_core_inventory.specs.Holdings.{Leads, feed_table, holding};
ghost use Rattle.cv_core_inventory.specs.code.Kept.{HasEntered, holdings_of, registrations};

use crate::inventory::Inventory;
use crate::replies::is_entered;
use cv_base::{Digest, NoMemory, Steps};
use cv_core_machine::Status;
use cv_core_records::{Replied, Reply};
use cv_core_registry::Registry;
use cv_desk::Desk;
use cv_facts::LayerFacts;
use std::alloc::Global;
use std::sync::ledger::Ledger;

impl<D: Desk + Drop> Inventory<D> {
    /// Claims a layer for a worker: `Claimed` if the layer waits for one, `Taken` if it is claimed or indexed, `Unwanted` if it
    /// is not known.
    pub fn claim(&self, alloc: Global, layer: &Digest, worker: u32) -> Replied<Inventory<D>>
        ensures { IfOk result (Leads (λ state. claim state layer.now worker) self.now) }
    {
        let (registry, reply) = self.registry.claim(alloc, layer, worker)?;
        Ok((self.with_registry(registry)?, reply))
    }

    /// A worker has indexed a layer, of which these are the facts: `Entered`, and the layer is indexed; `NotClaimed` if the layer is
    /// not the worker's; `Discarded`, and the layer goes, if no registered image names it. Only the images that name the layer are
    /// looked at, and only those that wait for it are matched. `counted` says how many tries that takes at most, also where memory
    /// is wanting.
    pub fn index<L: Ledger>(
        &self,
        alloc: Global,
        facts: LayerFacts<D>,
        worker: u32,
        steps: &mut Steps<L>,
    ) -> Replied<Inventory<D>>
        ensures leads { IfOk result (Leads (λ state. finish state facts.digest worker Status.Indexed Reply.Entered) self.now) }
        ensures counted { StatesEveryLayer D.tree → (state : State) → IsStepCount (trees_of D.tree) (holding state self.now) (MachineEvent.Indexed facts.digest worker) steps.old steps.new }
    {
        self.registry.regular_law();
        let (registry, reply) = self.registry.index(alloc, &facts.digest(), worker)?;
        if is_entered(&reply) {
            return Ok((self.entered(alloc, registry, facts, steps)?, reply));
        }
        Ok((self.with_registry(registry)?, reply))
    }

    /// A worker gives a layer back, after a fault or when memory ran out: `Requeued`, and the layer waits for a worker again;
    /// `NotClaimed` and `Discarded` as for `index`.
    pub fn requeue(&self, alloc: Global, layer: &Digest, worker: u32) -> Replied<Inventory<D>>
        ensures { IfOk result (Leads (λ state. finish state layer.now worker Status.Queued Reply.Requeued) self.now) }
    {
        self.registry.regular_law();
        let (registry, reply) = self.registry.requeue(alloc, layer, worker)?;
        Ok((self.with_registry(registry)?, reply))
    }

    /// The inventory with the facts of a layer, which the registry has as indexed now.
    fn entered<L: Ledger>(
        &self,
        alloc: Global,
        registry: Registry,
        indexed: LayerFacts<D>,
        steps: &mut Steps<L>,
    ) -> Result<Inventory<D>, NoMemory>
        requires { HasEntered (registrations self.now) registry indexed.digest }
        ensures value { IfOk result (λ after. after ≡ holdings_of registry (feed_table self.now)) }
        ensures counted { StatesEveryLayer D.tree → (state : State) → steps.new ≤ steps.old + fresh_pairs (trees_of D.tree) (holding state self.now) (holding state (holdings_of registry (feed_table self.now))) }
    {
        self.registry.regular_law();
        indexed.known_law();
        let knowledge = self
            .knowledge
            .with_facts(alloc, indexed, &self.registry, steps)?;
        Ok(Inventory::of(registry, knowledge))
    }
}
