ghost use Rattle.std.specs.Prelude.{◌≡◌, ◌≤◌, ◌+◌, None, length, IfOk};
ghost use Rattle.cv_base.specs.declared.limits.TheConstants.{MAX_LAYERS};
ghost use Rattle.cv_core_machine.specs.Matching.{IsStepCount, fresh_pairs};
ghost use Rattle.cv_core_machine.specs.Scans.{StatesEveryLayer, trees_of};
ghost use Rattle.cv_core_machine.specs.State.{State, value_at};
ghost use Rattle.cv_core_machine.specs.Step.{drop_image, image_of, register};
ghost use Rattle.cv_core_machine.specs.declared.event.MachineEvent.{MachineEvent};
ghost use Rattle.cv_core_inventory.specs.Holdings.{Leads, feed_table, holding};
ghost use Rattle.cv_core_inventory.specs.code.Kept.{holdings_of, registrations, with_image, without_image};

use crate::inventory::Inventory;
use crate::replies::is_registered;
use cv_base::{Digest, Manifest, NoMemory, Steps};
use cv_core_records::Replied;
use cv_core_registry::Registry;
use cv_desk::Desk;
use std::alloc::Global;
use std::sync::ledger::Ledger;

impl<D: Desk + Drop> Inventory<D> {
    /// Registers an image: `Already` if it is registered with these layers and these seals, `Conflict` with its layers and their
    /// seals if with other layers or other seals, `TooManyImages` if there are as many images as may be. After `Registered` its
    /// layers that were not known wait for a worker. The time is that of its layers and of matching its packages, whatever else is
    /// registered; `counted` says how many tries that takes at most, also where memory is wanting.
    pub fn register<L: Ledger>(
        &self,
        alloc: Global,
        manifest: &Manifest,
        steps: &mut Steps<L>,
    ) -> Replied<Inventory<D>>
        requires at_most_128_layers { length manifest.now.layers ≤ MAX_LAYERS }
        requires as_many_seals { length manifest.now.seals ≡ length manifest.now.layers }
        ensures leads { IfOk result (Leads (λ state. register state manifest.now) self.now) }
        ensures counted { StatesEveryLayer D.tree → (state : State) → IsStepCount (trees_of D.tree) (holding state self.now) (MachineEvent.Register manifest.now) steps.old steps.new }
    {
        let (registry, reply) = self.registry.register(alloc, manifest)?;
        if is_registered(&reply) {
            return Ok((self.added(alloc, registry, manifest, steps)?, reply));
        }
        Ok((self.with_registry(registry)?, reply))
    }

    /// Drops an image: `NotRegistered` if it is not registered, or else `Dropped`. Its layers that no other image names go, but
    /// for those that are claimed. The time is that of its layers, whatever else is registered.
    pub fn drop_image(&self, alloc: Global, image: &Digest) -> Replied<Inventory<D>>
        ensures { IfOk result (Leads (λ state. drop_image state image.now) self.now) }
    {
        let (registry, reply) = self.registry.drop_image(alloc, image)?;
        match self.registry.image_of(image) {
            None => Ok((self.with_registry(registry)?, reply)),
            Some(found) => {
                let layers = found.layers.as_slice();
                Ok((self.dropped(alloc, registry, image, layers)?, reply))
            }
        }
    }

    /// The inventory with a new image, which the registry has.
    fn added<L: Ledger>(
        &self,
        alloc: Global,
        registry: Registry,
        manifest: &Manifest,
        steps: &mut Steps<L>,
    ) -> Result<Inventory<D>, NoMemory>
        requires at_most_128_layers { length manifest.now.layers ≤ MAX_LAYERS }
        requires as_many_seals { length manifest.now.seals ≡ length manifest.now.layers }
        requires registered { registry ≡ with_image (registrations self.now) manifest.now.hash (image_of manifest.now) }
        requires new { value_at self.now.images manifest.now.hash ≡ None }
        ensures value { IfOk result (λ after. after ≡ holdings_of registry (feed_table self.now)) }
        ensures counted { StatesEveryLayer D.tree → (state : State) → steps.new ≤ steps.old + fresh_pairs (trees_of D.tree) (holding state self.now) (holding state (holdings_of registry (feed_table self.now))) }
    {
        let layers = manifest.layers.as_slice();
        let seals = manifest.seals.as_slice();
        let knowledge = self
            .knowledge
            .with_image(alloc, &manifest.hash, layers, seals, steps)?;
        Ok(Inventory::of(registry, knowledge))
    }

    /// The inventory without an image of these layers, which the registry does not have.
    fn dropped(
        &self,
        alloc: Global,
        registry: Registry,
        image: &Digest,
        layers: &[Digest],
    ) -> Result<Inventory<D>, NoMemory>
        requires { registry ≡ without_image (registrations self.now) image.now layers.now }
        ensures { IfOk result (λ after. after ≡ holdings_of registry (feed_table self.now)) }
    {
        self.registry.regular_law();
        self.knowledge.sorted_law();
        let knowledge = self
            .knowledge
            .without_image(alloc, image, layers, &registry)?;
        Ok(Inventory::of(registry, knowledge))
    }
}
