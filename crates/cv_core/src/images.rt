ghost use Rattle.std.specs.Prelude.{◌<◌, ◌^◌, ◌≡◌, ◌≤◌, IfOk, length};
ghost use Rattle.cv_base.specs.declared.limits.TheConstants.{MAX_LAYERS};
ghost use Rattle.cv_core_machine.specs.Matching.{IsStepCount};
ghost use Rattle.cv_core_machine.specs.Scans.{StatesEveryLayer, trees_of};
ghost use Rattle.cv_core_machine.specs.Step.{drop_image, register};
ghost use Rattle.cv_core_machine.specs.declared.event.MachineEvent.{MachineEvent};
ghost use Rattle.cv_core.specs.Core.{counted};

use crate::machine::Core;
use cv_base::{Digest, Manifest, Steps};
use cv_core_records::Replied;
use cv_desk::Desk;
use std::alloc::Global;
use std::sync::ledger::Ledger;

impl<D: Desk + Drop> Core<D> {
    pub(crate) fn register<L: Ledger>(
        &self,
        alloc: Global,
        manifest: &Manifest,
        steps: &mut Steps<L>,
    ) -> Replied<Core<D>>
        requires room { self.now.count < 2 ^ 63 }
        requires at_most_128_layers { length manifest.now.layers ≤ MAX_LAYERS }
        requires as_many_seals { length manifest.now.seals ≡ length manifest.now.layers }
        ensures value { IfOk result (λ after. after ≡ counted self.now (register self.now.state manifest.now)) }
        ensures tries { StatesEveryLayer D.tree → IsStepCount (trees_of D.tree) self.now.state (MachineEvent.Register manifest.now) steps.old steps.new }
    {
        let (inventory, reply) = self.inventory.register(alloc, manifest, steps)?;
        self.with_inventory(inventory, reply)
    }

    pub(crate) fn drop_image(&self, alloc: Global, image: &Digest) -> Replied<Core<D>>
        requires room { self.now.count < 2 ^ 63 }
        ensures { IfOk result (λ after. after ≡ counted self.now (drop_image self.now.state image.now)) }
    {
        let (inventory, reply) = self.inventory.drop_image(alloc, image)?;
        self.with_inventory(inventory, reply)
    }
}
