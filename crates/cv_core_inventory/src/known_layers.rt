ghost use Rattle.std.specs.Prelude.{◌≡◌, ◌≤◌, ◌+◌, false, IfOk};
ghost use Rattle.std.specs.List.{sum_by};
ghost use Rattle.cv_core_machine.specs.State.{with_value};
ghost use Rattle.cv_core_outcome.specs.Outcome.{has_facts, outcome_at};
ghost use Rattle.cv_core_registry.specs.Registrations.{users_of};
ghost use Rattle.cv_core_inventory.specs.code.Changes.{layer_indexed, renew_pairs};
ghost use Rattle.cv_core_inventory.specs.Knowledge.{AreSoundImages};

use crate::knowledge::Knowledge;
use cv_base::{NoMemory, Steps};
use cv_core_registry::Registry;
use cv_desk::Desk;
use cv_facts::LayerFacts;
use cv_tree::Share;
use std::alloc::Global;
use std::sync::ledger::Ledger;

impl<D: Desk + Drop> Knowledge<D> {
    /// The knowledge with the facts of a layer that had none. Of the images of the registry only those that name the layer
    /// are looked at, and only those that wait for it are matched.
    pub(crate) fn with_facts<L: Ledger>(
        &self,
        alloc: Global,
        indexed: LayerFacts<D>,
        registry: &Registry,
        steps: &mut Steps<L>,
    ) -> Result<Knowledge<D>, NoMemory>
        requires new { has_facts self.now.facts indexed.digest ≡ false }
        requires sound { AreSoundImages registry.now.images }
        ensures value { IfOk result (λ after. after ≡ layer_indexed self.now indexed registry.now.images) }
        ensures counted { steps.new ≤ steps.old + sum_by (renew_pairs (outcome_at (with_value self.now.facts indexed.digest indexed) self.now.feeds.feeds) self.now.feeds.feeds registry.now.images indexed.digest self.now.outcomes) (users_of registry.now.images indexed.digest) }
    {
        let layer = indexed.digest();
        let users = registry.users_of(alloc, &layer)?;
        let feeds = self.feeds.share()?;
        let facts = self.facts.with(alloc, indexed)?;
        let outcomes = self.all_renewed(alloc, &facts, registry, &users, &layer, steps)?;
        Ok(Knowledge {
            facts,
            outcomes,
            feeds,
        })
    }
}
