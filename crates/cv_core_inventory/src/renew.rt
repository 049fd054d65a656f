ghost use Rattle.std.specs.Prelude.{◌≡◌, ◌≤◌, ◌+◌, IfOk};
ghost use Rattle.std.specs.List.{sum_by};
ghost use Rattle.cv_core_machine.specs.State.{value_at};
ghost use Rattle.cv_core_outcome.specs.Facts.{waits_for};
ghost use Rattle.cv_core_outcome.specs.Outcome.{outcome_at};
ghost use Rattle.cv_core_inventory.specs.code.Changes.{all_renewed, is_waiting, pairs_of, renew_pairs, renewed, with_outcome};
ghost use Rattle.cv_core_inventory.specs.Knowledge.{AreSoundImages};

use crate::facts::Facts;
use crate::knowledge::{Knowledge, Outcomes};
use cv_base::{Digest, NoMemory, Steps};
use cv_core_outcome::{Outcome, outcome_of};
use cv_core_registry::Registry;
use cv_desk::Desk;
use cv_tree::Share;
use std::alloc::Global;
use std::sync::ledger::Ledger;

impl<D: Desk + Drop> Knowledge<D> {
    /// The outcomes, with those of these images recomputed from facts where they wait for a layer.
    pub(crate) fn all_renewed<L: Ledger>(
        &self,
        alloc: Global,
        facts: &Facts<D>,
        registry: &Registry,
        images: &[Digest],
        layer: &Digest,
        steps: &mut Steps<L>,
    ) -> Result<Outcomes, NoMemory>
        requires sound { AreSoundImages registry.now.images }
        ensures value { IfOk result (λ after. after ≡ all_renewed (outcome_at facts.now self.now.feeds.feeds) registry.now.images layer.now self.now.outcomes self.now.outcomes images.now) }
        ensures counted { steps.new ≤ steps.old + sum_by (renew_pairs (outcome_at facts.now self.now.feeds.feeds) self.now.feeds.feeds registry.now.images layer.now self.now.outcomes) images.now }
    {
        let mut outcomes = self.outcomes.share()?;
        for image in images {
            let next = self.renewed(alloc, facts, registry, &outcomes, image, layer, steps)?;
            outcomes = next;
        }
        Ok(outcomes)
    }

    /// The outcomes, with that of an image recomputed if it waited for a layer.
    fn renewed<L: Ledger>(
        &self,
        alloc: Global,
        facts: &Facts<D>,
        registry: &Registry,
        outcomes: &Outcomes,
        image: &Digest,
        layer: &Digest,
        steps: &mut Steps<L>,
    ) -> Result<Outcomes, NoMemory>
        requires sound { AreSoundImages registry.now.images }
        ensures value { IfOk result (λ after. after ≡ renewed (outcome_at facts.now self.now.feeds.feeds) registry.now.images layer.now self.now.outcomes outcomes.now image.now) }
        ensures counted { steps.new ≤ steps.old + renew_pairs (outcome_at facts.now self.now.feeds.feeds) self.now.feeds.feeds registry.now.images layer.now self.now.outcomes image.now }
    {
        if !is_waiting(&self.outcomes, image, layer) {
            return outcomes.share();
        }
        self.with_outcome(alloc, facts, registry, outcomes, image, steps)
    }

    /// The outcomes, with that of an image recomputed if it is registered.
    fn with_outcome<L: Ledger>(
        &self,
        alloc: Global,
        facts: &Facts<D>,
        registry: &Registry,
        outcomes: &Outcomes,
        image: &Digest,
        steps: &mut Steps<L>,
    ) -> Result<Outcomes, NoMemory>
        requires sound { AreSoundImages registry.now.images }
        ensures value { IfOk result (λ after. after ≡ with_outcome (outcome_at facts.now self.now.feeds.feeds) outcomes.now image.now (value_at registry.now.images image.now)) }
        ensures counted { steps.new ≤ steps.old + pairs_of (outcome_at facts.now self.now.feeds.feeds) self.now.feeds.feeds (value_at registry.now.images image.now) }
    {
        let Some(found) = registry.image_of(image) else {
            return outcomes.share();
        };
        let layers = found.layers.as_slice();
        let seals = found.seals.as_slice();
        let known = facts.tree();
        let outcome = outcome_of(alloc, known, self.feeds.value(), layers, seals, steps)?;
        outcomes.set(alloc, *image, outcome)
    }
}

/// Whether an image has an outcome that waits for a layer.
fn is_waiting(outcomes: &Outcomes, image: &Digest, layer: &Digest) -> bool
    ensures { result ≡ is_waiting layer.now (value_at outcomes.now image.now) }
{
    match outcomes.get(image) {
        None => false,
        Some(outcome) => waits_for(outcome, layer),
    }
}

/// Whether an outcome waits for a layer.
fn waits_for(outcome: &Outcome, layer: &Digest) -> bool
    ensures { result ≡ waits_for layer.now outcome.now }
{
    match outcome {
        Outcome::Pending(other) => *other == *layer,
        _ => false,
    }
}
