ghost use Rattle.std.specs.Prelude.{◌≡◌, ◌≤◌, ◌+◌, length, IfOk};
ghost use Rattle.std.specs.Option.{is_some};
ghost use Rattle.cv_base.specs.declared.limits.TheConstants.{MAX_LAYERS};
ghost use Rattle.cv_core_machine.specs.State.{value_at};
ghost use Rattle.cv_core_outcome.specs.Outcome.{outcome_at, outcome_pairs};
ghost use Rattle.cv_core_inventory.specs.code.Changes.{image_added, image_dropped, remaining_after, remaining_facts};

use crate::facts::Facts;
use crate::knowledge::Knowledge;
use cv_base::{Digest, NoMemory, Steps};
use cv_core_outcome::outcome_of;
use cv_core_registry::Registry;
use cv_desk::Desk;
use cv_tree::Share;
use std::alloc::Global;
use std::sync::ledger::Ledger;

impl<D: Desk + Drop> Knowledge<D> {
    /// The knowledge with the outcome of a new image of these layers, the base first, and their stated seals. The time is that of
    /// its layers and of matching its packages, whatever else is known.
    pub(crate) fn with_image<L: Ledger>(
        &self,
        alloc: Global,
        image: &Digest,
        layers: &[Digest],
        seals: &[Option<Digest>],
        steps: &mut Steps<L>,
    ) -> Result<Knowledge<D>, NoMemory>
        requires at_most_128_layers { length layers.now ≤ MAX_LAYERS }
        requires as_many_seals { length seals.now ≡ length layers.now }
        ensures value { IfOk result (λ after. after ≡ image_added self.now image.now (record { layers = layers.now; seals = seals.now })) }
        ensures counted { steps.new ≤ steps.old + outcome_pairs self.now.feeds.feeds (outcome_at self.now.facts self.now.feeds.feeds (record { layers = layers.now; seals = seals.now })) }
    {
        let known = self.facts.tree();
        let outcome = outcome_of(alloc, known, self.feeds.value(), layers, seals, steps)?;
        let facts = self.facts.share()?;
        let feeds = self.feeds.share()?;
        let outcomes = self.outcomes.set(alloc, *image, outcome)?;
        Ok(Knowledge {
            facts,
            outcomes,
            feeds,
        })
    }

    /// The knowledge without an image of these layers, and without the facts of those that the registry does not know. The time is
    /// that of the layers.
    pub(crate) fn without_image(
        &self,
        alloc: Global,
        image: &Digest,
        layers: &[Digest],
        registry: &Registry,
    ) -> Result<Knowledge<D>, NoMemory>
        ensures { IfOk result (λ after. after ≡ image_dropped self.now image.now layers.now registry.now.layers) }
    {
        let feeds = self.feeds.share()?;
        let facts = remaining_facts(alloc, &self.facts, layers, registry)?;
        let outcomes = self.outcomes.without(alloc, image)?;
        Ok(Knowledge {
            facts,
            outcomes,
            feeds,
        })
    }
}

/// The facts without those of these layers that the registry does not know.
fn remaining_facts<D: Desk + Drop>(
    alloc: Global,
    facts: &Facts<D>,
    layers: &[Digest],
    registry: &Registry,
) -> Result<Facts<D>, NoMemory>
    ensures { IfOk result (λ after. after ≡ remaining_facts facts.now layers.now registry.now.layers) }
{
    let mut remaining = facts.share()?;
    for layer in layers {
        let next = remaining_after(alloc, &remaining, layer, registry)?;
        remaining = next;
    }
    Ok(remaining)
}

/// The facts without that of a layer, if the registry does not know it.
fn remaining_after<D: Desk + Drop>(
    alloc: Global,
    facts: &Facts<D>,
    layer: &Digest,
    registry: &Registry,
) -> Result<Facts<D>, NoMemory>
    ensures { IfOk result (λ after. after ≡ remaining_after facts.now layer.now registry.now.layers) }
{
    if is_known(registry, layer) {
        return facts.share();
    }
    facts.without(alloc, layer)
}

/// Whether a registry has a layer in its table.
fn is_known(registry: &Registry, layer: &Digest) -> bool
    ensures { result ≡ is_some (value_at registry.now.layers layer.now) }
{
    registry.status(layer).is_some()
}
