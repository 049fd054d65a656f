ghost use Rattle.std.specs.Prelude.{◌≡◌, ◌+◌, ◌≤◌, length, IfOk};
ghost use Rattle.cv_base.specs.declared.limits.TheConstants.{MAX_LAYERS};
ghost use Rattle.cv_core_outcome.specs.Outcome.{matched, outcome_at, outcome_pairs};

use crate::gather::{first_unknown, known_layers, packages_of};
use crate::matching::matched;
use crate::outcome::Outcome;
use cv_advdb::Feeds;
use cv_base::{Digest, NoMemory, Steps};
use cv_coalesce::ImagePackages;
use cv_desk::Desk;
use cv_facts::LayerFacts;
use cv_tree::{Shared, Tree};
use std::alloc::Global;
use std::sync::ledger::Ledger;

/// The outcome of an image of these layers, the base first, and their stated seals. A layer may stand more than once. A layer
/// without facts is named before any fault of a layer. Each try of a record is a step, and there are none where the image has no
/// packages.
pub fn outcome_of<D: Desk + Drop, L: Ledger>(
    alloc: Global,
    facts: &Tree<Digest, Shared<LayerFacts<D>>>,
    feeds: &Feeds,
    layers: &[Digest],
    seals: &[Option<Digest>],
    steps: &mut Steps<L>,
) -> Result<Outcome, NoMemory>
    requires at_most_128_layers { length layers.now ≤ MAX_LAYERS }
    requires as_many_seals { length seals.now ≡ length layers.now }
    ensures value { IfOk result (λ outcome. outcome ≡ outcome_at facts.now feeds.now.feeds (record { layers = layers.now; seals = seals.now })) }
    ensures counted { steps.new ≤ steps.old + outcome_pairs feeds.now.feeds (outcome_at facts.now feeds.now.feeds (record { layers = layers.now; seals = seals.now })) }
{
    if let Some(layer) = first_unknown(facts, layers) {
        return Ok(Outcome::Pending(layer));
    }
    let known = known_layers(alloc, facts, layers)?;
    let packages = packages_of(alloc, &known, seals)?;
    by_packages(alloc, packages, feeds, steps)
}

/// The outcome of an image whose layers all have facts.
fn by_packages<L: Ledger>(
    alloc: Global,
    packages: ImagePackages,
    feeds: &Feeds,
    steps: &mut Steps<L>,
) -> Result<Outcome, NoMemory>
    ensures value { IfOk result (λ outcome. outcome ≡ matched feeds.now.feeds packages) }
    ensures counted { steps.new ≤ steps.old + outcome_pairs feeds.now.feeds (matched feeds.now.feeds packages) }
{
    match packages {
        ImagePackages::Bad(fault) => Ok(Outcome::Bad(Shared::of(alloc, fault)?)),
        ImagePackages::Good(packages) => matched(alloc, packages, feeds, steps),
    }
}
