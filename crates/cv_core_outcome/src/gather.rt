ghost use Rattle.std.specs.Prelude.{◌≡◌, ◌≤◌, length, map, IfOk};
ghost use Rattle.std.specs.List.{range_with_len};
ghost use Rattle.cv_base.specs.declared.limits.TheConstants.{MAX_LAYERS};
ghost use Rattle.cv_coalesce.specs.Coalesced.{coalesced};
ghost use Rattle.cv_core_outcome.specs.Outcome.{first_unknown, known_layers};

use cv_base::{Digest, NoMemory};
use cv_coalesce::{ImagePackages, coalesce};
use cv_desk::Desk;
use cv_facts::LayerFacts;
use cv_tree::{Shared, Tree};
use std::alloc::Global;

/// The first of these layers that has no facts.
pub fn first_unknown<D: Desk>(
    facts: &Tree<Digest, Shared<LayerFacts<D>>>,
    layers: &[Digest],
) -> Option<Digest>
    ensures { result ≡ first_unknown facts.now layers.now }
{
    for layer in layers {
        if !facts.contains(layer) {
            return Some(*layer);
        }
    }
    None
}

/// The facts of these layers, without those that have none.
pub fn known_layers<D: Desk>(
    alloc: Global,
    facts: &Tree<Digest, Shared<LayerFacts<D>>>,
    layers: &[Digest],
) -> Result<Vec<LayerFacts<D>>, NoMemory>
    ensures { IfOk result (λ known. known.items ≡ known_layers facts.now layers.now) }
{
    let mut known = Vec::new(alloc);
    for layer in layers {
        let Some(found) = facts.get(layer) else {
            continue;
        };
        let copy = found.value().share()?;
        known.push(copy)?;
    }
    Ok(known)
}

/// The packages of an image of layers with these facts, the base first, and with these stated seals, or why it has none.
pub fn packages_of<D: Desk>(
    alloc: Global,
    known: &[LayerFacts<D>],
    seals: &[Option<Digest>],
) -> Result<ImagePackages, NoMemory>
    requires at_most_128_layers { length known.now ≤ MAX_LAYERS }
    requires as_many_seals { length seals.now ≡ length known.now }
    ensures { IfOk result (λ found. found ≡ coalesced (map (λ facts. facts.shape) known.now) seals.now) }
{
    let places = places(alloc, known.len() as u32)?;
    coalesce(alloc, known, &places, seals)
}

/// The places of this number of layers, in order.
fn places(alloc: Global, count: u32) -> Result<Vec<u32>, NoMemory>
    ensures { IfOk result (λ places. places.items ≡ range_with_len 0 count) }
{
    Ok((0..count).collect(alloc)?)
}
