ghost use Rattle.std.specs.Prelude.{◌≡◌, [], ◌<◌, ◌≤◌, true, All, length, map, slice_index_or, IfOk};
ghost use Rattle.cv_base.specs.Texts.{has_text};
ghost use Rattle.cv_coalesce.specs.Coalesced.{at_places};

use cv_base::{Digest, MAX_LAYERS, NoMemory};
use cv_desk::Desk;
use cv_facts::LayerFacts;
use std::alloc::Global;

/// The place of each layer among these facts, which have all of them.
pub fn places_of<D: Desk>(
    alloc: Global,
    facts: &[LayerFacts<D>],
    layers: &[Digest],
) -> Result<Vec<u32>, NoMemory>
    requires at_most_128_facts { length facts.now ≤ MAX_LAYERS }
    requires known { All (λ layer. has_text (map (λ f. f.digest) facts.now) layer ≡ true) layers.now }
    ensures layers { IfOk result (λ places. at_places [] (map (λ f. f.digest) facts.now) places.items ≡ layers.now) }
    ensures within { IfOk result (λ places. All (λ k. k < length facts.now) places.items) }
    ensures count { IfOk result (λ places. length places.items ≡ length layers.now) }
{
    let mut places = Vec::new(alloc);
    for layer in layers {
        let place = place_of(facts, layer);
        places.push(place)?;
    }
    Ok(places)
}

/// The place of a layer among these facts, which have it. They are at most 128.
fn place_of<D: Desk>(facts: &[LayerFacts<D>], layer: &Digest) -> u32
    requires at_most_128_facts { length facts.now ≤ MAX_LAYERS }
    requires known { has_text (map (λ f. f.digest) facts.now) layer.now ≡ true }
    ensures within { result < length facts.now }
    ensures digest { slice_index_or (map (λ f. f.digest) facts.now) result [] ≡ layer.now }
{
    for (index, known) in facts.iter().enumerate() {
        if known.digest() == *layer {
            return index as u32;
        }
    }
    unreachable!()
}
