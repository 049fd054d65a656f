ghost use Rattle.std.specs.Prelude.{◌≡◌, ◌≤◌, length, IfOk, OnOk};
ghost use Rattle.cv_scan.specs.Distinct.{distinct};
ghost use Rattle.cv_scan.specs.code.Distinct.{with_layer};

use cv_base::{Digest, NoMemory};
use std::alloc::Global;

/// The layers of an image, each once, at the first place where it stands. They are at most 128.
#[tactic(auto, using(crate::proofs::DistinctLemmas::followed_all, crate::proofs::DistinctLemmas::followed_none))]
pub fn distinct_layers(alloc: Global, layers: &[Digest]) -> Result<Vec<Digest>, NoMemory>
    ensures layers { IfOk result (λ out. out.items ≡ distinct layers.now) }
    ensures fewer { IfOk result (λ out. length out.items ≤ length layers.now) }
{
    let mut distinct = Vec::new(alloc);
    for layer in layers {
        add_layer(&mut distinct, layer)?;
    }
    Ok(distinct)
}

/// Appends a layer, unless it is one of those before.
fn add_layer(distinct: &mut Vec<Digest>, layer: &Digest) -> Result<(), NoMemory>
    ensures { OnOk result (distinct.new.items ≡ with_layer distinct.old.items layer.now) }
{
    if !distinct.contains(layer) {
        distinct.push(*layer)?;
    }
    Ok(())
}
