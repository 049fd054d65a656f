ghost use Rattle.std.specs.Prelude.{◌≡◌, All, map, IfOk};
ghost use Rattle.cv_coalesce.specs.Gathered.{gathered};
ghost use Rattle.cv_facts.specs.Order.{HasOrderedLists};

use crate::merge::merge;
use crate::visible::visible;
use cv_base::NoMemory;
use cv_facts::{FileFound, Reduction};
use std::alloc::Global;

/// The package files of an image of these layers, the base first. It goes from the top layer down, so that each file is looked
/// up in the lists of the layers above its own alone.
#[tactic(auto, using(crate::proofs::GatheredLemmas::layers_gathered))]
pub fn gather<'a>(alloc: Global, layers: &[&'a Reduction]) -> Result<Vec<&'a FileFound>, NoMemory>
    requires { All (λ h. HasOrderedLists h.now) layers.now }
    ensures { IfOk result (λ out. map (λ f. f.now) out.items ≡ gathered (map (λ h. h.now) layers.now)) }
{
    let mut files = Vec::new(alloc);
    let mut remaining = layers.len();
    while remaining > 0 {
        let (_, higher) = layers.split_at(remaining);
        remaining -= 1;
        let own = visible(alloc, higher, layers[remaining].files.as_slice())?;
        files = merge(alloc, own, files)?;
    }
    Ok(files)
}
