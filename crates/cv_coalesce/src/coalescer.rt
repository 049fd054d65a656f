ghost use Rattle.std.specs.Prelude.{◌≡◌, [], ◌<◌, ◌≤◌, All, length, map, IfOk, IfSome};
ghost use Rattle.cv_base.specs.declared.limits.TheConstants.{MAX_LAYERS};
ghost use Rattle.cv_coalesce.specs.Coalesced.{at_places, chosen, coalesced, with_packages};
ghost use Rattle.cv_coalesce.specs.Gathered.{gathered};
ghost use Rattle.cv_coalesce.specs.Image.{answer_of, image_packages};
ghost use Rattle.cv_facts.specs.Order.{HasOrderedLists, IsOrdered};
ghost use Rattle.cv_packages.specs.Packages.{assembled};
ghost use Rattle.cv_scan.specs.Layers.{stored_layers};

use crate::gather::gather;
use crate::image::ImagePackages;
use crate::shapes::{first_fault, reductions, shapes_of};
use cv_base::{Digest, NoMemory};
use cv_desk::Desk;
use cv_facts::{LayerFacts, Reduction, Shape};
use cv_overlay::ImageFault;
use cv_packages::{PackagesError, assemble};
use std::alloc::Global;

/// The packages of an image, or why it has none. Its layers are the facts at these places, the base first; a place may stand
/// more than once, and for each time another seal may be stated, or none. A missing layer is named before a bad tree, a bad tree
/// before a tree with another seal than the stated one, and that before a package file that is refused. Layers are named by their
/// index in `layers`.
pub fn coalesce<D: Desk>(
    alloc: Global,
    facts: &[LayerFacts<D>],
    layers: &[u32],
    seals: &[Option<Digest>],
) -> Result<ImagePackages, NoMemory>
    requires at_most_128_layers { length layers.now ≤ MAX_LAYERS }
    requires as_many_seals { length seals.now ≡ length layers.now }
    requires places { All (λ k. k < length facts.now) layers.now }
    ensures shapes { IfOk result (λ found. found ≡ coalesced (chosen (map (λ f. f.shape) facts.now) layers.now) seals.now) }
    ensures answer { IfSome (stored_layers D.tree (at_places [] (map (λ f. f.digest) facts.now) layers.now)) (λ stored. IfOk result (λ found. found ≡ answer_of (image_packages stored seals.now))) }
{
    let shapes = shapes_of(alloc, facts, layers)?;
    coalesce_shapes(alloc, &shapes, seals)
}

/// The packages of an image of layers of these shapes, with these seals.
#[tactic(auto, unfolding(crate::specs::Coalesced::coalesced))]
fn coalesce_shapes(
    alloc: Global,
    shapes: &[&Shape],
    seals: &[Option<Digest>],
) -> Result<ImagePackages, NoMemory>
    requires at_most_128_layers { length shapes.now ≤ MAX_LAYERS }
    requires as_many_seals { length seals.now ≡ length shapes.now }
    requires sorted { All (λ s. IsOrdered s.now) shapes.now }
    ensures { IfOk result (λ found. found ≡ coalesced (map (λ s. s.now) shapes.now) seals.now) }
{
    match first_fault(shapes, seals) {
        Some(fault) => Ok(ImagePackages::Bad(fault)),
        None => {
            let layers = reductions(alloc, shapes)?;
            coalesce_reductions(alloc, &layers)
        }
    }
}

/// The packages of an image of layers with these reductions.
fn coalesce_reductions(alloc: Global, layers: &[&Reduction]) -> Result<ImagePackages, NoMemory>
    requires { All (λ r. HasOrderedLists r.now) layers.now }
    ensures { IfOk result (λ found. found ≡ with_packages (assembled (gathered (map (λ r. r.now) layers.now)))) }
{
    let files = gather(alloc, layers)?;
    match assemble(alloc, &files) {
        Ok(packages) => Ok(ImagePackages::Good(packages)),
        Err(PackagesError::Refused(fault)) => Ok(ImagePackages::Bad(ImageFault::from(fault))),
        Err(PackagesError::NoMemory) => Err(NoMemory),
    }
}
