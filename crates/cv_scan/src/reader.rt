ghost use Rattle.std.specs.Prelude.{◌≡◌, ◌+◌, ◌^◌, ◌<◌, ◌≤◌, ℕ, List, length, map, IfOk, IfErr};
ghost use Rattle.std.specs.List.{AllByRecursion};
ghost use Rattle.cv_desk.specs.Fault.{is_failed};
ghost use Rattle.cv_seq.specs.Cause.{CausedBy};
ghost use Rattle.cv_scan.specs.Distinct.{distinct};
ghost use Rattle.cv_scan.specs.Failed.{IsOfLayers, is_desk_fault};
ghost use Rattle.cv_scan.specs.code.Failed.{IsOfLayer};

use crate::distinct::distinct_layers;
use crate::layer_error::ImageError;
use cv_base::{Digest, MAX_LAYERS, NoMemory};
use cv_desk::{Desk, DeskFault};
use std::alloc::Global;

/// What is made of a layer of a desk, and how.
pub trait LayerReader<D: Desk> {
    type Made: Drop;

    /// The digest of the layer that it was made of.
    ghost digest: { Self.Made → List ℕ };

    /// It is right for the trees that the desk's type names.
    ghost right: { Self.Made → Type 0 };

    /// Reads a layer, which is listed once.
    fn read(alloc: Global, desk: &mut D, layer: &Digest) -> Result<Self::Made, DeskFault>
        requires room { D.listings desk.old < 2 ^ 63 + 2 ^ 62 }
        ensures digest { IfOk result (λ made. digest made ≡ layer.now) }
        ensures right { IfOk result right }
        ensures counted { D.listings desk.new ≡ D.listings desk.old + 1 }
        ensures cause { CausedBy (D.faults desk.old) (D.faults desk.new) (is_failed result) };
}

/// Reads each distinct layer of an image once, in the order of the image.
pub fn read_layers<D: Desk, R: LayerReader<D>>(
    alloc: Global,
    desk: &mut D,
    layers: &[Digest],
) -> Result<Vec<R::Made>, ImageError>
    requires room { D.listings desk.old < 2 ^ 62 }
    requires at_most_128_layers { length layers.now ≤ MAX_LAYERS }
    ensures layers { IfOk result (λ made. map R.digest made.items ≡ distinct layers.now) }
    ensures right { IfOk result (λ made. AllByRecursion R.right made.items) }
    ensures counted { IfOk result (λ _. D.listings desk.new ≡ D.listings desk.old + length (distinct layers.now)) }
    ensures failed { IfErr result (IsOfLayers (distinct layers.now) (D.listings desk.old) (D.listings desk.new)) }
    ensures cause { CausedBy (D.faults desk.old) (D.faults desk.new) (is_desk_fault result) }
{
    let distinct = distinct_layers(alloc, layers)?;
    read_each::<D, R>(alloc, desk, &distinct)
}

/// Reads these layers, one after the other.
fn read_each<D: Desk, R: LayerReader<D>>(
    alloc: Global,
    desk: &mut D,
    layers: &[Digest],
) -> Result<Vec<R::Made>, ImageError>
    requires room { D.listings desk.old < 2 ^ 62 }
    requires at_most_128_layers { length layers.now ≤ MAX_LAYERS }
    ensures layers { IfOk result (λ made. map R.digest made.items ≡ layers.now) }
    ensures right { IfOk result (λ made. AllByRecursion R.right made.items) }
    ensures counted { IfOk result (λ _. D.listings desk.new ≡ D.listings desk.old + length layers.now) }
    ensures failed { IfErr result (IsOfLayers layers.now (D.listings desk.old) (D.listings desk.new)) }
    ensures cause { CausedBy (D.faults desk.old) (D.faults desk.new) (is_desk_fault result) }
{
    let mut made = Vec::new(alloc);
    for layer in layers {
        match read_one::<D, R>(alloc, desk, layer) {
            Ok(next) => made.push(next).map_err(NoMemory::from)?,
            Err(error) => return Err(error),
        }
    }
    Ok(made)
}

/// Reads a layer, and says at which one the desk failed.
#[tactic(auto, using(crate::proofs::Errors::of_layer, crate::proofs::Errors::blamed))]
fn read_one<D: Desk, R: LayerReader<D>>(
    alloc: Global,
    desk: &mut D,
    layer: &Digest,
) -> Result<R::Made, ImageError>
    requires room { D.listings desk.old < 2 ^ 63 + 2 ^ 62 }
    ensures digest { IfOk result (λ made. R.digest made ≡ layer.now) }
    ensures right { IfOk result R.right }
    ensures counted { D.listings desk.new ≡ D.listings desk.old + 1 }
    ensures failed { IfErr result (IsOfLayer layer.now) }
    ensures cause { CausedBy (D.faults desk.old) (D.faults desk.new) (is_desk_fault result) }
{
    match R::read(alloc, desk, layer) {
        Ok(made) => Ok(made),
        Err(fault) => Err(ImageError::of_desk(layer, fault)),
    }
}
