ghost use Rattle.std.specs.Prelude.{◌≡◌, [], ◌<◌, ◌≤◌, All, length, map, slice_index_or, IfOk, IfSome};
ghost use Rattle.cv_base.specs.declared.limits.TheConstants.{MAX_LAYERS};
ghost use Rattle.cv_coalesce.specs.Coalesced.{at_places, bad_from, chosen, first_fault, missing_from, other_seal_from, reductions, seal_fault_in};
ghost use Rattle.cv_coalesce.specs.code.Known.{known_at};
ghost use Rattle.cv_facts.specs.Order.{HasOrderedLists, IsOrdered};
ghost use Rattle.cv_facts.specs.Reduction.{IsRight, shape_of};
ghost use Rattle.cv_facts.specs.declared.reduction.Shape.TheVariants.{NoLayer};
ghost use Rattle.cv_scan.specs.Layers.{stored_layers};

use cv_base::{Digest, NoMemory};
use cv_desk::Desk;
use cv_facts::{LayerFacts, Reduction, Shape};
use cv_overlay::ImageFault;
use std::alloc::Global;

/// The shapes of an image's layers, whose places among the facts are given.
pub fn shapes_of<'a, D: Desk>(
    alloc: Global,
    facts: &'a [LayerFacts<D>],
    layers: &[u32],
) -> Result<Vec<&'a Shape>, NoMemory>
    requires { All (λ k. k < length facts.now) layers.now }
    ensures shapes { IfOk result (λ out. map (λ s. s.now) out.items ≡ chosen (map (λ f. f.shape) facts.now) layers.now) }
    ensures count { IfOk result (λ out. length out.items ≡ length layers.now) }
    ensures sorted { IfOk result (λ out. All (λ s. IsOrdered s.now) out.items) }
    ensures right { IfOk result (λ _. IfSome (stored_layers D.tree (at_places [] (map (λ f. f.digest) facts.now) layers.now)) (λ stored. chosen (map (λ f. f.shape) facts.now) layers.now ≡ map shape_of stored)) }
{
    let mut shapes = Vec::new(alloc);
    for layer in layers {
        let shape = shape_at(facts, *layer);
        shapes.push(shape)?;
    }
    Ok(shapes)
}

/// The shape at a place among the facts.
fn shape_at<D: Desk>(facts: &[LayerFacts<D>], place: u32) -> &Shape
    requires { place < length facts.now }
    ensures shape { result.now ≡ slice_index_or (map (λ f. f.shape) facts.now) place NoLayer }
    ensures sorted { IsOrdered result.now }
    ensures right { IsRight D.tree (known_at facts.now place) }
{
    let known = &facts[place as usize];
    known.known_law();
    known.ordered_law();
    known.shape()
}

/// The first layer that is missing, or else the first whose tree is not good, or else the first whose tree has another seal than
/// the stated one.
pub fn first_fault(shapes: &[&Shape], seals: &[Option<Digest>]) -> Option<ImageFault>
    requires at_most_128_layers { length shapes.now ≤ MAX_LAYERS }
    requires as_many_seals { length seals.now ≡ length shapes.now }
    ensures { result ≡ first_fault (map (λ s. s.now) shapes.now) seals.now }
{
    missing_layer(shapes)
        .or_else(|| bad_tree(shapes))
        .or_else(|| other_seal(shapes, seals))
}

fn missing_layer(shapes: &[&Shape]) -> Option<ImageFault>
    requires { length shapes.now ≤ MAX_LAYERS }
    ensures { result ≡ missing_from 0 (map (λ s. s.now) shapes.now) }
{
    for (index, shape) in shapes.iter().enumerate() {
        if let Shape::NoLayer = shape {
            return Some(ImageFault::NoLayer(index as u32));
        }
    }
    None
}

fn bad_tree(shapes: &[&Shape]) -> Option<ImageFault>
    requires { length shapes.now ≤ MAX_LAYERS }
    ensures { result ≡ bad_from 0 (map (λ s. s.now) shapes.now) }
{
    for (index, shape) in shapes.iter().enumerate() {
        if let Shape::BadTree(fault) = shape {
            return Some(ImageFault::BadTree(index as u32, *fault));
        }
    }
    None
}

fn other_seal(shapes: &[&Shape], seals: &[Option<Digest>]) -> Option<ImageFault>
    requires at_most_128_layers { length shapes.now ≤ MAX_LAYERS }
    requires as_many_seals { length seals.now ≡ length shapes.now }
    ensures { result ≡ other_seal_from 0 seals.now (map (λ s. s.now) shapes.now) }
{
    for (index, shape) in shapes.iter().enumerate() {
        let fault = seal_fault(index as u32, seals[index], shape);
        if fault.is_some() {
            return fault;
        }
    }
    None
}

/// The fault of the layer of this index, from 0, if its tree has another seal than the stated one.
fn seal_fault(index: u32, stated: Option<Digest>, shape: &Shape) -> Option<ImageFault>
    ensures { result ≡ seal_fault_in index stated shape.now }
{
    match (shape, stated) {
        (Shape::Reduced(layer), Some(stated)) if layer.seal != stated => {
            Some(ImageFault::BadSeal {
                layer: index,
                stated,
                found: layer.seal,
            })
        }
        _ => None,
    }
}

/// The reductions of the layers that have one.
pub fn reductions<'a>(alloc: Global, shapes: &[&'a Shape]) -> Result<Vec<&'a Reduction>, NoMemory>
    requires { All (λ s. IsOrdered s.now) shapes.now }
    ensures reductions { IfOk result (λ out. map (λ r. r.now) out.items ≡ reductions (map (λ s. s.now) shapes.now)) }
    ensures sorted { IfOk result (λ out. All (λ r. HasOrderedLists r.now) out.items) }
{
    let mut out = Vec::new(alloc);
    for shape in shapes {
        if let Shape::Reduced(reduction) = shape {
            out.push(reduction)?;
        }
    }
    Ok(out)
}
