ghost use Rattle.std.specs.Prelude.{◌+◌, ◌<◌, ◌^◌, ◌≡◌, IfOk, IfSome, None, OnOk, map};
ghost use Rattle.std.specs.List.{count_by};
ghost use Rattle.std.specs.Option.{option_map};
ghost use Rattle.cv_seq.specs.Cause.{CausedBy};
ghost use Rattle.cv_desk.specs.Counts.{count_after};
ghost use Rattle.cv_desk.specs.Stored.{listed};
ghost use Rattle.cv_overlay.specs.Fault.{list_fault};
ghost use Rattle.cv_facts.specs.Cause.{is_desk_fault};
ghost use Rattle.cv_facts.specs.Order.{HasOrderedLists, IsOrdered};
ghost use Rattle.cv_facts.specs.Reads.{HasReads, IsReduction, IsShapeBy, IsShapeOf, is_read, read_count, reads_by};
ghost use Rattle.cv_facts.specs.Reduction.{shape_of};
ghost use Rattle.cv_facts.specs.code.Listing.{found_shape, listed_reduction, listed_shape};

use crate::error::IndexError;
use crate::facts::LayerFacts;
use crate::hides::hides_of;
use crate::order::in_path_order;
use crate::reading::read_entries;
use crate::reduction::{Reduction, Shape};
use cv_base::{Digest, ListEntry, Seq};
use cv_desk::Desk;
use cv_overlay::check_tree;
use std::alloc::Global;

/// Indexes a layer: lists it once, checks the listing, and reads its package files and all that its seal sums, each file once. The
/// files of a layer whose listing is not a good tree are not read.
pub fn index_layer<D: Desk>(
    alloc: Global,
    desk: &mut D,
    layer: Digest,
) -> Result<LayerFacts<D>, IndexError>
    requires room { D.listings desk.old < 2 ^ 63 + 2 ^ 62 }
    ensures digest { IfOk result (λ facts. facts.digest ≡ layer) }
    ensures shape { IfSome (D.tree layer) (λ t. IfOk result (λ facts. facts.shape ≡ shape_of t)) }
    ensures cause { CausedBy (D.faults desk.old) (D.faults desk.new) (is_desk_fault result) }
    ensures counted { D.listings desk.new ≡ D.listings desk.old + 1 }
    ensures reads { IfSome (D.tree layer) (λ t. OnOk result (D.reads desk.new ≡ count_after (D.reads desk.old) (read_count (option_map (map listed) t)))) }
    ensures listing { IfOk result (λ facts. HasReads facts.shape (D.reads desk.old) (D.reads desk.new)) }
{
    let shape = read_shape(alloc, desk, &layer)?;
    Ok(LayerFacts::of(alloc, layer, shape)?)
}

/// The shape of a layer.
fn read_shape<D: Desk>(alloc: Global, desk: &mut D, layer: &Digest) -> Result<Shape, IndexError>
    requires room { D.listings desk.old < 2 ^ 63 + 2 ^ 62 }
    ensures shape { IfSome (D.tree layer.now) (λ t. IfOk result (λ shape. shape ≡ shape_of t)) }
    ensures ordered { IfOk result (λ shape. IsOrdered shape) }
    ensures cause { CausedBy (D.faults desk.old) (D.faults desk.new) (is_desk_fault result) }
    ensures counted { D.listings desk.new ≡ D.listings desk.old + 1 }
    ensures reads { IfSome (D.tree layer.now) (λ t. OnOk result (D.reads desk.new ≡ count_after (D.reads desk.old) (read_count (option_map (map listed) t)))) }
    ensures listing { IfOk result (λ shape. HasReads shape (D.reads desk.old) (D.reads desk.new)) }
{
    let listed = desk.list(alloc, layer)?;
    found_shape(alloc, desk, layer, listed)
}

/// The shape of a layer that was listed, if there is one.
fn found_shape<D: Desk>(
    alloc: Global,
    desk: &mut D,
    layer: &Digest,
    listed: Option<Seq<ListEntry>>,
) -> Result<Shape, IndexError>
    ensures shape { IfSome (D.tree layer.now) (λ t. IfOk result (λ shape. shape ≡ found_shape t listed)) }
    ensures ordered { IfOk result (λ shape. IsOrdered shape) }
    ensures cause { CausedBy (D.faults desk.old) (D.faults desk.new) (is_desk_fault result) }
    ensures same { D.listings desk.new ≡ D.listings desk.old }
    ensures reads { OnOk result (D.reads desk.new ≡ count_after (D.reads desk.old) (read_count listed)) }
    ensures listing { IfOk result (λ shape. IsShapeOf listed shape) }
{
    match listed {
        None => Ok(Shape::NoLayer),
        Some(listed) => listed_shape(alloc, desk, layer, listed.as_slice()),
    }
}

/// The shape of a layer with this listing.
fn listed_shape<D: Desk>(
    alloc: Global,
    desk: &mut D,
    layer: &Digest,
    entries: &[ListEntry],
) -> Result<Shape, IndexError>
    ensures shape { IfSome (D.tree layer.now) (λ t. IfOk result (λ shape. shape ≡ listed_shape t entries.now)) }
    ensures ordered { IfOk result (λ shape. IsOrdered shape) }
    ensures cause { CausedBy (D.faults desk.old) (D.faults desk.new) (is_desk_fault result) }
    ensures same { D.listings desk.new ≡ D.listings desk.old }
    ensures reads { OnOk result (D.reads desk.new ≡ count_after (D.reads desk.old) (reads_by (list_fault entries.now) entries.now)) }
    ensures listing { IfOk result (λ shape. IsShapeBy (list_fault entries.now) entries.now shape) }
{
    match check_tree(entries) {
        Err(fault) => Ok(Shape::BadTree(fault)),
        Ok(()) => Ok(Shape::Reduced(reduce(alloc, desk, layer, entries)?)),
    }
}

/// The reduction of a layer with this listing.
fn reduce<D: Desk>(
    alloc: Global,
    desk: &mut D,
    layer: &Digest,
    entries: &[ListEntry],
) -> Result<Reduction, IndexError>
    requires good { list_fault entries.now ≡ None }
    ensures reduction { IfSome (D.tree layer.now) (λ t. IfOk result (λ reduction. reduction ≡ listed_reduction t entries.now)) }
    ensures ordered { IfOk result (λ reduction. HasOrderedLists reduction) }
    ensures cause { CausedBy (D.faults desk.old) (D.faults desk.new) (is_desk_fault result) }
    ensures same { D.listings desk.new ≡ D.listings desk.old }
    ensures reads { OnOk result (D.reads desk.new ≡ count_after (D.reads desk.old) (count_by is_read entries.now)) }
    ensures listing { IfOk result (λ reduction. IsReduction entries.now reduction) }
{
    let contents = read_entries(alloc, desk, layer, entries)?;
    let hides = hides_of(alloc, entries)?;
    Ok(Reduction {
        whiteouts: Seq::of(in_path_order(alloc, hides.whiteouts)?),
        opaques: Seq::of(in_path_order(alloc, hides.opaques)?),
        covers: Seq::of(hides.covers),
        place_dirs: Seq::of(hides.place_dirs),
        files: Seq::of(contents.files),
        seal: contents.seal,
    })
}
