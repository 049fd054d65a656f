ghost use Rattle.std.specs.Prelude.{◌≡◌, [], ◌∷◌, ◌++◌, map, IfOk, OnOk, Result};
ghost use Rattle.cv_osv.specs.RecordAnswer.{Reads};
ghost use Rattle.cv_osv.specs.Json.{each};
ghost use Rattle.cv_osv.specs.declared.record_error.RecordWhat.{RecordWhat};
ghost use Rattle.serde_json.specs.Data.{Data};
ghost use Rattle.serde_json.specs.View.{items_of};

use crate::node::{Node, Texts};
use crate::record_error::{AdvisoryError, RecordWhat};
use cv_base::{NoMemory, Seq};
use std::alloc::Global;

/// A part of a record, or why it was not read.
pub(crate) type PartRead<P> = Result<P, AdvisoryError>;

/// A part of a record, of which a list has one for each item.
pub(crate) trait Part: Sized + Drop {
    /// What a value is read as.
    ghost part_of: { Data → Result Self RecordWhat };

    fn read<V: Node<T>, T: Texts>(alloc: Global, texts: &mut T, value: &V) -> PartRead<Self>
        ensures { Reads (λ part. part) result (part_of (V.data_of value.now)) };
}

/// The parts that the items of a list are.
#[tactic(auto, using(crate::proofs::Onto::each_more, crate::proofs::Onto::each_bad))]
pub(crate) fn read_each<P: Part, V: Node<T>, T: Texts>(
    alloc: Global,
    texts: &mut T,
    items: &[V],
) -> PartRead<Seq<P>>
    ensures { Reads (λ parts. parts) result (each P.part_of (items_of (map V.data_of items.now))) }
{
    let mut parts = room_for(alloc, items.len())?;
    let mut remaining = items;
    while let [item, rest @ ..] = remaining {
        match P::read(alloc, texts, item) {
            Ok(part) => push(&mut parts, part)?,
            Err(bad) => return Err(bad),
        }
        remaining = rest;
    }
    Ok(Seq::of(parts))
}

/// A vector with room for as many items.
pub(crate) fn room_for<T>(alloc: Global, count: usize) -> Result<Vec<T>, NoMemory>
    ensures { IfOk result (λ made. made.items ≡ []) }
{
    Ok(Vec::with_capacity(alloc, count)?)
}

/// Appends an item.
pub(crate) fn push<T: Drop>(items: &mut Vec<T>, item: T) -> Result<(), NoMemory>
    ensures { OnOk result (items.new.items ≡ items.old.items ++ item ∷ []) }
{
    Ok(items.push(item)?)
}
