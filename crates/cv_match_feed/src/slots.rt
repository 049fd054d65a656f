ghost use Rattle.std.specs.Prelude.{◌≡◌, IfOk, map, slice_get, option_and_then};
ghost use Rattle.std.specs.Option.{option_map};
ghost use Rattle.cv_match.specs.Prepared.{prepared_for};
ghost use Rattle.cv_match_feed.specs.code.Slots.{AreSlots, AreSlotsByKind, no_slot};

use cv_base::{Advisory, NoMemory, PackageKind};
use cv_match::{ReadyAdvisory, prepare};
use std::alloc::Global;

/// A slot for each record of a feed. It is empty until the record is prepared for a kind of package.
pub(crate) type Slots = Vec<Option<ReadyAdvisory>>;

/// The slots for each kind of package.
#[derive(Drop)]
pub(crate) struct SlotsByKind {
    pub deb: Slots,
    pub apk: Slots,
    pub npm: Slots,
    pub pypi: Slots,
}

/// Empty slots for these records.
#[tactic(auto, using(crate::proofs::SlotLemmas::empty_held))]
pub(crate) fn empty_slots(alloc: Global, advisories: &[Advisory]) -> Result<SlotsByKind, NoMemory>
    ensures { IfOk result (λ slots. AreSlotsByKind slots advisories.now) }
{
    Ok(SlotsByKind {
        deb: empty(alloc, advisories)?,
        apk: empty(alloc, advisories)?,
        npm: empty(alloc, advisories)?,
        pypi: empty(alloc, advisories)?,
    })
}

fn empty(alloc: Global, advisories: &[Advisory]) -> Result<Slots, NoMemory>
    ensures { IfOk result (λ slots. slots.items ≡ map no_slot advisories.now) }
{
    let mut slots = Vec::new(alloc);
    for _advisory in advisories {
        slots.push(None)?;
    }
    Ok(slots)
}

/// The record of an index, prepared for a kind of package. It is prepared once, at its first use.
pub(crate) fn prepared_at(
    alloc: Global,
    kind: PackageKind,
    advisories: &[Advisory],
    index: usize,
    slots: &mut Slots,
) -> Result<Option<ReadyAdvisory>, NoMemory>
    requires { AreSlots kind slots.old.items advisories.now }
    ensures slots { AreSlots kind slots.new.items advisories.now }
    ensures record { IfOk result (λ prepared. prepared ≡ option_map (prepared_for kind) (slice_get advisories.now index)) }
{
    let Some(advisory) = advisories.get(index) else {
        return Ok(None);
    };
    if let Some(prepared) = kept(slots, index)? {
        return Ok(Some(prepared));
    }
    let prepared = prepare(alloc, advisory, kind)?;
    slots[index] = Some(prepared.clone()?);
    Ok(Some(prepared))
}

/// The record that a slot holds.
fn kept(slots: &[Option<ReadyAdvisory>], index: usize) -> Result<Option<ReadyAdvisory>, NoMemory>
    ensures { IfOk result (λ prepared. prepared ≡ option_and_then (λ slot. slot) (slice_get slots.now index)) }
{
    match slots.get(index) {
        Some(Some(prepared)) => Ok(Some(prepared.clone()?)),
        _ => Ok(None),
    }
}
