ghost use Rattle.std.specs.Prelude.{◌≡◌, ◌∷◌, ◌++◌, [], ◌<◌, IfOk, OnOk, slice_get};
ghost use Rattle.std.specs.List.{flat_map};
ghost use Rattle.std.specs.Option.{option_map, option_to_list};
ghost use Rattle.cv_match.specs.Findings.{findings};
ghost use Rattle.cv_match.specs.Prepared.{prepared_for};
ghost use Rattle.cv_match_feed.specs.code.Found.{found_all, found_by};
ghost use Rattle.cv_match_feed.specs.code.Index.{Indexes, found_at};
ghost use Rattle.cv_match_feed.specs.code.Slots.{AreSlots, AreSlotsByKind};

use crate::finding::find_one;
use crate::index::{Names, index_records, indices_for};
use crate::slots::{Slots, SlotsByKind, empty_slots, prepared_at};
use cv_base::{Advisory, Finding, NoMemory, Package, PackageKind, Seq, Steps, Text};
use cv_match::{ReadyAdvisory, ReadyPackage, in_order, prepare_package};
use cv_seq::push_some;
use std::alloc::Global;
use std::marker::Brand;
use std::sync::ledger::{Blank, Ledger};

/// The findings of packages with the records of a feed: each package with each record that affects it, sorted by package,
/// feed and id, each once. A record is tried against a package only if it names the package, and it is prepared once for
/// each kind of package.
#[tactic(auto, using(crate::proofs::FindLemmas::findings_feed))]
pub fn find_all(
    alloc: Global,
    packages: &[Package],
    feed: &Text,
    advisories: &[Advisory],
) -> Result<Seq<Finding>, NoMemory>
    ensures { IfOk result (λ out. out ≡ findings packages.now ((feed.now, advisories.now) ∷ [])) }
{
    let found = find_counted::<Brand>(Blank::new(1), alloc, packages, feed, advisories)?;
    in_order(alloc, found)
}

/// The unsorted findings, counting the steps.
fn find_counted<L: Ledger>(
    blank: Blank,
    alloc: Global,
    packages: &[Package],
    feed: &Text,
    advisories: &[Advisory],
) -> Result<Vec<Finding>, NoMemory>
    requires name { blank.name ≡ L.name }
    requires parts { blank.parts ≡ L.parts }
    requires has_parts { 0 < L.parts }
    ensures { IfOk result (λ out. out.items ≡ found_all feed.now advisories.now packages.now) }
{
    let mut steps = Steps::<L>::open(blank);
    let names = index_records(alloc, advisories)?;
    let mut slots = empty_slots(alloc, advisories)?;
    let mut out = Vec::new(alloc);
    for package in packages {
        let found = find_in(
            alloc, package, feed, advisories, &names, &mut slots, &mut steps,
        )?;
        add_all(&mut out, found)?;
    }
    Ok(out)
}

/// The findings of a package, in the order of the records.
fn find_in<L: Ledger>(
    alloc: Global,
    package: &Package,
    feed: &Text,
    advisories: &[Advisory],
    names: &Names,
    slots: &mut SlotsByKind,
    steps: &mut Steps<L>,
) -> Result<Vec<Finding>, NoMemory>
    requires indexed { Indexes names.now advisories.now }
    requires slots { AreSlotsByKind slots.old advisories.now }
    ensures found { IfOk result (λ found. found.items ≡ found_by feed.now advisories.now «package».now) }
    ensures slots { AreSlotsByKind slots.new advisories.now }
{
    let indices = indices_for(alloc, names, package)?;
    find_by_kind(alloc, package, feed, advisories, &indices, slots, steps)
}

/// The findings of a package with the records of these indices.
fn find_by_kind<L: Ledger>(
    alloc: Global,
    package: &Package,
    feed: &Text,
    advisories: &[Advisory],
    indices: &[usize],
    slots: &mut SlotsByKind,
    steps: &mut Steps<L>,
) -> Result<Vec<Finding>, NoMemory>
    requires { AreSlotsByKind slots.old advisories.now }
    ensures found { IfOk result (λ found. found.items ≡ flat_map (found_at «package».now feed.now advisories.now) indices.now) }
    ensures slots { AreSlotsByKind slots.new advisories.now }
{
    match package.kind {
        PackageKind::Deb => {
            find_indexed(
                alloc,
                package,
                feed,
                advisories,
                indices,
                &mut slots.deb,
                steps,
            )
        }
        PackageKind::Apk => {
            find_indexed(
                alloc,
                package,
                feed,
                advisories,
                indices,
                &mut slots.apk,
                steps,
            )
        }
        PackageKind::Npm => {
            find_indexed(
                alloc,
                package,
                feed,
                advisories,
                indices,
                &mut slots.npm,
                steps,
            )
        }
        PackageKind::Pypi => {
            find_indexed(
                alloc,
                package,
                feed,
                advisories,
                indices,
                &mut slots.pypi,
                steps,
            )
        }
    }
}

/// The same, with the slots for the kind of the package.
fn find_indexed<L: Ledger>(
    alloc: Global,
    package: &Package,
    feed: &Text,
    advisories: &[Advisory],
    indices: &[usize],
    slots: &mut Slots,
    steps: &mut Steps<L>,
) -> Result<Vec<Finding>, NoMemory>
    requires { AreSlots «package».now.kind slots.old.items advisories.now }
    ensures found { IfOk result (λ found. found.items ≡ flat_map (found_at «package».now feed.now advisories.now) indices.now) }
    ensures slots { AreSlots «package».now.kind slots.new.items advisories.now }
{
    let prepared = prepare_package(alloc, package)?;
    let mut out = Vec::new(alloc);
    for index in indices {
        let found = find_next(
            alloc, package, &prepared, feed, advisories, *index, slots, steps,
        )?;
        push_some(&mut out, found)?;
    }
    Ok(out)
}

/// The finding of a package with the record of this index, whose slot is filled if it is empty.
fn find_next<L: Ledger>(
    alloc: Global,
    package: &Package,
    prepared: &ReadyPackage,
    feed: &Text,
    advisories: &[Advisory],
    index: usize,
    slots: &mut Slots,
    steps: &mut Steps<L>,
) -> Result<Option<Finding>, NoMemory>
    requires prepared { prepared.now ≡ «package».now }
    requires slots { AreSlots «package».now.kind slots.old.items advisories.now }
    ensures found { IfOk result (λ finding. option_to_list finding ≡ found_at «package».now feed.now advisories.now index) }
    ensures slots { AreSlots «package».now.kind slots.new.items advisories.now }
{
    let prepared_record = prepared_at(alloc, package.kind, advisories, index, slots)?;
    find_at(
        alloc,
        package,
        prepared,
        feed,
        advisories,
        index,
        prepared_record,
        steps,
    )
}

/// The finding of a package with the record of this index.
fn find_at<L: Ledger>(
    alloc: Global,
    package: &Package,
    prepared: &ReadyPackage,
    feed: &Text,
    advisories: &[Advisory],
    index: usize,
    prepared_record: Option<ReadyAdvisory>,
    steps: &mut Steps<L>,
) -> Result<Option<Finding>, NoMemory>
    requires prepared { prepared.now ≡ «package».now }
    requires prepared_record { prepared_record ≡ option_map (prepared_for «package».now.kind) (slice_get advisories.now index) }
    ensures { IfOk result (λ finding. option_to_list finding ≡ found_at «package».now feed.now advisories.now index) }
{
    let Some(advisory) = advisories.get(index) else {
        return Ok(None);
    };
    let Some(prepared_record) = prepared_record else {
        return Ok(None);
    };
    find_one(
        alloc,
        package,
        prepared,
        feed,
        advisory,
        &prepared_record,
        steps,
    )
}

/// Adds findings.
fn add_all(out: &mut Vec<Finding>, mut found: Vec<Finding>) -> Result<(), NoMemory>
    ensures { OnOk result (out.new.items ≡ out.old.items ++ found.items) }
{
    out.append(&mut found)?;
    Ok(())
}
