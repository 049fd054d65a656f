ghost use Rattle.std.specs.Prelude.{◌≡◌, ◌+◌, ◌<◌, List, [], ◌∷◌, IfOk, OnOk, length};
ghost use Rattle.std.specs.List.Sorted.{IsStrictlySortedBy};
ghost use Rattle.cv_base.specs.declared.advisory.Advisory.{Advisory};
ghost use Rattle.cv_advdb.specs.Feeds.{id_cmp};
ghost use Rattle.cv_advdb.specs.Touched.{IsTouched};
ghost use Rattle.cv_advdb.specs.code.Walk.{DiffersBy, IsBelow, IsLess, IsStep};

use crate::names::{in_name_order, push_names};
use crate::record::StoredRecord;
use crate::same::Same;
use cv_base::{Advisory, NoMemory, PackageName, Seq};
use std::alloc::Global;
use std::cmp::Ordering;

/// The names under which other records stand in the one list than in the other, sorted by ecosystem and then by name. Both lists
/// are in the order of their ids.
pub fn touched_keys(
    alloc: Global,
    before: &[StoredRecord],
    after: &[StoredRecord],
) -> Result<Seq<PackageName>, NoMemory>
    requires before_sorted { IsStrictlySortedBy id_cmp before.now }
    requires after_sorted { IsStrictlySortedBy id_cmp after.now }
    ensures { IfOk result (λ keys. IsTouched before.now after.now keys) }
{
    let names = differing_names(alloc, before, after)?;
    let keys = in_name_order(alloc, names)?;
    Ok(Seq::of(keys))
}

/// The names under which the lists differ, in the order in which the lists have them.
fn differing_names(
    alloc: Global,
    before: &[StoredRecord],
    after: &[StoredRecord],
) -> Result<Vec<PackageName>, NoMemory>
    requires before_sorted { IsStrictlySortedBy id_cmp before.now }
    requires after_sorted { IsStrictlySortedBy id_cmp after.now }
    ensures { IfOk result (λ names. DiffersBy before.now after.now [] [] names.items) }
{
    let mut names = Vec::new(alloc);
    let (mut left, mut right) = (before, after);
    while !(left.is_empty() && right.is_empty()) {
        let (lefts, rights) = step(&mut names, left, right)?;
        left = lefts;
        right = rights;
    }
    Ok(names)
}

/// Takes the record of the lower id, or both records if they have one id. The names of a record that does not stand in the
/// other list are appended.
fn step<'a>(
    names: &mut Vec<PackageName>,
    left: &'a [StoredRecord],
    right: &'a [StoredRecord],
) -> Result<(&'a [StoredRecord], &'a [StoredRecord]), NoMemory>
    requires left_sorted { IsStrictlySortedBy id_cmp left.now }
    requires right_sorted { IsStrictlySortedBy id_cmp right.now }
    requires has_records { 0 < length left.now + length right.now }
    ensures less { IfOk result (λ next. IsLess left.now right.now next.0.now next.1.now) }
    ensures differ { IfOk result (λ next. IsStep left.now right.now names.old.items next.0.now next.1.now names.new.items) }
{
    let Some((one, lefts)) = left.split_first() else {
        return step_right(names, left, right);
    };
    let Some((two, rights)) = right.split_first() else {
        push_names(names, one.advisory())?;
        return Ok((lefts, right));
    };
    match one.cmp(two) {
        Ordering::Less => {
            push_names(names, one.advisory())?;
            Ok((lefts, right))
        }
        Ordering::Greater => {
            push_names(names, two.advisory())?;
            Ok((left, rights))
        }
        Ordering::Equal => {
            push_changed(names, one.advisory(), two.advisory())?;
            Ok((lefts, rights))
        }
    }
}

/// Takes the first record of the second list, where nothing remains of the first one.
fn step_right<'a>(
    names: &mut Vec<PackageName>,
    left: &'a [StoredRecord],
    right: &'a [StoredRecord],
) -> Result<(&'a [StoredRecord], &'a [StoredRecord]), NoMemory>
    requires left_empty { length left.now ≡ 0 }
    requires right_sorted { IsStrictlySortedBy id_cmp right.now }
    requires has_records { 0 < length right.now }
    ensures less { IfOk result (λ next. IsLess left.now right.now next.0.now next.1.now) }
    ensures differ { IfOk result (λ next. IsStep left.now right.now names.old.items next.0.now next.1.now names.new.items) }
{
    let Some((two, rights)) = right.split_first() else {
        return Ok((left, right));
    };
    push_names(names, two.advisory())?;
    Ok((left, rights))
}

/// Appends the names of two records of one id, unless they are the same record.
fn push_changed(
    names: &mut Vec<PackageName>,
    one: &Advisory,
    two: &Advisory,
) -> Result<(), NoMemory>
    ensures { OnOk result ((lefts rights : List Advisory) → IsBelow one.now rights → IsBelow two.now lefts → IsStep (one.now ∷ lefts) (two.now ∷ rights) names.old.items lefts rights names.new.items) }
{
    if one.same(two) {
        return Ok(());
    }
    push_names(names, one)?;
    push_names(names, two)?;
    Ok(())
}
