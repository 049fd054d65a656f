ghost use Rattle.std.specs.Prelude.{◌≡◌, ◌++◌, ◌∷◌, [], IfOk, OnOk, filter, if◌then◌else◌, Some};
ghost use Rattle.std.specs.List.Sorted.{IsStrictlySortedBy};
ghost use Rattle.cv_base.specs.declared.package.PackageName.{PackageName};
ghost use Rattle.cv_match.specs.Keys.{is_key, is_named, name_cmp};
ghost use Rattle.cv_advdb.specs.Touched.{has_name};
ghost use Rattle.cv_advdb.specs.code.Index.{found_under};

use crate::list::RecordList;
use crate::names::{in_name_order, push_names};
use crate::record::StoredRecord;
use cv_base::{NoMemory, PackageName};
use std::alloc::Global;
use std::collections::BTreeMap;

/// The records under each name that they have, in the order in which they stand. The time is n log n in the names.
pub fn index_records(
    alloc: Global,
    records: &[StoredRecord],
) -> Result<BTreeMap<PackageName, RecordList>, NoMemory>
    ensures { IfOk result (λ index. (key : PackageName) → found_under key index.entries ≡ filter (is_named key) records.now) }
{
    let mut index = BTreeMap::new(alloc);
    for record in records {
        add_record(alloc, &mut index, record)?;
    }
    Ok(index)
}

/// Appends a record under each of its names.
fn add_record(
    alloc: Global,
    index: &mut BTreeMap<PackageName, RecordList>,
    stored: &StoredRecord,
) -> Result<(), NoMemory>
    ensures { OnOk result ((key : PackageName) → found_under key index.new.entries ≡ found_under key index.old.entries ++ filter (is_named key) (stored.now ∷ [])) }
{
    let mut names = Vec::new(alloc);
    push_names(&mut names, stored.advisory())?;
    let distinct = in_name_order(alloc, names)?;
    add_under_each(alloc, index, &distinct, stored)?;
    Ok(())
}

/// Appends a record under each of these names.
fn add_under_each(
    alloc: Global,
    index: &mut BTreeMap<PackageName, RecordList>,
    names: &[PackageName],
    stored: &StoredRecord,
) -> Result<(), NoMemory>
    requires { IsStrictlySortedBy name_cmp names.now }
    ensures { OnOk result ((key : PackageName) → found_under key index.new.entries ≡ found_under key index.old.entries ++ (if has_name key names.now then stored.now ∷ [] else [])) }
{
    let mut remaining = names;
    while let Some((name, rest)) = remaining.split_first() {
        add_under(alloc, index, name, stored)?;
        remaining = rest;
    }
    Ok(())
}

/// Appends a record under a name.
fn add_under(
    alloc: Global,
    index: &mut BTreeMap<PackageName, RecordList>,
    name: &PackageName,
    stored: &StoredRecord,
) -> Result<(), NoMemory>
    ensures { OnOk result ((key : PackageName) → found_under key index.new.entries ≡ found_under key index.old.entries ++ (if is_key key (Some name.now) then stored.now ∷ [] else [])) }
{
    if let Some(list) = index.get_mut(name) {
        list.push(stored.clone()?)?;
        return Ok(());
    }
    let mut list = RecordList::new(alloc);
    list.push(stored.clone()?)?;
    index.insert(name.clone()?, list)?;
    Ok(())
}

/// The records under a name in such a map, and none if it has no such name.
pub fn list_under<'a>(
    index: &'a BTreeMap<PackageName, RecordList>,
    key: &PackageName,
) -> &'a [StoredRecord]
    ensures { result.now ≡ found_under key.now index.now.entries }
{
    match index.get(key) {
        Some(list) => list.as_slice(),
        None => &[],
    }
}
