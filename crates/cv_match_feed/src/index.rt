ghost use Rattle.std.specs.Prelude.{◌≡◌, List, IfOk, OnOk, if◌then◌else◌, []};
ghost use Rattle.std.specs.BTreeMap.{get};
ghost use Rattle.std.specs.Ordering.{is_eq};
ghost use Rattle.cv_base.specs.declared.advisory.Advisory.{Advisory};
ghost use Rattle.cv_base.specs.declared.package.PackageName.{PackageName};
ghost use Rattle.cv_match.specs.Keys.{is_about, name_cmp};
ghost use Rattle.cv_match_feed.specs.code.Index.{Indexes, added, indices_from, indices_in, merged, merged_under, once};

use cv_base::{Advisory, NoMemory, Package, PackageName};
use cv_match::package_keys;
use std::alloc::Global;
use std::cmp::Ordering;
use std::collections::BTreeMap;

/// The indices of the records of a feed by the packages that they name, in ascending order.
pub(crate) type Names = BTreeMap<PackageName, Vec<usize>>;

/// The records of a feed by the packages that they name. It takes n log n steps.
pub(crate) fn index_records(alloc: Global, advisories: &[Advisory]) -> Result<Names, NoMemory>
    ensures { IfOk result (λ names. Indexes names advisories.now) }
{
    let mut names = BTreeMap::new(alloc);
    for (index, advisory) in advisories.iter().enumerate() {
        add_record(&mut names, index, advisory)?;
    }
    Ok(names)
}

/// Adds the record of this index, which is above those before it.
fn add_record(names: &mut Names, index: usize, advisory: &Advisory) -> Result<(), NoMemory>
    ensures { OnOk result ((key : PackageName) → indices_in (get name_cmp names.new key) ≡ added key index advisory.now.affected (indices_in (get name_cmp names.old key))) }
{
    for entry in advisory.affected.as_slice() {
        if let Some(name) = &entry.package {
            add_index(names, name, index)?;
        }
    }
    Ok(())
}

fn add_index(names: &mut Names, name: &PackageName, index: usize) -> Result<(), NoMemory>
    ensures { OnOk result ((key : PackageName) → indices_in (get name_cmp names.new key) ≡ (if is_eq (name_cmp name.now key) then once index (indices_in (get name_cmp names.old key)) else indices_in (get name_cmp names.old key))) }
{
    push_once(names.entry(name.clone()?)?.or_default(), index)?;
    Ok(())
}

/// Appends an index, unless it stands last.
fn push_once(indices: &mut Vec<usize>, index: usize) -> Result<(), NoMemory>
    ensures { OnOk result (indices.new.items ≡ once index indices.old.items) }
{
    if indices.last() != Some(&index) {
        indices.push(index)?;
    }
    Ok(())
}

/// The indices of the records that name a package by one of its keys, in ascending order.
pub(crate) fn indices_for(
    alloc: Global,
    names: &Names,
    package: &Package,
) -> Result<Vec<usize>, NoMemory>
    ensures { (records : List Advisory) → Indexes names.now records → IfOk result (λ indices. indices.items ≡ indices_from (is_about «package».now) 0 records) }
{
    let keys = package_keys(alloc, package)?;
    indices_under(alloc, names, keys.as_slice())
}

/// The indices of the records that name one of these packages, in ascending order.
fn indices_under(alloc: Global, names: &Names, keys: &[PackageName]) -> Result<Vec<usize>, NoMemory>
    ensures { IfOk result (λ indices. indices.items ≡ merged_under names.now [] keys.now) }
{
    let mut indices = Vec::new(alloc);
    for key in keys {
        indices = merge(alloc, &indices, indices_of(names, key))?;
    }
    Ok(indices)
}

/// The indices of the records that name this package.
fn indices_of<'a>(names: &'a Names, key: &PackageName) -> &'a [usize]
    ensures { result.now ≡ indices_in (get name_cmp names.now key.now) }
{
    match names.get(key) {
        Some(indices) => indices.as_slice(),
        None => &[],
    }
}

/// The indices of two ascending lists in ascending order, each once.
fn merge(alloc: Global, one: &[usize], two: &[usize]) -> Result<Vec<usize>, NoMemory>
    ensures { IfOk result (λ indices. indices.items ≡ merged one.now two.now) }
{
    let mut out = Vec::new(alloc);
    let mut first = one;
    let mut second = two;
    while let [x, xs @ ..] = first {
        let [y, ys @ ..] = second else {
            out.extend_from_slice(first)?;
            return Ok(out);
        };
        match x.cmp(y) {
            Ordering::Less => {
                out.push(*x)?;
                first = xs;
            }
            Ordering::Equal => {
                out.push(*x)?;
                first = xs;
                second = ys;
            }
            Ordering::Greater => {
                out.push(*y)?;
                second = ys;
            }
        }
    }
    out.extend_from_slice(second)?;
    Ok(out)
}
