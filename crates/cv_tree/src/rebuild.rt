ghost use Rattle.std.specs.Prelude.{◌≡◌, ◌+◌, ◌≤◌, [], ◌∷◌, ◌++◌, max, unwrap_or, if◌then◌else◌, IfOk, OnOk};
ghost use Rattle.std.specs.List.Sorted.{IsStrictlySortedBy};
ghost use Rattle.cv_tree.specs.Entries.{added_at, cost_at, costs_of, made_at, remade_entries, rows_of};
ghost use Rattle.cv_tree.specs.code.Keys.{AreAscending, IsAround};
ghost use Rattle.cv_tree.specs.Nodes.{shape_of};
ghost use Rattle.cv_tree.specs.Shapes.{AreWithin};

use crate::branch::{Branch, Fork};
use crate::remake::Remake;
use crate::share::Share;
use cv_base::NoMemory;
use std::alloc::Global;

/// The same branch with the values that a maker gives, or None if each stays as it is. A branch of which nothing changes
/// is shared.
pub fn remade<K: Share + Drop, V: Share + Drop, M: Remake<K, V>>(
    alloc: Global,
    branch: &Branch<K, V>,
    maker: &M,
    rows: &mut Vec<M::Row>,
    tally: &mut M::Tally,
) -> Result<Option<Branch<K, V>>, NoMemory>
    ensures value { IfOk result (λ new. (unwrap_or new branch.now).entries ≡ remade_entries (M.made maker.now) branch.now.entries) }
    ensures height { IfOk result (λ new. (unwrap_or new branch.now).height ≡ branch.now.height) }
    ensures rows { OnOk result (rows.new.items ≡ rows.old.items ++ rows_of (M.added maker.now) branch.now.entries) }
    ensures counted { M.costs tally.new ≤ M.costs tally.old + costs_of (M.cost maker.now) branch.now.entries }
{
    let Some(fork) = branch.fork() else {
        return Ok(None);
    };
    let left = remade(alloc, &fork.left, maker, rows, tally)?;
    let value = maker.remake(alloc, &fork.key, &fork.value, rows, tally)?;
    let right = remade(alloc, &fork.right, maker, rows, tally)?;
    rebuilt(alloc, fork, left, value, right)
}

/// A node with new parts, where there are some, or None if there are none.
fn rebuilt<K: Share + Drop, V: Share + Drop>(
    alloc: Global,
    fork: &Fork<K, V>,
    left: Option<Branch<K, V>>,
    value: Option<V>,
    right: Option<Branch<K, V>>,
) -> Result<Option<Branch<K, V>>, NoMemory>
    requires balanced { AreWithin 1 (unwrap_or left fork.now.left).height (unwrap_or right fork.now.right).height }
    ensures entries { IfOk result (λ new. (unwrap_or new (shape_of fork.now)).entries ≡ (unwrap_or left fork.now.left).entries ++ (fork.now.key, unwrap_or value fork.now.value) ∷ (unwrap_or right fork.now.right).entries) }
    ensures height { IfOk result (λ new. (unwrap_or new (shape_of fork.now)).height ≡ max (unwrap_or left fork.now.left).height (unwrap_or right fork.now.right).height + 1) }
{
    if left.is_none() && value.is_none() && right.is_none() {
        return Ok(None);
    }
    let key = fork.key.share()?;
    let left = new_or_shared(left, &fork.left)?;
    let value = new_or_shared(value, &fork.value)?;
    let right = new_or_shared(right, &fork.right)?;
    Ok(Some(Branch::of(alloc, left, key, value, right)?))
}

fn new_or_shared<T: Share>(new: Option<T>, old: &T) -> Result<T, NoMemory>
    ensures { IfOk result (λ part. part ≡ unwrap_or new old.now) }
{
    match new {
        Some(new) => Ok(new),
        None => old.share(),
    }
}

/// The same at some keys alone, if both these and the keys of the branch ascend.
pub fn remade_at<K: Ord + Share + Drop, V: Share + Drop, M: Remake<K, V>>(
    alloc: Global,
    branch: &Branch<K, V>,
    keys: &[K],
    maker: &M,
    rows: &mut Vec<M::Row>,
    tally: &mut M::Tally,
) -> Result<Option<Branch<K, V>>, NoMemory>
    ensures value { AreAscending K.cmp keys.now branch.now.entries → IfOk result (λ new. (unwrap_or new branch.now).entries ≡ remade_entries (made_at K.cmp keys.now (M.made maker.now)) branch.now.entries) }
    ensures height { IfOk result (λ new. (unwrap_or new branch.now).height ≡ branch.now.height) }
    ensures rows { AreAscending K.cmp keys.now branch.now.entries → OnOk result (rows.new.items ≡ rows.old.items ++ rows_of (added_at K.cmp keys.now (M.added maker.now)) branch.now.entries) }
    ensures counted { AreAscending K.cmp keys.now branch.now.entries → M.costs tally.new ≤ M.costs tally.old + costs_of (cost_at K.cmp keys.now (M.cost maker.now)) branch.now.entries }
{
    if keys.is_empty() {
        return Ok(None);
    }
    let Some(fork) = branch.fork() else {
        return Ok(None);
    };
    let (before, here, after) = around(keys, &fork.key);
    let left = remade_at(alloc, &fork.left, before, maker, rows, tally)?;
    let value = remade_value(alloc, fork, here, maker, rows, tally)?;
    let right = remade_at(alloc, &fork.right, after, maker, rows, tally)?;
    rebuilt(alloc, fork, left, value, right)
}

/// The value that a maker gives at a chosen node, or None if the value stays as it is.
fn remade_value<K, V, M: Remake<K, V>>(
    alloc: Global,
    fork: &Fork<K, V>,
    chosen: bool,
    maker: &M,
    rows: &mut Vec<M::Row>,
    tally: &mut M::Tally,
) -> Result<Option<V>, NoMemory>
    ensures value { IfOk result (λ new. unwrap_or new fork.now.value ≡ (if chosen then M.made maker.now fork.now.key fork.now.value else fork.now.value)) }
    ensures rows { OnOk result (rows.new.items ≡ rows.old.items ++ (if chosen then M.added maker.now fork.now.key fork.now.value else [])) }
    ensures counted { M.costs tally.new ≤ M.costs tally.old + (if chosen then M.cost maker.now fork.now.key fork.now.value else 0) }
{
    if !chosen {
        return Ok(None);
    }
    maker.remake(alloc, &fork.key, &fork.value, rows, tally)
}

/// The keys below one, whether it is among them, and the keys above it, if the keys ascend.
fn around<'a, K: Ord>(keys: &'a [K], key: &K) -> (&'a [K], bool, &'a [K])
    ensures { IsStrictlySortedBy K.cmp keys.now → IsAround K.cmp keys.now key.now result.0.now result.1 result.2.now }
{
    match keys.binary_search(key) {
        Ok(at) => (&keys[..at], true, &keys[at + 1..]),
        Err(at) => (&keys[..at], false, &keys[at..]),
    }
}
