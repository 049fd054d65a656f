ghost use Rattle.std.specs.Prelude.{◌≡◌, ◌++◌, max, drop, IfOk};
ghost use Rattle.cv_tree.specs.Entries.{IsAscending, with_entry, without_key};
ghost use Rattle.cv_tree.specs.Shapes.{AreWithin, IsSameOrNext};

use crate::branch::Branch;
use crate::search::first;
use crate::share::Share;
use cv_base::NoMemory;
use std::alloc::Global;
use std::cmp::Ordering;

/// The same branch with a value at a key, if the keys ascend.
pub fn set<K: Ord + Share + Drop, V: Share + Drop>(
    alloc: Global,
    branch: &Branch<K, V>,
    key: K,
    value: V,
) -> Result<Branch<K, V>, NoMemory>
    ensures entries { IsAscending K.cmp branch.now.entries → IfOk result (λ b. b.entries ≡ with_entry K.cmp branch.now.entries key value) }
    ensures height { IfOk result (λ b. IsSameOrNext branch.now.height b.height) }
{
    let Some(fork) = branch.fork() else {
        return Branch::of(alloc, Branch::empty(), key, value, Branch::empty());
    };
    match key.cmp(&fork.key) {
        Ordering::Less => {
            let here = fork.key.share()?;
            let old = fork.value.share()?;
            let right = fork.right.share()?;
            let left = set(alloc, &fork.left, key, value)?;
            Branch::joined(alloc, left, here, old, right)
        }
        Ordering::Equal => {
            let here = fork.key.share()?;
            let left = fork.left.share()?;
            let right = fork.right.share()?;
            Branch::of(alloc, left, here, value, right)
        }
        Ordering::Greater => {
            let here = fork.key.share()?;
            let old = fork.value.share()?;
            let left = fork.left.share()?;
            let right = set(alloc, &fork.right, key, value)?;
            Branch::joined(alloc, left, here, old, right)
        }
    }
}

/// The same branch without a key, if the keys ascend.
pub fn without<K: Ord + Share + Drop, V: Share + Drop>(
    alloc: Global,
    branch: &Branch<K, V>,
    key: &K,
) -> Result<Branch<K, V>, NoMemory>
    ensures entries { IsAscending K.cmp branch.now.entries → IfOk result (λ b. b.entries ≡ without_key K.cmp branch.now.entries key.now) }
    ensures height { IfOk result (λ b. IsSameOrNext b.height branch.now.height) }
{
    let Some(fork) = branch.fork() else {
        return Ok(Branch::empty());
    };
    match key.cmp(&fork.key) {
        Ordering::Less => {
            let here = fork.key.share()?;
            let old = fork.value.share()?;
            let right = fork.right.share()?;
            let left = without(alloc, &fork.left, key)?;
            Branch::joined(alloc, left, here, old, right)
        }
        Ordering::Equal => {
            let left = fork.left.share()?;
            appended(alloc, left, &fork.right)
        }
        Ordering::Greater => {
            let here = fork.key.share()?;
            let old = fork.value.share()?;
            let left = fork.left.share()?;
            let right = without(alloc, &fork.right, key)?;
            Branch::joined(alloc, left, here, old, right)
        }
    }
}

/// The entries of two branches in a row.
fn appended<K: Share + Drop, V: Share + Drop>(
    alloc: Global,
    left: Branch<K, V>,
    right: &Branch<K, V>,
) -> Result<Branch<K, V>, NoMemory>
    requires balanced { AreWithin 1 left.height right.now.height }
    ensures entries { IfOk result (λ b. b.entries ≡ left.entries ++ right.now.entries) }
    ensures height { IfOk result (λ b. IsSameOrNext (max left.height right.now.height) b.height) }
{
    let Some((key, value)) = first(right) else {
        return Ok(left);
    };
    let key = key.share()?;
    let value = value.share()?;
    let rest = without_first(alloc, right)?;
    Branch::joined(alloc, left, key, value, rest)
}

/// The same branch without its leftmost entry, if it has one.
fn without_first<K: Share + Drop, V: Share + Drop>(
    alloc: Global,
    branch: &Branch<K, V>,
) -> Result<Branch<K, V>, NoMemory>
    ensures entries { IfOk result (λ b. b.entries ≡ drop 1 branch.now.entries) }
    ensures height { IfOk result (λ b. IsSameOrNext b.height branch.now.height) }
{
    let Some(fork) = branch.fork() else {
        return Ok(Branch::empty());
    };
    if fork.left.fork().is_none() {
        return fork.right.share();
    }
    let key = fork.key.share()?;
    let value = fork.value.share()?;
    let right = fork.right.share()?;
    let left = without_first(alloc, &fork.left)?;
    Branch::joined(alloc, left, key, value, right)
}
