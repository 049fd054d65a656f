ghost use Rattle.std.specs.Prelude.{◌≡◌, ◌++◌, map, IfNone, OnOk};
ghost use Rattle.std.specs.Map.{keys_of};
ghost use Rattle.std.specs.Option.{option_map};
ghost use Rattle.cv_tree.specs.Entries.{IsAscending, at, first_entry};

use crate::branch::Branch;
use crate::share::Share;
use cv_base::NoMemory;
use std::cmp::Ordering;

/// The leftmost entry.
pub fn first<K, V>(branch: &Branch<K, V>) -> Option<(&K, &V)>
    ensures entry { option_map (λ e. (e.0.now, e.1.now)) result ≡ first_entry branch.now.entries }
    ensures none { IfNone result (branch.now.height ≡ 0) }
{
    let fork = branch.fork()?;
    match first(&fork.left) {
        None => Some((&fork.key, &fork.value)),
        Some(found) => Some(found),
    }
}

/// The value at a key, if the keys ascend.
pub fn get<'a, K: Ord, V>(branch: &'a Branch<K, V>, key: &K) -> Option<&'a V>
    ensures { IsAscending K.cmp branch.now.entries → option_map (λ v. v.now) result ≡ at K.cmp branch.now.entries key.now }
{
    let fork = branch.fork()?;
    match key.cmp(&fork.key) {
        Ordering::Less => get(&fork.left, key),
        Ordering::Equal => Some(&fork.value),
        Ordering::Greater => get(&fork.right, key),
    }
}

/// Appends the keys, from left to right.
pub fn push_keys<K: Share + Drop, V>(
    branch: &Branch<K, V>,
    keys: &mut Vec<K>,
) -> Result<(), NoMemory>
    ensures { OnOk result (keys.new.items ≡ keys.old.items ++ keys_of branch.now.entries) }
{
    let Some(fork) = branch.fork() else {
        return Ok(());
    };
    push_keys(&fork.left, keys)?;
    keys.push(fork.key.share()?)?;
    push_keys(&fork.right, keys)
}

/// Appends the keys, each with its value, from left to right.
pub fn push_entries<'a, K: Share + Drop, V>(
    branch: &'a Branch<K, V>,
    entries: &mut Vec<(K, &'a V)>,
) -> Result<(), NoMemory>
    ensures { OnOk result (map (λ e. (e.0, e.1.now)) entries.new.items ≡ map (λ e. (e.0, e.1.now)) entries.old.items ++ branch.now.entries) }
{
    let Some(fork) = branch.fork() else {
        return Ok(());
    };
    push_entries(&fork.left, entries)?;
    entries.push((fork.key.share()?, &fork.value))?;
    push_entries(&fork.right, entries)
}
