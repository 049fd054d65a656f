ghost use Rattle.std.specs.Prelude.{◌≡◌, ◌+◌, ◌≤◌, [], ◌++◌, length, map, is_none, is_some, if◌then◌else◌, IfOk, OnOk};
ghost use Rattle.std.specs.Map.{keys_of};
ghost use Rattle.std.specs.Option.{option_map};
ghost use Rattle.std.specs.List.Sorted.{IsStrictlySortedBy};
ghost use Rattle.cv_tree.specs.Entries.{IsAscending, added_at, at, cost_at, costs_of, first_entry, made_at, remade_entries, rows_of, with_entry, without_key};
ghost use Rattle.cv_tree.specs.Heights.{IsHeightOf};

use crate::branch::Branch;
use crate::rebuild::{remade, remade_at};
use crate::remake::Remake;
use crate::share::Share;
use crate::{change, search};
use cv_base::NoMemory;
use std::alloc::Global;
use std::marker::Model;

/// An ordered map. Contracts see it as the list of its entries, in ascending order of the keys, each key once. It is a
/// balanced search tree: a look-up and a change visit as many nodes as the logarithm of the number of entries. A change
/// makes a new map, which shares all other nodes with the old one.
#[derive(Drop)]
pub struct Tree<K: Ord, V> {
    root: Branch<K, V>,
    count: u64,
}

impl<K: Ord, V> Model for Tree<K, V> {
    ghost use Rattle.std.specs.Prelude.{List};

    ghost Value = { List (K × V) };

    ghost use Rattle.cv_tree.specs.code.Trees.{IsTree};

    ghost view = { λ t. t.root.entries };

    ghost invariant = { λ t. IsTree K.cmp t.root.entries t.count };
}

impl<K: Ord, V> Tree<K, V> {
    /// The map without entries. It takes no memory.
    pub fn new() -> Tree<K, V>
        ensures { result ≡ [] }
    {
        Tree {
            root: Branch::empty(),
            count: 0,
        }
    }

    /// How many entries there are.
    pub fn len(&self) -> u64
        ensures { result ≡ length self.now }
    {
        self.count
    }

    /// Whether there are none.
    pub fn is_empty(&self) -> bool
        ensures { result ≡ is_none (first_entry self.now) }
    {
        self.first().is_none()
    }

    /// How many nodes the longest way down has: at most twice the logarithm of the number of entries and one more.
    pub fn height(&self) -> u64
        ensures { IsHeightOf result (length self.now) }
    {
        self.root.height()
    }

    /// The value at a key.
    pub fn get(&self, key: &K) -> Option<&V>
        ensures { option_map (λ v. v.now) result ≡ at K.cmp self.now key.now }
    {
        search::get(&self.root, key)
    }

    /// Whether there is a value at a key.
    pub fn contains(&self, key: &K) -> bool
        ensures { result ≡ is_some (at K.cmp self.now key.now) }
    {
        self.get(key).is_some()
    }

    /// The entry with the lowest key.
    pub fn first(&self) -> Option<(&K, &V)>
        ensures { option_map (λ e. (e.0.now, e.1.now)) result ≡ first_entry self.now }
    {
        search::first(&self.root)
    }

    /// How many entries there are after one is set at a key.
    fn count_with(&self, key: &K) -> Result<u64, NoMemory>
        ensures { IfOk result (λ count. count ≡ (if is_some (at K.cmp self.now key.now) then length self.now else length self.now + 1)) }
    {
        if self.contains(key) {
            return Ok(self.count);
        }
        self.count.checked_add(1).ok_or(NoMemory)
    }

    /// The keys ascend. It does nothing.
    pub fn ascends(&self)
        ensures { IsAscending K.cmp self.now }
    {
        let _root = &self.root;
    }
}

/// One more owner of the nodes. It takes no memory, and fails only if a count of owners is saturated.
impl<K: Ord, V> Share for Tree<K, V> {
    fn share(&self) -> Result<Tree<K, V>, NoMemory> {
        Ok(Tree {
            root: self.root.share()?,
            count: self.count,
        })
    }
}

impl<K: Ord + Share + Drop, V> Tree<K, V> {
    /// The keys, in ascending order.
    pub fn keys(&self, alloc: Global) -> Result<Vec<K>, NoMemory>
        ensures { IfOk result (λ keys. keys.items ≡ keys_of self.now) }
    {
        let mut keys = Vec::new(alloc);
        search::push_keys(&self.root, &mut keys)?;
        Ok(keys)
    }

    /// The entries, in ascending order of the keys.
    pub fn entries(&self, alloc: Global) -> Result<Vec<(K, &V)>, NoMemory>
        ensures { IfOk result (λ entries. map (λ e. (e.0, e.1.now)) entries.items ≡ self.now) }
    {
        let mut entries = Vec::new(alloc);
        search::push_entries(&self.root, &mut entries)?;
        Ok(entries)
    }
}

impl<K: Ord + Share + Drop, V: Share + Drop> Tree<K, V> {
    /// The map with a value at a key. It replaces the value that stands there, whose key stays.
    pub fn set(&self, alloc: Global, key: K, value: V) -> Result<Tree<K, V>, NoMemory>
        ensures { IfOk result (λ t. t ≡ with_entry K.cmp self.now key value) }
    {
        let count = self.count_with(&key)?;
        let root = change::set(alloc, &self.root, key, value)?;
        Ok(Tree { root, count })
    }

    /// The map without a key. If the key is not there, it is the same map.
    pub fn without(&self, alloc: Global, key: &K) -> Result<Tree<K, V>, NoMemory>
        ensures { IfOk result (λ t. t ≡ without_key K.cmp self.now key.now) }
    {
        if !self.contains(key) {
            return self.share();
        }
        let root = change::without(alloc, &self.root, key)?;
        let count = self.len().saturating_sub(1);
        Ok(Tree { root, count })
    }

    /// The map with the value that a maker gives for each, in ascending order of the keys. What the maker leaves as it
    /// is is shared. `rows` and `tally` are handed to the maker.
    pub fn remake<M: Remake<K, V>>(
        &self,
        alloc: Global,
        maker: &M,
        rows: &mut Vec<M::Row>,
        tally: &mut M::Tally,
    ) -> Result<Tree<K, V>, NoMemory>
        ensures value { IfOk result (λ t. t ≡ remade_entries (M.made maker.now) self.now) }
        ensures rows { OnOk result (rows.new.items ≡ rows.old.items ++ rows_of (M.added maker.now) self.now) }
        ensures counted { M.costs tally.new ≤ M.costs tally.old + costs_of (M.cost maker.now) self.now }
    {
        match remade(alloc, &self.root, maker, rows, tally)? {
            None => self.share(),
            Some(root) => Ok(Tree {
                root,
                count: self.count,
            }),
        }
    }

    /// The same at some keys alone, which come in ascending order. Keys without a value are ignored. It visits the
    /// nodes on the ways down to these keys, and shares all other ones.
    pub fn remake_at<M: Remake<K, V>>(
        &self,
        alloc: Global,
        keys: &[K],
        maker: &M,
        rows: &mut Vec<M::Row>,
        tally: &mut M::Tally,
    ) -> Result<Tree<K, V>, NoMemory>
        requires ascending { IsStrictlySortedBy K.cmp keys.now }
        ensures value { IfOk result (λ t. t ≡ remade_entries (made_at K.cmp keys.now (M.made maker.now)) self.now) }
        ensures rows { OnOk result (rows.new.items ≡ rows.old.items ++ rows_of (added_at K.cmp keys.now (M.added maker.now)) self.now) }
        ensures counted { M.costs tally.new ≤ M.costs tally.old + costs_of (cost_at K.cmp keys.now (M.cost maker.now)) self.now }
    {
        match remade_at(alloc, &self.root, keys, maker, rows, tally)? {
            None => self.share(),
            Some(root) => Ok(Tree {
                root,
                count: self.count,
            }),
        }
    }
}
