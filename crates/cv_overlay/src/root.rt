ghost use Rattle.std.specs.Prelude.{◌≡◌, ℕ, ◌+◌, ◌<◌, ◌≤◌, Bool, List, [], ◌∷◌, ◌++◌, not, filter, length, map, IfOk, IfErr, None, vec_len, vec_capacity};
ghost use Rattle.std.specs.Cmp.Lexicographic.{slice_cmp};
ghost use Rattle.std.specs.List.Sorted.{IsSortedBy};
ghost use Rattle.std.specs.Option.{option_map};
ghost use Rattle.std.specs.Ordering.{is_lt, nat_cmp};
ghost use Rattle.cv_base.specs.Path.{Path, components};
ghost use Rattle.cv_overlay.specs.code.Cover.{hides_text};
ghost use Rattle.cv_overlay.specs.Fault.{tree_fault};
ghost use Rattle.cv_overlay.specs.Lay.{is_plain, lay, node_at};
ghost use Rattle.cv_overlay.specs.Mark.{mark};
ghost use Rattle.cv_overlay.specs.Ascending.{AreAscending};
ghost use Rattle.cv_overlay.specs.Refusal.{IsRefusal};

use crate::check::fault_of;
use crate::copy::copied;
use crate::cover::Covers;
use crate::fault::OverlayError;
use crate::mark::{Mark, mark_of};
use crate::merge::{merge, put};
use crate::outline::Outlined;
use cv_base::{NoMemory, Node, RelPath, Tree, TreeEntry};
use std::alloc::Global;
use std::collections::VecDeque;
use std::marker::Model;
use std::mem;

/// What the layers of an image make together, as the list of its entries in path order.
#[derive(Debug, Drop)]
pub struct Root {
    list: Vec<TreeEntry>,
}

impl Model for Root {
    ghost use Rattle.std.specs.Prelude.{List};
    ghost use Rattle.cv_base.specs.declared.tree.TreeEntry.{TreeEntry};
    ghost use Rattle.cv_overlay.specs.Ascending.{AreAscending};

    ghost Value = { List TreeEntry };

    ghost view = { λ r. r.list.items };

    ghost invariant = { λ r. AreAscending r.list.items };
}

impl Root {
    /// The root without entries.
    pub fn empty(alloc: Global) -> Root
        ensures { result ≡ [] }
    {
        Root {
            list: Vec::new(alloc),
        }
    }

    /// All entries, in path order.
    pub fn entries(&self) -> &[TreeEntry]
        ensures list { result.now ≡ self.now }
        ensures order { AreAscending self.now }
    {
        self.list.as_slice()
    }

    /// The node at a path.
    pub fn get(&self, path: &RelPath) -> Option<&Node>
        ensures { option_map (λ node. node.now) result ≡ node_at self.now path.now }
    {
        match self.list.binary_search_by(|entry| entry.path.cmp(path)) {
            Ok(index) => Some(&self.list[index].node),
            Err(_) => None,
        }
    }

    /// Lays a tree on this root. A tree that is not good is not laid. Files are copied with their bytes.
    pub fn lay(&mut self, alloc: Global, tree: &Tree) -> Result<(), OverlayError>
        ensures laid { IfOk result (λ _. (p : Path) → node_at self.new p ≡ lay (node_at self.old) tree.now.entries p) }
        ensures good { IfOk result (λ _. tree_fault tree.now.entries ≡ None) }
        ensures refused { IfErr result (IsRefusal (tree_fault tree.now.entries)) }
        ensures same { IfErr result (λ _. self.new ≡ self.old) }
    {
        let entries = tree.entries.as_slice();
        if let Some(fault) = fault_of(entries) {
            return Err(OverlayError::BadTree(fault));
        }
        let covers = Covers::of(alloc, entries)?;
        let upper = plain_entries(alloc, entries)?;
        let kept = room_for(alloc, self.list.len())?;
        let room = room_for_both(alloc, &self.list, &upper)?;
        let lower = mem::replace(&mut self.list, Vec::new(alloc));
        self.list = merge(room, keep(kept, lower, &covers), upper);
        Ok(())
    }
}

/// An empty list with room for this number of entries.
fn room_for(alloc: Global, count: usize) -> Result<Vec<TreeEntry>, NoMemory>
    ensures empty { IfOk result (λ room. room.items ≡ []) }
    ensures len { IfOk result (λ room. vec_len room ≡ 0) }
    ensures room { IfOk result (λ room. count ≤ vec_capacity room) }
{
    Ok(Vec::with_capacity(alloc, count)?)
}

/// An empty list with room for the entries of two lists.
fn room_for_both(
    alloc: Global,
    lower: &[TreeEntry],
    upper: &[TreeEntry],
) -> Result<Vec<TreeEntry>, NoMemory>
    ensures empty { IfOk result (λ room. room.items ≡ []) }
    ensures len { IfOk result (λ room. vec_len room ≡ 0) }
    ensures room { IfOk result (λ room. length lower.now + length upper.now ≤ vec_capacity room) }
{
    match lower.len().checked_add(upper.len()) {
        Some(count) => room_for(alloc, count),
        None => Err(NoMemory),
    }
}

/// Copies of the plain entries of a tree.
fn plain_entries(alloc: Global, entries: &[TreeEntry]) -> Result<Vec<TreeEntry>, NoMemory>
    ensures { IfOk result (λ plain. plain.items ≡ filter (λ e. is_plain (mark e)) entries.now) }
{
    let mut plain = Vec::new(alloc);
    for entry in entries {
        if !is_plain(entry) {
            continue;
        }
        plain.push(copied(entry)?)?;
    }
    Ok(plain)
}

fn is_plain(entry: &TreeEntry) -> bool
    ensures { result ≡ is_plain (mark entry.now) }
{
    matches!(mark_of(&entry.path, entry.is_dir()), Mark::Plain)
}

/// The entries that are not hidden.
fn keep(mut kept: Vec<TreeEntry>, lower: Vec<TreeEntry>, covers: &Covers) -> Vec<TreeEntry>
    requires empty { kept.items ≡ [] }
    requires room { length lower.items ≤ vec_capacity kept }
    requires whole { IsSortedBy (λ x y. is_lt (slice_cmp nat_cmp x.items y.items)) covers.now.whole.items }
    requires below { IsSortedBy (λ x y. is_lt (slice_cmp nat_cmp x.now y.now)) covers.now.below.items }
    ensures fewer { length result.items ≤ length lower.items }
    ensures value { (hidden : Path → Bool) → ((t : List ℕ) → hides_text (map (λ w. w.items) covers.now.whole.items) (map (λ b. b.now) covers.now.below.items) covers.now.all t ≡ hidden (components t)) → result.items ≡ filter (λ e. not (hidden e.path)) lower.items }
{
    let mut rest = VecDeque::from(lower);
    while let Some(entry) = rest.pop_front() {
        keep_entry(&mut kept, entry, covers);
    }
    kept
}

/// Puts an entry to the kept ones if it is not hidden.
fn keep_entry(kept: &mut Vec<TreeEntry>, entry: TreeEntry, covers: &Covers)
    requires room { vec_len kept.old < vec_capacity kept.old }
    requires whole { IsSortedBy (λ x y. is_lt (slice_cmp nat_cmp x.items y.items)) covers.now.whole.items }
    requires below { IsSortedBy (λ x y. is_lt (slice_cmp nat_cmp x.now y.now)) covers.now.below.items }
    ensures value { (hidden : Path → Bool) → ((t : List ℕ) → hides_text (map (λ w. w.items) covers.now.whole.items) (map (λ b. b.now) covers.now.below.items) covers.now.all t ≡ hidden (components t)) → kept.new.items ≡ kept.old.items ++ filter (λ e. not (hidden e.path)) (entry ∷ []) }
    ensures len { vec_len kept.new ≤ vec_len kept.old + 1 }
    ensures fewer { length kept.new.items ≤ length kept.old.items + 1 }
    ensures capacity { vec_capacity kept.old ≤ vec_capacity kept.new }
{
    if covers.hides(entry.path.text().as_bytes()) {
        return;
    }
    put(kept, entry);
}
