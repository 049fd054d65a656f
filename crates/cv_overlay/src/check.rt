ghost use Rattle.std.specs.Prelude.{◌≡◌, ◌<◌, ◌≤◌, length, map, MatchResult, Some, None};
ghost use Rattle.std.specs.Option.{option_map};
ghost use Rattle.cv_overlay.specs.Fault.{fault, list_fault};
ghost use Rattle.cv_overlay.specs.code.Step.{fault_after, fault_from, follows, stands_by_parent};

use crate::cut::{cut, is_within};
use crate::fault::TreeFault;
use crate::mark::{Mark, mark_of};
use crate::outline::Outlined;
use cv_base::{ListEntry, MAX_ENTRIES};

/// Whether a listing is a good tree. Too many entries are refused before all else, and then the first faulty entry: one
/// that is out of order, has no parent or is a bad mark. One pass, which looks at each entry and the one before it.
pub fn check_tree(entries: &[ListEntry]) -> Result<(), TreeFault>
    ensures { MatchResult result (λ _. list_fault entries.now ≡ None) (λ fault. list_fault entries.now ≡ Some fault) }
{
    match fault_of(entries) {
        Some(fault) => Err(fault),
        None => Ok(()),
    }
}

/// The fault of a list of entries, and none where it is a good tree.
pub fn fault_of<E: Outlined>(entries: &[E]) -> Option<TreeFault>
    ensures { result ≡ fault (map E.outline entries.now) }
{
    if entries.len() > MAX_ENTRIES {
        return Some(TreeFault::TooMany);
    }
    first_fault(entries)
}

/// The fault of the first faulty entry.
fn first_fault<E: Outlined>(entries: &[E]) -> Option<TreeFault>
    requires { length entries.now ≤ MAX_ENTRIES }
    ensures { result ≡ fault_from 0 None (map E.outline entries.now) }
{
    let mut before: Option<&E> = None;
    for (index, entry) in entries.iter().enumerate() {
        let fault = fault_after(index as u32, before, entry);
        if fault.is_some() {
            return fault;
        }
        before = Some(entry);
    }
    None
}

/// The fault of the entry at an index, if no entry before it has one. Its parent is then the entry before it, or
/// is above that one.
fn fault_after<E: Outlined>(index: u32, before: Option<&E>, entry: &E) -> Option<TreeFault>
    ensures { result ≡ fault_after index (option_map (λ b. E.outline b.now) before.entry) (E.outline entry.now) }
{
    if !follows(before, entry) {
        return Some(TreeFault::Unsorted(index));
    }
    if !stands_by_parent(before, entry) {
        return Some(TreeFault::NoParent(index));
    }
    match mark_of(entry.path(), entry.is_dir()) {
        Mark::Bad => Some(TreeFault::BadMark(index)),
        _ => None,
    }
}

/// Whether an entry stands after the one before it.
fn follows<E: Outlined>(before: Option<&E>, entry: &E) -> bool
    ensures { result ≡ follows (option_map (λ b. E.outline b.now) before.entry) (E.outline entry.now) }
{
    match before {
        None => true,
        Some(before) => before.path() < entry.path(),
    }
}

/// Whether an entry needs no parent, or the entry before it is its parent or lies within that.
fn stands_by_parent<E: Outlined>(before: Option<&E>, entry: &E) -> bool
    ensures { result ≡ stands_by_parent (option_map (λ b. E.outline b.now) before.entry) (E.outline entry.now) }
{
    let Some((directory, _)) = cut(entry.path().text().as_bytes()) else {
        return true;
    };
    let Some(before) = before else {
        return false;
    };
    let text = before.path().text().as_bytes();
    if text.is_empty() {
        return false;
    }
    is_within(directory, text, before.is_dir())
}
