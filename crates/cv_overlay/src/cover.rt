ghost use Rattle.std.specs.Prelude.{◌≡◌, ℕ, List, ◌∷◌, ◌++◌, ◌||◌, [], drop, true, map, IfOk};
ghost use Rattle.std.specs.Cmp.Lexicographic.{slice_cmp};
ghost use Rattle.std.specs.List.Sorted.{IsSortedBy};
ghost use Rattle.std.specs.Ordering.{is_lt, nat_cmp};
ghost use Rattle.cv_base.specs.Path.{components, is_above, parent_of};
ghost use Rattle.cv_base.specs.Texts.{has_text};
ghost use Rattle.cv_overlay.specs.code.Cover.{any_front, hides_text};
ghost use Rattle.cv_overlay.specs.Lay.{hides, hides_by};
ghost use Rattle.cv_overlay.specs.Mark.{at_or_above, is_whiteout_name, mark, name_of, target_of};

use crate::cut::cut;
use crate::mark::{Mark, mark_of};
use crate::outline::Outlined;
use cv_base::{NoMemory, TreeEntry};
use std::alloc::Global;

/// What a tree hides of the layers below it, by the texts of paths. The lists are in the order of bytes once the
/// whole tree was read.
#[derive(Drop)]
pub(crate) struct Covers<'a> {
    /// The targets of whiteouts, which are hidden with all below them.
    whole: Vec<Vec<u8>>,
    /// The directories of opaque marks and the plain entries that are no directories: all below them is hidden.
    below: Vec<&'a [u8]>,
    /// Whether all below the top is hidden.
    all: bool,
}

impl<'a> Covers<'a> {
    /// What a tree hides.
    pub(crate) fn of(alloc: Global, entries: &'a [TreeEntry]) -> Result<Covers<'a>, NoMemory>
        ensures value { IfOk result (λ c. (t : List ℕ) → hides_text (map (λ w. w.items) c.whole.items) (map (λ b. b.now) c.below.items) c.all t ≡ hides entries.now (components t)) }
        ensures whole { IfOk result (λ c. IsSortedBy (λ x y. is_lt (slice_cmp nat_cmp x.items y.items)) c.whole.items) }
        ensures below { IfOk result (λ c. IsSortedBy (λ x y. is_lt (slice_cmp nat_cmp x.now y.now)) c.below.items) }
    {
        let mut covers = Covers {
            whole: Vec::new(alloc),
            below: Vec::new(alloc),
            all: false,
        };
        for entry in entries {
            covers.add(alloc, entry)?;
        }
        covers.whole.sort()?;
        covers.below.sort()?;
        Ok(covers)
    }

    /// Whether a path is hidden, given by its text: that text and each front of it that ends before a slash is looked up.
    pub(crate) fn hides(&self, text: &[u8]) -> bool
        requires whole { IsSortedBy (λ x y. is_lt (slice_cmp nat_cmp x.items y.items)) self.now.whole.items }
        requires below { IsSortedBy (λ x y. is_lt (slice_cmp nat_cmp x.now y.now)) self.now.below.items }
        ensures { result ≡ hides_text (map (λ w. w.items) self.now.whole.items) (map (λ b. b.now) self.now.below.items) self.now.all text.now }
    {
        if self.has_front(text) {
            return true;
        }
        if has_whole(&self.whole, text) {
            return true;
        }
        if text.is_empty() {
            return false;
        }
        self.all
    }

    /// Whether a front of a text that ends before a slash is in one of the lists.
    fn has_front(&self, text: &[u8]) -> bool
        requires whole { IsSortedBy (λ x y. is_lt (slice_cmp nat_cmp x.items y.items)) self.now.whole.items }
        requires below { IsSortedBy (λ x y. is_lt (slice_cmp nat_cmp x.now y.now)) self.now.below.items }
        ensures { result ≡ any_front (λ f. has_text (map (λ w. w.items) self.now.whole.items) f || has_text (map (λ b. b.now) self.now.below.items) f) [] text.now }
    {
        for (end, byte) in text.iter().enumerate() {
            if *byte == b'/' && self.has(&text[..end]) {
                return true;
            }
        }
        false
    }

    /// Whether a text is in one of the lists.
    fn has(&self, text: &[u8]) -> bool
        requires whole { IsSortedBy (λ x y. is_lt (slice_cmp nat_cmp x.items y.items)) self.now.whole.items }
        requires below { IsSortedBy (λ x y. is_lt (slice_cmp nat_cmp x.now y.now)) self.now.below.items }
        ensures { result ≡ (has_text (map (λ w. w.items) self.now.whole.items) text.now || has_text (map (λ b. b.now) self.now.below.items) text.now) }
    {
        has_whole(&self.whole, text) || has_below(&self.below, text)
    }

    /// Adds what an entry hides.
    fn add(&mut self, alloc: Global, entry: &'a TreeEntry) -> Result<(), NoMemory>
        ensures { IfOk result (λ _. (t : List ℕ) → hides_text (map (λ w. w.items) self.new.whole.items) (map (λ b. b.now) self.new.below.items) self.new.all t ≡ (hides_text (map (λ w. w.items) self.old.whole.items) (map (λ b. b.now) self.old.below.items) self.old.all t || hides_by (mark entry.now) entry.now (components t))) }
    {
        let text = entry.path.text().as_bytes();
        match mark_of(&entry.path, entry.is_dir()) {
            Mark::Whiteout => self.add_target(alloc, text),
            Mark::Opaque => self.add_directory(text),
            Mark::Plain => {
                if entry.is_dir() {
                    Ok(())
                } else {
                    self.add_below(text)
                }
            }
            Mark::Reserved | Mark::Bad => Ok(()),
        }
    }

    /// Adds the target of a whiteout.
    fn add_target(&mut self, alloc: Global, text: &[u8]) -> Result<(), NoMemory>
        requires { is_whiteout_name (name_of (components text.now)) ≡ true }
        ensures { IfOk result (λ _. (t : List ℕ) → hides_text (map (λ w. w.items) self.new.whole.items) (map (λ b. b.now) self.new.below.items) self.new.all t ≡ (hides_text (map (λ w. w.items) self.old.whole.items) (map (λ b. b.now) self.old.below.items) self.old.all t || at_or_above (target_of (components text.now)) (components t))) }
    {
        self.whole.push(target_text(alloc, text)?)?;
        Ok(())
    }

    /// Adds the directory of an opaque mark.
    fn add_directory(&mut self, text: &'a [u8]) -> Result<(), NoMemory>
        ensures { IfOk result (λ _. (t : List ℕ) → hides_text (map (λ w. w.items) self.new.whole.items) (map (λ b. b.now) self.new.below.items) self.new.all t ≡ (hides_text (map (λ w. w.items) self.old.whole.items) (map (λ b. b.now) self.old.below.items) self.old.all t || is_above (parent_of (components text.now)) (components t))) }
    {
        match cut(text) {
            Some((directory, _)) => self.below.push(directory)?,
            None => self.all = true,
        }
        Ok(())
    }

    /// Adds a path below which all is hidden.
    fn add_below(&mut self, text: &'a [u8]) -> Result<(), NoMemory>
        ensures { IfOk result (λ _. (t : List ℕ) → hides_text (map (λ w. w.items) self.new.whole.items) (map (λ b. b.now) self.new.below.items) self.new.all t ≡ (hides_text (map (λ w. w.items) self.old.whole.items) (map (λ b. b.now) self.old.below.items) self.old.all t || is_above (components text.now) (components t))) }
    {
        if text.is_empty() {
            self.all = true;
        } else {
            self.below.push(text)?;
        }
        Ok(())
    }
}

/// Whether a sorted list has a text.
fn has_whole(list: &[Vec<u8>], text: &[u8]) -> bool
    requires { IsSortedBy (λ x y. is_lt (slice_cmp nat_cmp x.items y.items)) list.now }
    ensures { result ≡ has_text (map (λ w. w.items) list.now) text.now }
{
    list.binary_search_by(|cover| cover.as_slice().cmp(text))
        .is_ok()
}

/// Whether a sorted list has a text.
fn has_below(list: &[&[u8]], text: &[u8]) -> bool
    requires { IsSortedBy (λ x y. is_lt (slice_cmp nat_cmp x.now y.now)) list.now }
    ensures { result ≡ has_text (map (λ b. b.now) list.now) text.now }
{
    list.binary_search(&text).is_ok()
}

/// The text of a whiteout's target.
fn target_text(alloc: Global, text: &[u8]) -> Result<Vec<u8>, NoMemory>
    ensures { IfOk result (λ target. is_whiteout_name (name_of (components text.now)) ≡ true → components target.items ≡ target_of (components text.now)) }
{
    match cut(text) {
        Some((directory, name)) => joined(alloc, directory, after_mark(name)),
        None => Ok(Vec::from_slice(alloc, after_mark(text))?),
    }
}

/// A directory and a name with a slash between them.
fn joined(alloc: Global, directory: &[u8], name: &[u8]) -> Result<Vec<u8>, NoMemory>
    ensures { IfOk result (λ text. text.items ≡ directory.now ++ 47 ∷ name.now) }
{
    let mut text = Vec::from_slice(alloc, directory)?;
    text.push(b'/')?;
    text.extend_from_slice(name)?;
    Ok(text)
}

/// What stands after `.wh.` in the name of a whiteout.
fn after_mark(name: &[u8]) -> &[u8]
    ensures { result.now ≡ drop 4 name.now }
{
    let (_, target) = name.split_at(name.len().min(4));
    target
}
