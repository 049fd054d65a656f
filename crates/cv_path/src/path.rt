ghost use Rattle.std.specs.Prelude.{◌≡◌, ◌≤◌, [], IfOk, List, ℕ, length, take, true};
ghost use Rattle.std.specs.List.{list_all};
ghost use Rattle.std.specs.Option.{option_map};
ghost use Rattle.cv_path.specs.Answer.{Gives};
ghost use Rattle.cv_path.specs.Path.{Path, IsPath, beside, components, file_name_of, is_above, is_name, parent_of, path_cmp, path_of, path_text};
ghost use Rattle.cv_path.specs.Reading.{is_path_memory};
ghost use Rattle.cv_path.specs.Texts.{is_cons};
ghost use Rattle.cv_path.specs.declared.path.PathError.TheVariants as error;

use crate::limits::MAX_PATH_LEN;
use crate::path_text::{
    are_components, count_components, front_order, is_above_text, is_name, is_too_long, joined,
    split_last, text_order,
};
use cv_seq::{NoMemory, Text};
use std::alloc::{AllocError, Global};
use std::cmp::Ordering;
use std::fmt;
use std::marker::Model;
use thiserror::Error;

/// Why a text is not a path.
#[derive(Clone, Copy, Debug, PartialEq, Eq, Error)]
pub enum PathError {
    #[error("a path has at least one component")]
    Empty,
    #[error("a component is empty, `.` or `..`, or has a NUL")]
    BadComponent,
    #[error("a path has at most 4,096 bytes")]
    TooLong,
    #[error("out of memory")]
    NoMemory,
}

/// A path within a layer, relative to its top: the top itself, or what `read` accepts. Contracts see it as the list
/// of its components. Paths are ordered by them, and not as joined texts: `a/b` comes before `a-b`. A copy shares
/// the text.
#[derive(Drop)]
pub struct RelPath {
    inner: Option<Text>,
}

impl Model for RelPath {
    ghost use Rattle.std.specs.Prelude.{ℕ, List, [], unwrap_or};
    ghost use Rattle.cv_path.specs.Path.{IsPath, components};

    ghost Value = { List (List ℕ) };

    ghost view = { λ p. components (unwrap_or p.inner []) };

    ghost invariant = { λ p. IsPath (components (unwrap_or p.inner [])) };
}

impl RelPath {
    /// The path without components.
    pub fn top() -> RelPath
        ensures { result ≡ [] }
    {
        RelPath { inner: None }
    }

    /// Reads components with `/` between two of them. The tests come in this order: the empty text, the
    /// length, the components.
    pub fn read(alloc: Global, text: &str) -> Result<RelPath, PathError>
        ensures { Gives is_path_memory (λ p. p) result (path_of text.now) }
    {
        if text.is_empty() {
            return Err(PathError::Empty);
        }
        if is_too_long(text) {
            return Err(PathError::TooLong);
        }
        if !are_components(text) {
            return Err(PathError::BadComponent);
        }
        Ok(RelPath {
            inner: Some(Text::of(alloc, text)?),
        })
    }

    /// The components with `/` between them, and the empty text for the top.
    #[tactic(auto, using(crate::proofs::PathReads::path_short))]
    pub fn text(&self) -> &str
        ensures value { result.now ≡ path_text self.now }
        ensures parts { components result.now ≡ self.now }
        ensures accepted { IsPath self.now }
        ensures at_most { length result.now ≤ MAX_PATH_LEN }
    {
        self.inner_text()
    }

    /// The directory of the path. That of the top is the top.
    pub fn parent(&self, alloc: Global) -> Result<RelPath, NoMemory>
        ensures { IfOk result (λ parent. parent ≡ parent_of self.now) }
    {
        Ok(RelPath {
            inner: Some(Text::of(alloc, self.parent_text())?),
        })
    }

    /// The text of the directory.
    pub fn parent_text(&self) -> &str
        ensures value { result.now ≡ path_text (parent_of self.now) }
        ensures parts { components result.now ≡ parent_of self.now }
        ensures accepted { IsPath (parent_of self.now) }
    {
        match split_last(self.text()) {
            Some((directory, _)) => directory,
            None => "",
        }
    }

    /// The name of the path in its directory. The top has none.
    pub fn file_name(&self) -> Option<&str>
        ensures { option_map (λ name. name.now) result ≡ file_name_of self.now }
    {
        let text = self.text();
        match split_last(text) {
            Some((_, name)) => Some(name),
            None if text.is_empty() => None,
            None => Some(text),
        }
    }

    /// The name of the path's directory. The top has none, and so has what stands right below it.
    pub fn folder_name(&self) -> Option<&str>
        ensures { option_map (λ name. name.now) result ≡ file_name_of (parent_of self.now) }
    {
        let text = self.parent_text();
        match split_last(text) {
            Some((_, name)) => Some(name),
            None if text.is_empty() => None,
            None => Some(text),
        }
    }

    /// The path with this name in the same directory. The name is tested before the length.
    pub fn with_file_name(&self, alloc: Global, name: &str) -> Result<RelPath, PathError>
        ensures { Gives is_path_memory (λ p. p) result (beside self.now name.now) }
    {
        if !is_name(name.as_bytes()) {
            return Err(PathError::BadComponent);
        }
        let text = joined(alloc, self.parent_text(), name)?;
        if is_too_long(text.as_str()) {
            return Err(PathError::TooLong);
        }
        Ok(RelPath {
            inner: Some(Text::of(alloc, text.as_str())?),
        })
    }

    /// The number of components.
    pub fn depth(&self) -> usize
        ensures { result ≡ length self.now }
    {
        count_components(self.text().as_bytes())
    }

    /// The order of this path and of the first `depth` components of the other one.
    pub fn compare_front(&self, other: &RelPath, depth: usize) -> Ordering
        ensures { result ≡ path_cmp self.now (take depth other.now) }
    {
        let text = self.text().as_bytes();
        if depth == 0 {
            text_order(text, b"")
        } else {
            front_order(text, other.text().as_bytes(), depth - 1)
        }
    }

    /// Whether this path is a proper prefix of the other one.
    pub fn is_above(&self, other: &RelPath) -> bool
        ensures { result ≡ is_above self.now other.now }
    {
        is_above_text(self.text().as_bytes(), other.text().as_bytes())
    }

    /// The text that is kept, and the empty one for the top.
    fn inner_text(&self) -> &str
        ensures parts { components result.now ≡ self.now }
        ensures accepted { IsPath self.now }
    {
        match &self.inner {
            None => "",
            Some(text) => text.as_str(),
        }
    }
}

/// What holds of all paths. A text that reads as a path is the path's own, `spelled`. What is read is a path, `read`,
/// and a path other than the top reads back from its text, `reads_back`. So its text has at most 4,096 bytes, `at_most`,
/// and each component is the name of an entry: not empty, not `.` or `..`, without `/` and without NUL, `names`. All
/// such lists of names are paths, `enough`.
pub fn path_laws()
    ensures spelled { (text : List ℕ) (path : Path) → path_of text ≡ Ok path → path_text path ≡ text }
    ensures read { (text : List ℕ) (path : Path) → path_of text ≡ Ok path → IsPath path }
    ensures reads_back { (path : Path) → IsPath path → is_cons path ≡ true → path_of (path_text path) ≡ Ok path }
    ensures at_most { (path : Path) → IsPath path → length (path_text path) ≤ MAX_PATH_LEN }
    ensures names { (path : Path) → IsPath path → list_all is_name path ≡ true }
    ensures enough { (path : Path) → list_all is_name path ≡ true → length (path_text path) ≤ MAX_PATH_LEN → IsPath path }
{}

impl Clone for RelPath {
    ghost is_clone = { λ x y. y ≡ x };

    fn clone(&self) -> Result<RelPath, AllocError> {
        Ok(RelPath {
            inner: self.inner.clone()?,
        })
    }
}

impl fmt::Debug for RelPath {
    fn fmt<W: fmt::Write>(&self, f: &mut fmt::Formatter<W>) -> fmt::Result {
        let text = self.text();
        write!(f, "{text:?}")
    }
}

impl PartialEq for RelPath {
    ghost use Rattle.std.specs.Cmp.Lexicographic.{pointwise, lists_equiv, nat_list_eq_equiv};
    ghost use Rattle.std.specs.Cmp.{partial_equiv_from_equiv};
    ghost use Rattle.std.specs.Prelude.{◌==◌};

    ghost eq = { pointwise (pointwise ◌==◌) };

    ghost laws = { partial_equiv_from_equiv (lists_equiv nat_list_eq_equiv) };

    fn eq(&self, other: &RelPath) -> bool {
        self.cmp(other).is_eq()
    }
}

impl Eq for RelPath {
    ghost use Rattle.std.specs.Cmp.Lexicographic.{lists_equiv, nat_list_eq_equiv};

    ghost laws = { lists_equiv nat_list_eq_equiv };
}

impl PartialOrd for RelPath {
    ghost use Rattle.std.specs.Cmp.Lexicographic.{slice_cmp, lists_total, lists_ties, nat_list_cmp_total, texts_ties};
    ghost use Rattle.std.specs.Cmp.{partial_order_from_agreeing_total};
    ghost use Rattle.std.specs.Ordering.{nat_cmp};
    ghost use Rattle.std.specs.Prelude.{Some, refl};

    ghost partial_cmp = { λ x y. Some (slice_cmp (slice_cmp nat_cmp) x y) };

    ghost laws = { partial_order_from_agreeing_total (slice_cmp (slice_cmp nat_cmp)) (lists_total nat_list_cmp_total) (λ x y. refl) (lists_ties (slice_cmp nat_cmp) texts_ties) };

    fn partial_cmp(&self, other: &RelPath) -> Option<Ordering> {
        Some(self.cmp(other))
    }
}

impl Ord for RelPath {
    ghost use Rattle.std.specs.Cmp.Lexicographic.{slice_cmp, lists_total, lists_ties, nat_list_cmp_total, texts_ties};
    ghost use Rattle.std.specs.Ordering.{nat_cmp};
    ghost use Rattle.std.specs.Prelude.{refl};

    ghost cmp = { slice_cmp (slice_cmp nat_cmp) };

    ghost total = { lists_total nat_list_cmp_total };

    ghost matches_partial_cmp = { λ x y. refl };

    ghost matches_eq = { lists_ties (slice_cmp nat_cmp) texts_ties };

    fn cmp(&self, other: &RelPath) -> Ordering {
        text_order(self.text().as_bytes(), other.text().as_bytes())
    }
}

impl From<NoMemory> for PathError {
    ghost from_gives = { λ _ e. e ≡ error.NoMemory };

    fn from(_error: NoMemory) -> PathError {
        PathError::NoMemory
    }
}
