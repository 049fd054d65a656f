//! Walks over the texts of paths.
ghost use Rattle.std.specs.Prelude.{◌≡◌, ◌++◌, ◌∷◌, ◌+◌, ◌==◌, ◌&&◌, false, length, nat_lt, string_bytes, IfNone, IfOk, IfSome};
ghost use Rattle.std.specs.List.{count_by, list_all, list_any, slice_split};
ghost use Rattle.cv_path.specs.Texts.{is_nil};
ghost use Rattle.cv_path.specs.Path.{components, is_component, is_name, is_slash, is_special};
ghost use Rattle.cv_path.specs.code.PathText.{front_text, goes_on, is_above_text, is_end, joined, rank, slashes_after, text_cmp};

use crate::limits::MAX_PATH_LEN;
use cv_order::{ByteKey, compare_by};
use cv_seq::NoMemory;
use std::alloc::Global;
use std::cmp::Ordering;

/// Whether the path of one text is above that of another.
pub(crate) fn is_above_text(upper: &[u8], lower: &[u8]) -> bool
    ensures { result ≡ is_above_text upper.now lower.now }
{
    if upper.is_empty() {
        !lower.is_empty()
    } else {
        goes_on(upper, lower)
    }
}

/// Whether a text consists of components with slashes between them.
pub(crate) fn are_components(text: &str) -> bool
    ensures { result ≡ list_all is_component (slice_split is_slash text.now) }
{
    text.split('/')
        .all(|component| is_component(component.as_bytes()))
}

/// Whether a text may stand between two slashes.
fn is_component(text: &[u8]) -> bool
    ensures { result ≡ is_component text.now }
{
    !is_special(text) && !has_nul(text)
}

/// Whether a text has a NUL.
fn has_nul(text: &[u8]) -> bool
    ensures { result ≡ list_any (λ b. b == 0) text.now }
{
    text.iter().any(|byte| *byte == 0)
}

/// Whether a text is empty, `.` or `..`: none of them is a component of a path.
pub fn is_special(text: &[u8]) -> bool
    ensures { result ≡ is_special text.now }
{
    text == b"".as_slice() || text == b".".as_slice() || text == b"..".as_slice()
}

/// Whether the second text begins with the first one and a slash after it.
pub fn goes_on(upper: &[u8], lower: &[u8]) -> bool
    ensures { result ≡ goes_on upper.now lower.now }
{
    let mut left = upper;
    let mut right = lower;
    while let [x, xs @ ..] = left {
        let [y, ys @ ..] = right else {
            return false;
        };
        if x != y {
            return false;
        }
        left = xs;
        right = ys;
    }
    matches!(right, [b'/', ..])
}

/// The rank of a byte among the bytes of a path: a slash comes before all else.
fn rank(byte: u8) -> u8
    ensures { result ≡ rank byte }
{
    if byte == b'/' { 0 } else { byte }
}

/// Bytes are compared by their ranks.
struct ByRank;

impl ByteKey for ByRank {
    ghost use Rattle.cv_path.specs.code.PathText.{rank};

    ghost key = { rank };

    fn key_of(byte: u8) -> u8 {
        rank(byte)
    }
}

/// The order of two texts by the ranks of their bytes.
pub(crate) fn text_order(one: &[u8], other: &[u8]) -> Ordering
    ensures { result ≡ text_cmp one.now other.now }
{
    compare_by::<ByRank>(one, other)
}

/// The order of a text and the front of another one that ends before the slash with this index, or of all of
/// the other one where it has no more slashes.
pub(crate) fn front_order(one: &[u8], other: &[u8], slashes: usize) -> Ordering
    ensures { result ≡ text_cmp one.now (front_text slashes other.now) }
{
    let mut left = one;
    let mut right = other;
    let mut kept = slashes;
    while let [x, xs @ ..] = left {
        let [y, ys @ ..] = right else {
            return Ordering::Greater;
        };
        if is_end(*y, kept) {
            return Ordering::Greater;
        }
        match rank(*x).cmp(&rank(*y)) {
            Ordering::Equal => {}
            order => return order,
        }
        left = xs;
        right = ys;
        kept = slashes_after(*y, kept);
    }
    if has_ended(right, kept) {
        Ordering::Equal
    } else {
        Ordering::Less
    }
}

/// Whether nothing of a text stands before the slash with this index.
fn has_ended(text: &[u8], slashes: usize) -> bool
    ensures { result ≡ is_nil (front_text slashes text.now) }
{
    match text {
        [] => true,
        [first, ..] => is_end(*first, slashes),
    }
}

/// Whether a byte is the slash at which a front ends that has this many slashes more.
fn is_end(byte: u8, slashes: usize) -> bool
    ensures { result ≡ is_end byte slashes }
{
    byte == b'/' && slashes == 0
}

/// How many slashes more a front has after a byte of it.
fn slashes_after(byte: u8, slashes: usize) -> usize
    ensures { result ≡ slashes_after byte slashes }
{
    if byte == b'/' {
        slashes.saturating_sub(1)
    } else {
        slashes
    }
}

/// What stands before the last slash, and what after it.
pub(crate) fn split_last(text: &str) -> Option<(&str, &str)>
    ensures parts { IfSome result (λ p. text.now ≡ p.0.now ++ 47 ∷ p.1.now) }
    ensures last { IfSome result (λ p. list_any is_slash p.1.now ≡ false) }
    ensures none { IfNone result (list_any is_slash text.now ≡ false) }
{
    text.rsplit_once('/')
}

/// The number of components.
pub(crate) fn count_components(text: &[u8]) -> usize
    ensures { result ≡ length (components text.now) }
{
    if text.is_empty() {
        0
    } else {
        count_slashes(text) + 1
    }
}

fn count_slashes(text: &[u8]) -> usize
    ensures { result ≡ count_by is_slash text.now }
{
    text.iter().filter(|byte| **byte == b'/').count()
}

/// Whether a text may be the name of an entry in a directory.
pub(crate) fn is_name(text: &[u8]) -> bool
    ensures { result ≡ is_name text.now }
{
    is_component(text) && !has_slash(text)
}

pub(crate) fn has_slash(text: &[u8]) -> bool
    ensures { result ≡ list_any is_slash text.now }
{
    text.iter().any(|byte| *byte == b'/')
}

/// A directory's text and a name with a slash between them, or the name alone at the top.
pub(crate) fn joined(alloc: Global, directory: &str, name: &str) -> Result<String, NoMemory>
    ensures { IfOk result (λ text. string_bytes text ≡ joined directory.now name.now) }
{
    let mut text = String::from_str(alloc, directory)?;
    if !directory.is_empty() {
        text.push('/')?;
    }
    text.push_str(name)?;
    Ok(text)
}

/// Whether a text has more bytes than a path may have.
pub(crate) fn is_too_long(text: &str) -> bool
    ensures { result ≡ nat_lt MAX_PATH_LEN (length text.now) }
{
    text.len() > MAX_PATH_LEN
}
