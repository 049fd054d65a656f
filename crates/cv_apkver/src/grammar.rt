ghost use Rattle.std.specs.Prelude.{◌≡◌, ◌↔◌, IsTrue};
ghost use Rattle.std.specs.List.{list_all};
ghost use Rattle.std.specs.Option.{option_copied};
ghost use Rattle.cv_order.specs.Digits.{is_digit};
ghost use Rattle.cv_apkver.specs.Grammar.{DOT, IsVersion, UNDERSCORE, is_number, rank_of};
ghost use Rattle.cv_apkver.specs.Parts.{is_build, is_last_number, is_letter_or_nothing, is_release, is_suffix, is_version, pieces, pieces_after};

use crate::parts::{Parts, cut, split_word};
use cv_order::{are_digits, skip_digits};

/// Whether a text is a version: `number{.number}[letter]{_suffix[number]}[-rnumber]`. A number is one or more digits, however
/// many; the letter is one of a to z; the suffix is one of alpha, beta, pre, rc, cvs, svn, git, hg and p.
pub fn is_version(text: &[u8]) -> bool
    ensures grammar { IsTrue result ↔ IsVersion text.now }
    ensures value { result ≡ is_version text.now }
{
    has_version_parts(text)
}

fn has_version_parts(text: &[u8]) -> bool
    ensures { result ≡ is_version text.now }
{
    let parts = Parts::of(text);
    is_release(parts.release) && are_suffixes(parts.suffixes) && is_build(parts.build)
}

#[tactic(auto, using(crate::proofs::Pieces::release_last, crate::proofs::Pieces::release_more, crate::proofs::Pieces::release_bad, crate::proofs::Pieces::shorter))]
fn is_release(text: &[u8]) -> bool
    ensures { result ≡ is_release (pieces DOT text.now) }
{
    let mut remaining = text;
    loop {
        match cut(remaining, b'.') {
            (last, None) => return is_last_number(last),
            (number, Some(rest)) => {
                if !is_number(number) {
                    return false;
                }
                remaining = rest;
            }
        }
    }
}

#[tactic(auto, using(crate::proofs::Pieces::pieces_cut, crate::proofs::Pieces::after_len))]
fn are_suffixes(text: Option<&[u8]>) -> bool
    ensures { result ≡ list_all is_suffix (pieces_after UNDERSCORE (option_copied text.entry)) }
{
    let mut remaining = text;
    while let Some(rest) = remaining {
        let (suffix, more) = cut(rest, b'_');
        if !is_suffix(suffix) {
            return false;
        }
        remaining = more;
    }
    true
}

fn is_build(text: Option<&[u8]>) -> bool
    ensures { result ≡ is_build (option_copied text.entry) }
{
    match text {
        None => true,
        Some([b'r', number @ ..]) => is_number(number),
        Some(_) => false,
    }
}

fn is_suffix(text: &[u8]) -> bool
    ensures { result ≡ is_suffix text.now }
{
    let (word, number) = split_word(text);
    rank(word).is_some() && are_digits(number)
}

#[tactic(auto, using(crate::proofs::Numbers::last_number))]
fn is_last_number(text: &[u8]) -> bool
    ensures { result ≡ is_last_number text.now }
{
    match text {
        [first, ..] if first.is_ascii_digit() => is_letter_or_nothing(skip_digits(text)),
        _ => false,
    }
}

fn is_letter_or_nothing(text: &[u8]) -> bool
    ensures { result ≡ is_letter_or_nothing text.now }
{
    match text {
        [] => true,
        [letter] => letter.is_ascii_lowercase(),
        _ => false,
    }
}

#[tactic(auto, using(crate::proofs::Numbers::number_some))]
fn is_number(text: &[u8]) -> bool
    ensures { result ≡ is_number text.now }
{
    !text.is_empty() && are_digits(text)
}

/// The rank of a suffix by its word. Their end has the rank 4.
pub(crate) fn rank(word: &[u8]) -> Option<u8>
    ensures { result ≡ rank_of word.now }
{
    match word {
        b"alpha" => Some(0),
        b"beta" => Some(1),
        b"pre" => Some(2),
        b"rc" => Some(3),
        b"cvs" => Some(5),
        b"svn" => Some(6),
        b"git" => Some(7),
        b"hg" => Some(8),
        b"p" => Some(9),
        _ => None,
    }
}
