ghost use Rattle.std.specs.Prelude.{◌≡◌, ◌+◌, ◌<◌, ◌↔◌, IsTrue, find, map};
ghost use Rattle.std.specs.Cmp.{IsTotalOrder};
ghost use Rattle.std.specs.Cmp.Lexicographic.{slice_cmp};
ghost use Rattle.std.specs.Option.{option_copied};
ghost use Rattle.cv_order.specs.Digits.{front_digits, number_cmp};
ghost use Rattle.cv_order.specs.Filled.{later};
ghost use Rattle.cv_order.specs.Laws.{IsTotalPreorder};
ghost use Rattle.cv_apkver.specs.Grammar.{DOT, IsWellWritten, UNDERSCORE, Written, is_letter, text_of};
ghost use Rattle.cv_apkver.specs.Order.{build_digits, digits_of, key_of, suffix_of, suffixes_cmp, version_cmp, written_key};
ghost use Rattle.cv_apkver.specs.Parts.{pieces, pieces_after};
ghost use Rattle.cv_apkver.specs.code.Walk.{first_suffix, remaining_len};

use crate::grammar::rank;
use crate::parts::{Parts, cut, split_word};
use cv_order::compare_numbers;
use std::cmp::Ordering;

/// The rank of the end of the suffixes among the suffixes.
const END_RANK: u8 = 4;

/// The three laws of the order, `laws`: any two versions compare, the order is transitive, and `compare(b, a)` is the reverse of
/// `compare(a, b)`. `order` says them in the form that std's sorts and maps ask for: versions that compare equal compare alike
/// with every third.
pub fn version_order_laws()
    ensures laws { IsTotalPreorder version_cmp }
    ensures order { IsTotalOrder version_cmp }
{}

/// The key by which a version compares is that of the parts that its text is written from.
pub fn version_key_law()
    ensures { (written : Written) → IsWellWritten written → key_of (text_of written) ≡ written_key written }
{}

/// How two versions compare: by their numbers, at the first difference, where the list that ends first is less; then by
/// their letters, none being least; then by their suffixes, place by place; then by their build numbers. An absent number
/// is 0, and leading zeros do not count. Two texts that are not valid versions are compared as far as their parts can be read.
pub fn compare(a: &[u8], b: &[u8]) -> Ordering
    ensures { result ≡ version_cmp a.now b.now }
{
    let a = Parts::of(a);
    let b = Parts::of(b);
    let numbers = compare_releases(a.release, b.release);
    if numbers.is_ne() {
        return numbers;
    }
    letter(a.release)
        .cmp(&letter(b.release))
        .then(compare_suffixes(a.suffixes, b.suffixes))
        .then(compare_builds(a.build, b.build))
}

#[tactic(auto, using(crate::proofs::Places::number_place, crate::proofs::Places::numbers_left, crate::proofs::Places::numbers_right, crate::proofs::Pieces::after_len))]
fn compare_releases(a: &[u8], b: &[u8]) -> Ordering
    ensures { result ≡ slice_cmp number_cmp (digits_of (pieces DOT a.now)) (digits_of (pieces DOT b.now)) }
{
    let mut left = Some(a);
    let mut right = Some(b);
    while let Some(x) = left {
        let Some(y) = right else {
            return Ordering::Greater;
        };
        let (x_number, x_more) = cut(x, b'.');
        let (y_number, y_more) = cut(y, b'.');
        let numbers = compare_numbers(x_number, y_number);
        if numbers.ordering.is_ne() {
            return numbers.ordering;
        }
        left = x_more;
        right = y_more;
    }
    match right {
        Some(_) => Ordering::Less,
        None => Ordering::Equal,
    }
}

fn letter(release: &[u8]) -> Option<u8>
    ensures { result ≡ find is_letter release.now }
{
    release
        .iter()
        .copied()
        .find(|byte| byte.is_ascii_lowercase())
}

#[tactic(auto, using(crate::proofs::Places::suffix_place, crate::proofs::Places::suffixes_ended))]
fn compare_suffixes(a: Option<&[u8]>, b: Option<&[u8]>) -> Ordering
    ensures { result ≡ suffixes_cmp (map suffix_of (pieces_after UNDERSCORE (option_copied a.entry))) (map suffix_of (pieces_after UNDERSCORE (option_copied b.entry))) }
{
    let mut left = a;
    let mut right = b;
    while has_more(left, right) {
        let x = next_suffix(left);
        let y = next_suffix(right);
        let numbers = compare_numbers(x.number, y.number);
        let ordering = x.rank.cmp(&y.rank).then(numbers.ordering);
        if ordering.is_ne() {
            return ordering;
        }
        left = x.more;
        right = y.more;
    }
    Ordering::Equal
}

fn has_more(a: Option<&[u8]>, b: Option<&[u8]>) -> bool
    ensures { IsTrue result ↔ (0 < remaining_len (option_copied a.entry) + remaining_len (option_copied b.entry)) }
{
    a.is_some() || b.is_some()
}

/// A suffix by its rank and its number, and the suffixes after it.
#[derive(Clone, Copy)]
struct NextSuffix<'a> {
    rank: u8,
    number: &'a [u8],
    more: Option<&'a [u8]>,
}

/// The first suffix, or the end of the suffixes.
#[tactic(auto, using(crate::proofs::Pieces::pieces_cut, crate::proofs::Pieces::after_len))]
fn next_suffix(text: Option<&[u8]>) -> NextSuffix<'_>
    ensures rank { result.rank ≡ (first_suffix (pieces_after UNDERSCORE (option_copied text.entry))).rank }
    ensures number { front_digits result.number.now ≡ (first_suffix (pieces_after UNDERSCORE (option_copied text.entry))).number }
    ensures more { pieces_after UNDERSCORE (option_copied result.more) ≡ later (pieces_after UNDERSCORE (option_copied text.entry)) }
    ensures shorter { 0 < remaining_len (option_copied text.entry) → remaining_len (option_copied result.more) < remaining_len (option_copied text.entry) }
    ensures ended { remaining_len (option_copied text.entry) ≡ 0 → remaining_len (option_copied result.more) ≡ 0 }
{
    let Some(rest) = text else {
        return NextSuffix {
            rank: END_RANK,
            number: &[],
            more: None,
        };
    };
    let (suffix, more) = cut(rest, b'_');
    let (word, number) = split_word(suffix);
    NextSuffix {
        rank: rank(word).unwrap_or(END_RANK),
        number,
        more,
    }
}

fn compare_builds(a: Option<&[u8]>, b: Option<&[u8]>) -> Ordering
    ensures { result ≡ number_cmp (build_digits (option_copied a.entry)) (build_digits (option_copied b.entry)) }
{
    compare_numbers(digits_after_mark(a), digits_after_mark(b)).ordering
}

fn digits_after_mark(build: Option<&[u8]>) -> &[u8]
    ensures { front_digits result.now ≡ build_digits (option_copied build.entry) }
{
    match build {
        Some([_, number @ ..]) => number,
        _ => &[],
    }
}
