ghost use Rattle.std.specs.Prelude.{◌≡◌, ◌+◌, ◌<◌, ◌↔◌, IsTrue, length};
ghost use Rattle.std.specs.Cmp.{IsTotalOrder};
ghost use Rattle.std.specs.Option.{option_cmp};
ghost use Rattle.std.specs.Ordering.{on};
ghost use Rattle.cv_order.specs.Digits.{number_cmp};
ghost use Rattle.cv_order.specs.Laws.{IsTotalPreorder};
ghost use Rattle.cv_pep440.specs.Grammar.{IsWellWritten, Written, text_of};
ghost use Rattle.cv_pep440.specs.Key.{key_of, number_in, pre_key, ranked_in, written_key};
ghost use Rattle.cv_pep440.specs.Order.{dev_key, key_cmp, local_cmp, ranked_cmp, release_cmp, run_cmp, run_key, suffixes_cmp, version_cmp};
ghost use Rattle.cv_pep440.specs.Parts.{local_of, release_of, runs};
ghost use Rattle.cv_pep440.specs.code.View.{key_seen, part_seen, ranked_seen};
ghost use Rattle.cv_pep440.specs.code.Walk.{next_number, places_cmp};

use crate::parts::{Part, Parts, begins_with_digit, cut_run};
use crate::rank::{DEV_RANK, RELEASE_RANK};
use cv_order::{are_digits, compare_digits, compare_in_lower_case, compare_numbers};
use std::cmp::Ordering;

/// The three laws of the order, `laws`: any two versions compare, the order is transitive, and `compare(b, a)` is the reverse of
/// `compare(a, b)`. `order` holds these in std's form, and that versions that compare equal compare alike with every third.
pub fn version_order_laws()
    ensures laws { IsTotalPreorder version_cmp }
    ensures order { IsTotalOrder version_cmp }
{}

/// The key by which a version compares is that of the parts that its text is written from.
pub fn version_key_law()
    ensures { (written : Written) → IsWellWritten written → key_of (text_of written) ≡ written_key written }
{}

/// How two versions compare: by their epochs, by their releases, where zeros at the end do not count, then by their
/// pre-releases, post-releases, development releases and local versions. Two texts that are not valid versions are compared
/// as far as their parts can be read. The time is linear in the texts.
#[tactic(auto, using(crate::proofs::Keys::key_seen_is))]
pub fn compare(a: &[u8], b: &[u8]) -> Ordering
    ensures { result ≡ version_cmp a.now b.now }
{
    compare_parts(&Parts::of(a), &Parts::of(b))
}

fn compare_parts(a: &Parts<'_>, b: &Parts<'_>) -> Ordering
    ensures { result ≡ key_cmp (key_seen a.now) (key_seen b.now) }
{
    compare_digits(a.epoch, b.epoch)
        .then(compare_releases(a.release, b.release))
        .then(compare_suffixes(a, b))
}

fn compare_suffixes(a: &Parts<'_>, b: &Parts<'_>) -> Ordering
    ensures { result ≡ suffixes_cmp (key_seen a.now) (key_seen b.now) }
{
    compare_ranked(pre_key(a), pre_key(b))
        .then(compare_posts(a.post, b.post))
        .then(compare_devs(a.dev, b.dev))
        .then(compare_local_parts(a.local, b.local))
}

#[tactic(auto, using(crate::proofs::Numbers::release_cmp_places))]
fn compare_releases(a: &[u8], b: &[u8]) -> Ordering
    ensures { result ≡ release_cmp (release_of a.now) (release_of b.now) }
{
    compare_places(a, b)
}

#[tactic(auto, using(crate::proofs::Numbers::places))]
fn compare_places(a: &[u8], b: &[u8]) -> Ordering
    ensures { result ≡ places_cmp a.now b.now }
{
    let mut left = a;
    let mut right = b;
    while has_more(left, right) {
        let numbers = compare_numbers(left, right);
        if numbers.ordering.is_ne() {
            return numbers.ordering;
        }
        left = next_number(numbers.left);
        right = next_number(numbers.right);
    }
    Ordering::Equal
}

fn has_more(left: &[u8], right: &[u8]) -> bool
    ensures { IsTrue result ↔ (0 < length left.now + length right.now) }
{
    !left.is_empty() || !right.is_empty()
}

/// The text from the next number on, after a dot; nothing, where no digit follows.
fn next_number(text: &[u8]) -> &[u8]
    ensures { result.now ≡ next_number text.now }
{
    match text {
        [b'.', rest @ ..] if begins_with_digit(rest) => rest,
        _ => &[],
    }
}

/// A rank and the digits of a number.
#[derive(Clone, Copy)]
struct Ranked<'a> {
    rank: u8,
    number: &'a [u8],
}

fn compare_ranked(a: Ranked<'_>, b: Ranked<'_>) -> Ordering
    ensures { result ≡ ranked_cmp (ranked_seen a.entry) (ranked_seen b.entry) }
{
    a.rank.cmp(&b.rank).then(compare_digits(a.number, b.number))
}

/// Where a version stands by its pre-release.
fn pre_key<'a>(parts: &Parts<'a>) -> Ranked<'a>
    ensures { ranked_seen result ≡ pre_key (ranked_in (part_seen parts.now.pre)) (number_in (part_seen parts.now.post)) (number_in (part_seen parts.now.dev)) }
{
    if let Some(Part { rank, number, .. }) = parts.pre {
        return Ranked { rank, number };
    }
    let rank = if parts.post.is_none() && parts.dev.is_some() {
        DEV_RANK
    } else {
        RELEASE_RANK
    };
    Ranked { rank, number: &[] }
}

fn compare_posts(a: Option<Part<'_>>, b: Option<Part<'_>>) -> Ordering
    ensures { result ≡ option_cmp number_cmp (number_in (part_seen a.entry)) (number_in (part_seen b.entry)) }
{
    match (a, b) {
        (Some(a), Some(b)) => compare_digits(a.number, b.number),
        (Some(_), None) => Ordering::Greater,
        (None, Some(_)) => Ordering::Less,
        (None, None) => Ordering::Equal,
    }
}

/// A development release is less than a version that is none.
fn compare_devs(a: Option<Part<'_>>, b: Option<Part<'_>>) -> Ordering
    ensures { result ≡ on dev_key ranked_cmp (number_in (part_seen a.entry)) (number_in (part_seen b.entry)) }
{
    match (a, b) {
        (Some(a), Some(b)) => compare_digits(a.number, b.number),
        (Some(_), None) => Ordering::Less,
        (None, Some(_)) => Ordering::Greater,
        (None, None) => Ordering::Equal,
    }
}

fn compare_local_parts(a: &[u8], b: &[u8]) -> Ordering
    ensures { result ≡ option_cmp local_cmp (local_of a.now) (local_of b.now) }
{
    match (a, b) {
        ([], []) => Ordering::Equal,
        ([], _) => Ordering::Less,
        (_, []) => Ordering::Greater,
        ([_, left @ ..], [_, right @ ..]) => compare_locals(left, right),
    }
}

#[tactic(auto, using(crate::proofs::Runs::runs_place, crate::proofs::Runs::runs_left, crate::proofs::Runs::runs_right, crate::proofs::Runs::after_len))]
fn compare_locals(a: &[u8], b: &[u8]) -> Ordering
    ensures { result ≡ local_cmp (runs a.now) (runs b.now) }
{
    let mut left = Some(a);
    let mut right = Some(b);
    while let Some(x) = left {
        let Some(y) = right else {
            return Ordering::Greater;
        };
        let (x_run, x_more) = cut_run(x);
        let (y_run, y_more) = cut_run(y);
        let ordering = compare_runs(x_run, y_run);
        if ordering.is_ne() {
            return ordering;
        }
        left = x_more;
        right = y_more;
    }
    match right {
        Some(_) => Ordering::Less,
        None => Ordering::Equal,
    }
}

/// A run with a letter is less than a run of digits.
fn compare_runs(a: &[u8], b: &[u8]) -> Ordering
    ensures { result ≡ run_cmp (run_key a.now) (run_key b.now) }
{
    match (are_digits(a), are_digits(b)) {
        (true, true) => compare_digits(a, b),
        (true, false) => Ordering::Greater,
        (false, true) => Ordering::Less,
        (false, false) => compare_in_lower_case(a, b),
    }
}
