ghost use Rattle.std.specs.Prelude.{◌≡◌, IfNone, IfSome, not, true, [], ◌∷◌};
ghost use Rattle.std.specs.Cmp.{IsTotalOrder};
ghost use Rattle.std.specs.List.{list_all, position};
ghost use Rattle.cv_order.specs.Digits.{after_digits, front_digits, is_digit, number_cmp, run_cmp, without_zeros};
ghost use Rattle.cv_order.specs.Laws.{IsTotalPreorder};

use std::cmp::Ordering;

const ZERO: u8 = b'0';

/// What the fronts of two texts compare to, and what comes after both fronts.
#[derive(Clone, Copy)]
pub struct Compared<'a> {
    pub ordering: Ordering,
    pub left: &'a [u8],
    pub right: &'a [u8],
}

/// Runs of digits are ordered as numbers: any two compare, transitively, and the other way round the answer is the reverse.
pub fn number_order_laws()
    ensures laws { IsTotalPreorder number_cmp }
    ensures order { IsTotalOrder number_cmp }
{}

/// The text without the zeros that lead it.
pub fn significant(text: &[u8]) -> &[u8]
    ensures { result.now ≡ without_zeros text.now }
{
    let mut remaining = text;
    while let [byte, rest @ ..] = remaining {
        if *byte != ZERO {
            return remaining;
        }
        remaining = rest;
    }
    remaining
}

/// What comes after the digits that lead the text.
pub fn skip_digits(text: &[u8]) -> &[u8]
    ensures { result.now ≡ after_digits text.now }
{
    let mut remaining = text;
    while let Some((_, rest)) = split_digit(remaining) {
        remaining = rest;
    }
    remaining
}

/// The digits that lead the text, and what comes after them.
#[tactic(auto, using(crate::proofs::Fronts::while_some, crate::proofs::Fronts::while_none, crate::proofs::Fronts::past_some, crate::proofs::Fronts::past_none))]
pub fn split_digits(text: &[u8]) -> (&[u8], &[u8])
    ensures digits { result.0.now ≡ front_digits text.now }
    ensures rest { result.1.now ≡ after_digits text.now }
{
    match digits_end(text) {
        Some(end) => text.split_at(end),
        None => (text, &[]),
    }
}

/// The index of the first byte that is not a digit.
fn digits_end(text: &[u8]) -> Option<usize>
    ensures { result ≡ position (λ byte. not (is_digit byte)) text.now }
{
    text.iter().position(|byte| !byte.is_ascii_digit())
}

/// Whether all bytes are digits.
pub fn are_digits(bytes: &[u8]) -> bool
    ensures { result ≡ list_all is_digit bytes.now }
{
    bytes.iter().all(|byte| byte.is_ascii_digit())
}

/// Compares the runs of digits that lead two texts, as numbers of any length. A text that no digit leads has the empty run,
/// which is 0. Each byte is read at most twice.
#[tactic(auto, using(crate::proofs::Runs::zeros))]
pub fn compare_numbers<'a>(a: &'a [u8], b: &'a [u8]) -> Compared<'a>
    ensures ordering { result.ordering ≡ number_cmp (front_digits a.now) (front_digits b.now) }
    ensures left { result.left.now ≡ after_digits a.now }
    ensures right { result.right.now ≡ after_digits b.now }
{
    compare_runs(significant(a), significant(b))
}

fn compare_runs<'a>(a: &'a [u8], b: &'a [u8]) -> Compared<'a>
    ensures ordering { result.ordering ≡ run_cmp (front_digits a.now) (front_digits b.now) }
    ensures left { result.left.now ≡ after_digits a.now }
    ensures right { result.right.now ≡ after_digits b.now }
{
    let mut left = a;
    let mut right = b;
    let mut first = Ordering::Equal;
    while let Some((x, xs)) = split_digit(left) {
        let Some((y, ys)) = split_digit(right) else {
            return Compared {
                ordering: Ordering::Greater,
                left: skip_digits(left),
                right,
            };
        };
        first = first.then(x.cmp(&y));
        left = xs;
        right = ys;
    }
    if split_digit(right).is_some() {
        return Compared {
            ordering: Ordering::Less,
            left,
            right: skip_digits(right),
        };
    }
    Compared {
        ordering: first,
        left,
        right,
    }
}

/// The digit that leads the text, and what comes after it.
fn split_digit(text: &[u8]) -> Option<(u8, &[u8])>
    ensures digit { IfSome result (λ found. (text.now ≡ found.0 ∷ found.1.now) × (is_digit found.0 ≡ true)) }
    ensures none { IfNone result ((front_digits text.now ≡ []) × (after_digits text.now ≡ text.now)) }
{
    match text {
        [byte, rest @ ..] if byte.is_ascii_digit() => Some((*byte, rest)),
        _ => None,
    }
}

/// Compares two whole runs of digits as numbers of any length; the empty run is 0.
pub fn compare_digits(a: &[u8], b: &[u8]) -> Ordering
    ensures { result ≡ number_cmp a.now b.now }
{
    let left = significant(a);
    let right = significant(b);
    left.len().cmp(&right.len()).then_with(|| left.cmp(right))
}
