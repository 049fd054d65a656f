ghost use Rattle.std.specs.Prelude.{◌≡◌, ◌+◌, ◌<◌, ◌↔◌, not, IfNone, IfSome, IsTrue, false, [], ◌∷◌, length};
ghost use Rattle.cv_order.specs.Digits.{is_digit};
ghost use Rattle.cv_debver.specs.Parts.{after_word, front_word, part_cmp, weight_of, word_cmp};

use cv_order::{Compared, compare_numbers};
use std::cmp::Ordering;

/// What the end of a word weighs.
const END: u16 = 1;

/// Compares two upstream versions, or two revisions. Both are read once, front to back, up to the first difference.
#[tactic(auto, using(crate::proofs::Pairs::rounds))]
pub(crate) fn compare_parts(a: &[u8], b: &[u8]) -> Ordering
    ensures { result ≡ part_cmp a.now b.now }
{
    let mut left = a;
    let mut right = b;
    while has_more(left, right) {
        let words = compare_words(left, right);
        if words.ordering.is_ne() {
            return words.ordering;
        }
        let numbers = compare_numbers(words.left, words.right);
        if numbers.ordering.is_ne() {
            return numbers.ordering;
        }
        left = numbers.left;
        right = numbers.right;
    }
    Ordering::Equal
}

fn has_more(left: &[u8], right: &[u8]) -> bool
    ensures { IsTrue result ↔ (0 < length left.now + length right.now) }
{
    !left.is_empty() || !right.is_empty()
}

/// Compares the words that lead two texts. If they are equal, the remaining texts follow them.
fn compare_words<'a>(a: &'a [u8], b: &'a [u8]) -> Compared<'a>
    ensures ordering { result.ordering ≡ word_cmp (front_word a.now) (front_word b.now) }
    ensures left { result.ordering ≡ Ordering.Equal → result.left.now ≡ after_word a.now }
    ensures right { result.ordering ≡ Ordering.Equal → result.right.now ≡ after_word b.now }
{
    let mut left = a;
    let mut right = b;
    while let Some((x, xs)) = split_letter(left) {
        let Some((y, ys)) = split_letter(right) else {
            return Compared {
                ordering: weight(x).cmp(&END),
                left,
                right,
            };
        };
        let ordering = weight(x).cmp(&weight(y));
        if ordering.is_ne() {
            return Compared {
                ordering,
                left,
                right,
            };
        }
        left = xs;
        right = ys;
    }
    let ordering = match split_letter(right) {
        Some((y, _)) => END.cmp(&weight(y)),
        None => Ordering::Equal,
    };
    Compared {
        ordering,
        left,
        right,
    }
}

fn weight(byte: u8) -> u16
    ensures { result ≡ weight_of byte }
{
    match byte {
        b'~' => 0,
        b'A'..=b'Z' | b'a'..=b'z' => u16::from(byte) + 1,
        _ => u16::from(byte) + 257,
    }
}

/// The byte that leads the text, if it is not a digit, and what comes after it.
fn split_letter(text: &[u8]) -> Option<(u8, &[u8])>
    ensures letter { IfSome result (λ found. (text.now ≡ found.0 ∷ found.1.now) × (is_digit found.0 ≡ false)) }
    ensures none { IfNone result ((front_word text.now ≡ []) × (after_word text.now ≡ text.now)) }
{
    match text {
        [byte, rest @ ..] if !byte.is_ascii_digit() => Some((*byte, rest)),
        _ => None,
    }
}
