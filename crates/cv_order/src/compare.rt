//! Texts in the order of keys of their bytes.
ghost use Rattle.std.specs.Char.{to_ascii_lowercase};
ghost use Rattle.std.specs.Cmp.Lexicographic.{slice_cmp};
ghost use Rattle.std.specs.Ordering.{nat_cmp};
ghost use Rattle.std.specs.Prelude.{◌≡◌, map};

use std::cmp::Ordering;

/// What bytes are compared by.
pub trait ByteKey {
    ghost use Rattle.std.specs.Prelude.{ℕ};

    /// The key of a byte.
    ghost key: { ℕ → ℕ };

    fn key_of(byte: u8) -> u8
        ensures { result ≡ key byte };
}

/// The order of two texts by the keys of their bytes.
pub fn compare_by<K: ByteKey>(one: &[u8], other: &[u8]) -> Ordering
    ensures { result ≡ slice_cmp nat_cmp (map K.key one.now) (map K.key other.now) }
{
    let mut left = one;
    let mut right = other;
    while let [x, xs @ ..] = left {
        let [y, ys @ ..] = right else {
            return Ordering::Greater;
        };
        let order = K::key_of(*x).cmp(&K::key_of(*y));
        if order.is_ne() {
            return order;
        }
        left = xs;
        right = ys;
    }
    if right.is_empty() {
        Ordering::Equal
    } else {
        Ordering::Less
    }
}

/// Letters are compared in lower case.
struct InLowerCase;

impl ByteKey for InLowerCase {
    ghost use Rattle.std.specs.Char.{to_ascii_lowercase};

    ghost key = { to_ascii_lowercase };

    fn key_of(byte: u8) -> u8 {
        byte.to_ascii_lowercase()
    }
}

/// The order of two texts by their bytes, with the letters of ASCII in lower case.
pub fn compare_in_lower_case(one: &[u8], other: &[u8]) -> Ordering
    ensures { result ≡ slice_cmp nat_cmp (map to_ascii_lowercase one.now) (map to_ascii_lowercase other.now) }
{
    compare_by::<InLowerCase>(one, other)
}
