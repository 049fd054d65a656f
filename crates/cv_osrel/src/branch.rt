//! The branches of Alpine Linux.
ghost use Rattle.std.specs.Prelude.{◌≡◌};
ghost use Rattle.std.specs.Option.{option_map};
ghost use Rattle.cv_osrel.specs.Ecosystem.{branch};
ghost use Rattle.cv_osrel.specs.code.Lines.{branch_text, number};

use cv_order::split_digits;
use std::str;

/// A branch, as 3 and 18.
#[derive(Clone, Copy)]
pub struct Branch<'a> {
    pub major: &'a str,
    pub minor: &'a str,
}

/// The branch of a version that begins with digits, a dot and digits.
pub fn branch_of(version: &[u8]) -> Option<Branch<'_>>
    ensures { option_map branch_text result ≡ branch version.now }
{
    let (major, rest) = number(version)?;
    let [b'.', rest @ ..] = rest else {
        return None;
    };
    let (minor, _) = number(rest)?;
    Some(Branch { major, minor })
}

/// The digits that begin a text, at least one, and what stands after them.
#[tactic(auto, using(crate::proofs::Digits::digits_utf8))]
fn number(text: &[u8]) -> Option<(&str, &[u8])>
    ensures { option_map (λ p. (p.0.now, p.1.now)) result ≡ number text.now }
{
    let (digits, rest) = split_digits(text);
    if digits.is_empty() {
        return None;
    }
    let Ok(digits) = str::from_utf8(digits) else {
        return None;
    };
    Some((digits, rest))
}
