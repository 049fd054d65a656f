//! The fields of a header.
ghost use Rattle.std.specs.Prelude.{◌≡◌};
ghost use Rattle.std.specs.Option.{option_map};
ghost use Rattle.cv_pypi.specs.Fields.{value_by};

use crate::text::trimmed;
use cv_base::{begins_with_blank, cut_at, is_same_name};

/// The value that a line gives to a name, if it is a field of this name.
pub fn value_by<'a>(name: &[u8], line: &'a [u8]) -> Option<&'a [u8]>
    ensures { option_map (λ value. value.now) result ≡ value_by name.now line.now }
{
    if begins_with_blank(line) {
        return None;
    }
    let (front, rest) = cut_at(line, b':')?;
    if is_same_name(front, name) {
        Some(trimmed(rest))
    } else {
        None
    }
}
