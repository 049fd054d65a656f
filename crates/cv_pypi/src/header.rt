//! The header of a metadata file: the lines before the first empty one.
ghost use Rattle.std.specs.Prelude.{◌≡◌, ◌∷◌, ◌≤◌, Some, codes, length, map};
ghost use Rattle.std.specs.Option.{option_map};
ghost use Rattle.cv_base.specs.code.Cuts.{remaining_len};
ghost use Rattle.cv_pypi.specs.Fields.{value_by, without_cr};
ghost use Rattle.cv_pypi.specs.Metadata.{first_value, header_lines};
ghost use Rattle.cv_pypi.specs.code.Lines.{lines_in};

use crate::field::value_by;
use crate::text::without_cr;

/// The values of the first `Name` and the first `Version`.
#[derive(Clone, Copy)]
pub struct FirstFields<'a> {
    pub name: Option<&'a [u8]>,
    pub version: Option<&'a [u8]>,
}

/// The first `Name` and the first `Version` of a header, in any case.
#[tactic(auto, using(crate::proofs::Firsts::first_more))]
pub fn first_fields(bytes: &[u8]) -> FirstFields<'_>
    ensures name { option_map (λ value. value.now) result.name ≡ first_value (value_by (codes "Name")) (header_lines bytes.now) }
    ensures version { option_map (λ value. value.now) result.version ≡ first_value (value_by (codes "Version")) (header_lines bytes.now) }
{
    let mut name = None;
    let mut version = None;
    let mut remaining = Some(bytes);
    while let Some(rest) = remaining {
        let (line, after) = next_line(rest);
        if line.is_empty() {
            return FirstFields { name, version };
        }
        name = name.or(value_by(b"Name", line));
        version = version.or(value_by(b"Version", line));
        remaining = after;
    }
    FirstFields { name, version }
}

/// The first line without the CR at its end, and what stands after its LF, if it has one.
fn next_line(bytes: &[u8]) -> (&[u8], Option<&[u8]>)
    ensures lines { lines_in (Some bytes.now) ≡ result.0.now ∷ lines_in (option_map (λ s. s.now) result.1) }
    ensures shorter { remaining_len (option_map (λ s. s.now) result.1) ≤ length bytes.now }
{
    let (line, rest) = cv_base::next_line(bytes);
    (without_cr(line), rest)
}
