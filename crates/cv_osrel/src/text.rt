//! The lines of a file, all of them borrowed.
ghost use Rattle.std.specs.Prelude.{◌≡◌, ◌∷◌, ◌≤◌, Some, length};
ghost use Rattle.std.specs.Option.{option_map};
ghost use Rattle.cv_base.specs.Cuts.{is_dropped};
ghost use Rattle.cv_base.specs.code.Cuts.{remaining_len};
ghost use Rattle.cv_order.specs.Digits.{after_while};
ghost use Rattle.cv_osrel.specs.code.Lines.{trimmed_lines};
ghost use Rattle.cv_osrel.specs.System.{trimmed};

use cv_base::{is_dropped, trim_line};

/// The first line without what is dropped at its ends, and what stands after its LF, if it has one.
pub fn next_line(bytes: &[u8]) -> (&[u8], Option<&[u8]>)
    ensures lines { trimmed_lines (Some bytes.now) ≡ result.0.now ∷ trimmed_lines (option_map (λ s. s.now) result.1) }
    ensures shorter { remaining_len (option_map (λ s. s.now) result.1) ≤ length bytes.now }
{
    let (line, rest) = cv_base::next_line(bytes);
    (trimmed(line), rest)
}

/// A line without blanks and CRs at both ends.
fn trimmed(line: &[u8]) -> &[u8]
    ensures { result.now ≡ trimmed line.now }
{
    trim_front(trim_line(line))
}

fn trim_front(text: &[u8]) -> &[u8]
    ensures { result.now ≡ after_while is_dropped text.now }
{
    let mut rest = text;
    while let [first, after @ ..] = rest {
        if !is_dropped(*first) {
            return rest;
        }
        rest = after;
    }
    rest
}
