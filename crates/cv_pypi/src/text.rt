//! Pieces of texts, all of them borrowed.
ghost use Rattle.std.specs.Prelude.{◌≡◌};
ghost use Rattle.cv_pypi.specs.Fields.{trimmed, without_cr};

use cv_base::{trim_end, trim_front};

/// A line without the CR at its end. Of several CRs one is dropped.
#[tactic(auto, using(crate::proofs::Ends::cr_dropped, crate::proofs::Ends::no_cr))]
pub fn without_cr(line: &[u8]) -> &[u8]
    ensures { result.now ≡ without_cr line.now }
{
    match line.split_last() {
        Some((b'\r', front)) => front,
        _ => line,
    }
}

/// A text without the blanks at its ends.
pub fn trimmed(text: &[u8]) -> &[u8]
    ensures { result.now ≡ trimmed text.now }
{
    trim_end(trim_front(text))
}
