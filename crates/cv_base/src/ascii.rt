//! Texts of printing bytes.
ghost use Rattle.std.specs.Prelude.{◌≡◌, if◌then◌else◌, None, Some};
ghost use Rattle.std.specs.List.{list_all};
ghost use Rattle.std.specs.Option.{option_map};
ghost use Rattle.cv_base.specs.Printing.{is_printing};

use std::str;

/// The text of these bytes, if all of them print.
#[tactic(auto, using(crate::proofs::Printing::printing_utf8))]
pub fn printing_text(bytes: &[u8]) -> Option<&str>
    ensures { option_map (λ s. s.now) result ≡ (if list_all is_printing bytes.now then Some bytes.now else None) }
{
    if !are_printing(bytes) {
        return None;
    }
    str::from_utf8(bytes).ok()
}

/// Whether all bytes print.
pub fn are_printing(bytes: &[u8]) -> bool
    ensures { result ≡ list_all is_printing bytes.now }
{
    bytes.iter().all(|byte| is_printing(*byte))
}

fn is_printing(byte: u8) -> bool
    ensures { result ≡ is_printing byte }
{
    byte.is_ascii_graphic()
}
