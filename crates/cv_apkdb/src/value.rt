//! The values of the letters.
ghost use Rattle.std.specs.Option.{option_map};
ghost use Rattle.std.specs.Prelude.{Some};
ghost use Rattle.cv_base.specs.Answer.{MatchesUnlessOutOfMemory};
ghost use Rattle.cv_apkdb.specs.code.Steps.{new_value};
ghost use Rattle.cv_apkdb.specs.declared.letter.Letter.TheVariants as letter;

use cv_base::{What, printing_text};

/// The value of a letter that did not stand before.
pub fn new_value<'a>(before: Option<&str>, value: &'a [u8]) -> Result<&'a str, What>
    ensures { MatchesUnlessOutOfMemory Some (λ text. text.now) result (new_value letter.Arch (option_map (λ s. s.now) before.entry) value.now) }
{
    if before.is_some() {
        return Err(What::Repeated);
    }
    match printing_text(value) {
        Some(text) => Ok(text),
        None => Err(What::BadValue),
    }
}

/// The value, which is not empty, of a letter that did not stand before.
pub fn new_filled_value<'a>(before: Option<&str>, value: &'a [u8]) -> Result<&'a str, What>
    ensures { MatchesUnlessOutOfMemory Some (λ text. text.now) result (new_value letter.Name (option_map (λ s. s.now) before.entry) value.now) }
{
    if before.is_none() && value.is_empty() {
        return Err(What::BadValue);
    }
    new_value(before, value)
}
