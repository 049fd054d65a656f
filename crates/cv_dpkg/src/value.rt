//! The values of the used fields.
ghost use Rattle.std.specs.Prelude.{◌≡◌, if◌then◌else◌, Some, None};
ghost use Rattle.std.specs.List.{list_all};
ghost use Rattle.std.specs.Option.{option_map};
ghost use Rattle.cv_base.specs.Cuts.{cut};
ghost use Rattle.cv_dpkg.specs.Fields.{is_close, is_state, is_word, is_word_byte, origin_of, state_of, versioned};
ghost use Rattle.cv_dpkg.specs.code.NextWord.{state_by};
ghost use Rattle.cv_dpkg.specs.code.Steps.{source_view};

use crate::text::next_word;
use cv_base::{cut_at, trim_end};

/// What a value of Source names.
#[derive(Clone, Copy)]
pub struct Source<'a> {
    pub name: Option<&'a str>,
    pub version: Option<&'a str>,
}

/// The state in a value of Status: the last of its three words.
#[tactic(auto, using(crate::proofs::ThirdWord::state_steps))]
pub fn state_of(value: &[u8]) -> Option<&[u8]>
    ensures { option_map (λ s. s.now) result ≡ state_of value.now }
{
    last_of_three(value)
}

fn last_of_three(value: &[u8]) -> Option<&[u8]>
    ensures { option_map (λ s. s.now) result ≡ state_by value.now }
{
    let (_, rest) = next_word(value)?;
    let (_, rest) = next_word(rest)?;
    let (state, rest) = next_word(rest)?;
    if next_word(rest).is_none() && is_state(state) {
        Some(state)
    } else {
        None
    }
}

/// Whether a word is a state of a package.
fn is_state(word: &[u8]) -> bool
    ensures { result ≡ is_state word.now }
{
    word == b"not-installed".as_slice()
        || word == b"config-files".as_slice()
        || word == b"half-installed".as_slice()
        || word == b"unpacked".as_slice()
        || word == b"half-configured".as_slice()
        || word == b"triggers-awaited".as_slice()
        || word == b"triggers-pending".as_slice()
        || word == b"installed".as_slice()
}

/// The source package that a value of Source names: none, a name, or a name with a version in round brackets.
pub fn origin_of(value: &[u8]) -> Option<Source<'_>>
    ensures { option_map source_view result ≡ origin_of value.now }
{
    if value.is_empty() {
        return Some(Source {
            name: None,
            version: None,
        });
    }
    let Some((front, back)) = cut_at(value, b'(') else {
        let name = word(value)?;
        return Some(Source {
            name: Some(name),
            version: None,
        });
    };
    versioned(trim_end(front), back)
}

/// A name and a version, where nothing stands after the version's bracket.
fn versioned<'a>(name: &'a [u8], back: &'a [u8]) -> Option<Source<'a>>
    ensures { option_map source_view result ≡ versioned name.now (cut is_close back.now) }
{
    let (version, rest) = cut_at(back, b')')?;
    let name = word(name)?;
    let version = word(version)?;
    if rest.is_empty() {
        Some(Source {
            name: Some(name),
            version: Some(version),
        })
    } else {
        None
    }
}

/// A word of Source: printing bytes without round brackets, at least one.
#[tactic(auto, using(crate::proofs::Printing::word_utf8))]
fn word(text: &[u8]) -> Option<&str>
    ensures { option_map (λ s. s.now) result ≡ (if is_word text.now then Some text.now else None) }
{
    if !is_word(text) {
        return None;
    }
    str::from_utf8(text).ok()
}

fn is_word(text: &[u8]) -> bool
    ensures { result ≡ is_word text.now }
{
    !text.is_empty() && are_word_bytes(text)
}

fn are_word_bytes(text: &[u8]) -> bool
    ensures { result ≡ list_all is_word_byte text.now }
{
    text.iter().all(|byte| is_word_byte(*byte))
}

fn is_word_byte(byte: u8) -> bool
    ensures { result ≡ is_word_byte byte }
{
    byte.is_ascii_graphic() && byte != b'(' && byte != b')'
}
