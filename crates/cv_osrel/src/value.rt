//! The values of assignments.
ghost use Rattle.std.specs.Prelude.{◌≡◌, ◌++◌, IfOk};
ghost use Rattle.std.specs.List.{list_all};
ghost use Rattle.std.specs.Option.{option_and_then, option_map};
ghost use Rattle.cv_osrel.specs.System.{text_of};
ghost use Rattle.cv_osrel.specs.Value.{double_quoted, is_bare, is_escapable, single_quoted, unescaped, value_of};

use cv_base::{NoMemory, Text, cut_at, is_blank};
use std::alloc::Global;
use std::str;

/// The value that a text is, in double quotes, in single quotes or bare, if it is a value and a text in UTF-8.
pub fn value_of(alloc: Global, text: &[u8]) -> Result<Option<Text>, NoMemory>
    ensures { IfOk result (λ value. value ≡ option_and_then text_of (value_of text.now)) }
{
    match text {
        [b'"', rest @ ..] => double_quoted_text(alloc, rest),
        [b'\'', rest @ ..] => match single_quoted(rest) {
            Some(value) => text_of(alloc, value),
            None => Ok(None),
        },
        _ => {
            if is_bare_text(text) {
                text_of(alloc, text)
            } else {
                Ok(None)
            }
        }
    }
}

#[tactic(auto, using(cv_seq::proofs::Utf8::text_found, cv_seq::proofs::Utf8::none_found))]
fn text_of(alloc: Global, value: &[u8]) -> Result<Option<Text>, NoMemory>
    ensures { IfOk result (λ text. text ≡ text_of value.now) }
{
    let Ok(text) = str::from_utf8(value) else {
        return Ok(None);
    };
    Ok(Some(Text::of(alloc, text)?))
}

fn double_quoted_text(alloc: Global, text: &[u8]) -> Result<Option<Text>, NoMemory>
    ensures { IfOk result (λ value. value ≡ option_and_then text_of (double_quoted text.now)) }
{
    match double_quoted(alloc, text)? {
        Some(value) => text_of(alloc, value.as_slice()),
        None => Ok(None),
    }
}

/// The text up to the first double quote that no backslash escapes, if nothing stands after it.
#[tactic(auto, using(crate::proofs::Quotes::start, crate::proofs::Quotes::plain_more, crate::proofs::Quotes::escaped_more, crate::proofs::Quotes::loose, crate::proofs::Quotes::closing))]
fn double_quoted(alloc: Global, text: &[u8]) -> Result<Option<Vec<u8>>, NoMemory>
    ensures { IfOk result (λ value. option_map (λ v. v.items) value ≡ double_quoted text.now) }
{
    let mut value = Vec::new(alloc);
    let mut remaining = text;
    while let Some((first, rest)) = remaining.split_first() {
        if *first == b'"' {
            return Ok(if rest.is_empty() { Some(value) } else { None });
        }
        if *first == b'\\' {
            let Some((second, after)) = rest.split_first() else {
                return Ok(None);
            };
            push_escaped(&mut value, *second)?;
            remaining = after;
        } else {
            value.push(*first)?;
            remaining = rest;
        }
    }
    Ok(None)
}

/// Adds a byte that stands after a backslash, and the backslash where it stays.
fn push_escaped(value: &mut Vec<u8>, byte: u8) -> Result<(), NoMemory>
    ensures { IfOk result (λ _. value.new.items ≡ value.old.items ++ unescaped byte) }
{
    if !is_escapable(byte) {
        value.push(b'\\')?;
    }
    value.push(byte)?;
    Ok(())
}

/// Whether a backslash before this byte is dropped.
fn is_escapable(byte: u8) -> bool
    ensures { result ≡ is_escapable byte }
{
    byte == b'"' || byte == b'$' || byte == b'\\' || byte == b'`'
}

/// The text up to the first single quote, if nothing stands after it.
fn single_quoted(text: &[u8]) -> Option<&[u8]>
    ensures { option_map (λ v. v.now) result ≡ single_quoted text.now }
{
    let (value, rest) = cut_at(text, b'\'')?;
    if rest.is_empty() { Some(value) } else { None }
}

fn is_bare_text(text: &[u8]) -> bool
    ensures { result ≡ list_all is_bare text.now }
{
    text.iter().all(|byte| is_bare(*byte))
}

/// Whether a byte may stand outside quotes.
fn is_bare(byte: u8) -> bool
    ensures { result ≡ is_bare byte }
{
    !(is_blank(byte) || byte == b'"' || byte == b'\'' || byte == b'\\')
}
