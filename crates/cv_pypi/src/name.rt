//! The names of packages as indexes know them.
ghost use Rattle.std.specs.Prelude.{◌≡◌, ◌<◌, ◌++◌, ◌∷◌, IfOk, List, OnOk, false, map, string_bytes, true, ℕ};
ghost use Rattle.std.specs.Char.{to_ascii_lowercase};
ghost use Rattle.std.specs.List.{list_all, list_any};
ghost use Rattle.cv_base.specs.Printing.{is_printing};
ghost use Rattle.cv_pypi.specs.Name.{begins_with_separator, ends_with_separator, is_separator, normal_byte, normalized};
ghost use Rattle.cv_pypi.specs.code.Names.{added};

use cv_base::{NoMemory, Text};
use std::alloc::Global;

/// The name in lower case, with one `-` for each longest run of `-`, `_` and `.`.
#[tactic(auto, using(crate::proofs::Names::normalized_more, crate::proofs::Names::printing_more, crate::proofs::Names::printing_low))]
pub fn normalized(alloc: Global, name: &str) -> Result<Text, NoMemory>
    requires { list_all is_printing name.now ≡ true }
    ensures { IfOk result (λ text. text ≡ normalized name.now) }
{
    let mut text = String::new(alloc);
    let mut remaining = name.as_bytes();
    while let [first, rest @ ..] = remaining {
        push_normal(&mut text, *first, rest)?;
        remaining = rest;
    }
    Text::of(alloc, text.as_str())
}

/// Adds a byte as it is normalized, unless its run of separators goes on after it.
fn push_normal(text: &mut String, byte: u8, after: &[u8]) -> Result<(), NoMemory>
    requires { byte < 128 }
    ensures { OnOk result (string_bytes text.new ≡ string_bytes text.old ++ added byte after.now) }
{
    if is_separator(byte) && begins_with_separator(after) {
        return Ok(());
    }
    text.push(char::from(normal_byte(byte)))?;
    Ok(())
}

/// What normalized names are: a longest run of separators is one `-`, `runs`, and a name without separators is in lower
/// case, `plain`.
pub fn normalized_law()
    ensures runs { (front run rest : List ℕ) (first : ℕ) → list_all is_separator (first ∷ run) ≡ true → ends_with_separator front ≡ false → begins_with_separator rest ≡ false → normalized (front ++ (first ∷ run ++ rest)) ≡ normalized front ++ 45 ∷ normalized rest }
    ensures plain { (name : List ℕ) → list_any is_separator name ≡ false → normalized name ≡ map to_ascii_lowercase name }
{}

/// Whether a text begins with a separator.
fn begins_with_separator(text: &[u8]) -> bool
    ensures { result ≡ begins_with_separator text.now }
{
    match text {
        [] => false,
        [first, ..] => is_separator(*first),
    }
}

/// Whether a byte parts the words of a name.
fn is_separator(byte: u8) -> bool
    ensures { result ≡ is_separator byte }
{
    byte == b'-' || byte == b'_' || byte == b'.'
}

/// A separator as `-`, and a letter in lower case.
fn normal_byte(byte: u8) -> u8
    ensures { result ≡ normal_byte byte }
{
    if is_separator(byte) {
        b'-'
    } else {
        byte.to_ascii_lowercase()
    }
}
