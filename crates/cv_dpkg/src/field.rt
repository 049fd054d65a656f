//! Fields and their names.
ghost use Rattle.std.specs.Prelude.{◌≡◌};
ghost use Rattle.std.specs.Option.{option_map};
ghost use Rattle.cv_dpkg.specs.Fields.{is_name, named, pair_in};
ghost use Rattle.cv_dpkg.specs.code.Names.{entry_of, name_cmp};

use cv_base::{are_printing, cut_at, is_same_name, trim_front};
use cv_order::compare_in_lower_case;
use std::cmp::Ordering;

/// The fields that are used. Every other one is ignored.
#[derive(Clone, Copy, PartialEq, Eq)]
pub enum Field {
    Package,
    Status,
    Version,
    Source,
    Architecture,
    Unused,
}

/// A field's name and its value.
#[derive(Clone, Copy)]
pub struct Entry<'a> {
    pub name: &'a [u8],
    pub value: &'a [u8],
}

/// A line with a colon as a field.
pub fn split_field(line: &[u8]) -> Option<Entry<'_>>
    ensures { option_map entry_of result ≡ pair_in line.now }
{
    let (name, value) = cut_at(line, b':')?;
    Some(Entry {
        name,
        value: trim_front(value),
    })
}

/// Whether a text may be the name of a field.
pub fn is_name(name: &[u8]) -> bool
    ensures { result ≡ is_name name.now }
{
    match name {
        [] | [b'#' | b'-', ..] => false,
        _ => are_printing(name),
    }
}

/// The field that a name names.
pub fn named(name: &[u8]) -> Field
    ensures { result ≡ named name.now }
{
    if is_same_name(name, b"Package") {
        Field::Package
    } else if is_same_name(name, b"Status") {
        Field::Status
    } else if is_same_name(name, b"Version") {
        Field::Version
    } else if is_same_name(name, b"Source") {
        Field::Source
    } else if is_same_name(name, b"Architecture") {
        Field::Architecture
    } else {
        Field::Unused
    }
}

/// The order of names, which are not case-sensitive in ASCII.
pub fn name_order(one: &[u8], other: &[u8]) -> Ordering
    ensures { result ≡ name_cmp one.now other.now }
{
    compare_in_lower_case(one, other)
}
