//! A whole file os-release.
ghost use Rattle.std.specs.Prelude.{◌≡◌, IfOk, IsTrue, codes, unwrap_or};
ghost use Rattle.cv_base.specs.Texts.{filled};
ghost use Rattle.cv_stanza.specs.Values.{last_value};
ghost use Rattle.cv_osrel.specs.System.{is_name, lines, os_of, value_by, value_in};

use crate::assignment::value_by;
use crate::name::OsName;
use crate::text::next_line;
use cv_base::{NoMemory, Text};
use std::alloc::Global;

/// The system that a file os-release names.
///
/// Nothing is refused: a line that is not a valid assignment is ignored. One pass over the bytes for each of the two names.
pub fn read_os(alloc: Global, bytes: &[u8]) -> Result<OsName, NoMemory>
    ensures { IfOk result (λ os. os ≡ os_of bytes.now) }
{
    let id = id_in(alloc, bytes)?;
    let version = value_in(alloc, b"VERSION_ID", bytes)?;
    Ok(OsName { id, version })
}

fn id_in(alloc: Global, bytes: &[u8]) -> Result<Text, NoMemory>
    ensures { IfOk result (λ id. id ≡ unwrap_or (value_in (codes "ID") bytes.now) (codes "linux")) }
{
    match value_in(alloc, b"ID", bytes)? {
        Some(id) => Ok(id),
        None => Text::of(alloc, "linux"),
    }
}

/// The value of a name, unless it is absent or empty.
fn value_in(alloc: Global, name: &[u8], bytes: &[u8]) -> Result<Option<Text>, NoMemory>
    requires { IsTrue (is_name name.now) }
    ensures { IfOk result (λ value. value ≡ value_in name.now bytes.now) }
{
    match last_value(alloc, name, bytes)? {
        Some(value) => Ok(filled(value)),
        None => Ok(None),
    }
}

fn filled(value: Text) -> Option<Text>
    ensures { result ≡ filled value }
{
    if value.as_str().is_empty() {
        None
    } else {
        Some(value)
    }
}

/// The value of the last assignment of a name.
#[tactic(auto, using(crate::proofs::Lasts::last_more))]
fn last_value(alloc: Global, name: &[u8], bytes: &[u8]) -> Result<Option<Text>, NoMemory>
    requires { IsTrue (is_name name.now) }
    ensures { IfOk result (λ value. value ≡ last_value (value_by name.now) (lines bytes.now)) }
{
    let mut last = None;
    let mut remaining = Some(bytes);
    while let Some(rest) = remaining {
        let (line, after) = next_line(rest);
        if let Some(value) = value_by(alloc, name, line)? {
            last = Some(value);
        }
        remaining = after;
    }
    Ok(last)
}
