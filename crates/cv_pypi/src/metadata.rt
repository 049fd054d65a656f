//! A whole metadata file.
ghost use Rattle.std.specs.Prelude.{◌≡◌, IfOk, option_and_then};
ghost use Rattle.std.specs.Option.{option_map};
ghost use Rattle.cv_pypi.specs.Metadata.{printed, pypi};

use crate::header::first_fields;
use crate::name::normalized;
use crate::package::PypiPackage;
use cv_base::{NoMemory, Text, printing_text};
use std::alloc::Global;

/// The package that a metadata file names, or none if its first `Name` or its first `Version` is absent, empty, or has a
/// byte that does not print.
///
/// Nothing is refused. One pass over the header; what stands after the first empty line is not read.
pub fn read_metadata(alloc: Global, bytes: &[u8]) -> Result<Option<PypiPackage>, NoMemory>
    ensures { IfOk result (λ found. found ≡ pypi bytes.now) }
{
    let fields = first_fields(bytes);
    let Some(name) = printed(fields.name) else {
        return Ok(None);
    };
    let Some(version) = printed(fields.version) else {
        return Ok(None);
    };
    Ok(Some(PypiPackage {
        name: Text::of(alloc, name)?,
        version: Text::of(alloc, version)?,
        source: normalized(alloc, name)?,
    }))
}

/// A value, if there is one, and if it is not empty and all its bytes print.
fn printed(value: Option<&[u8]>) -> Option<&str>
    ensures { option_map (λ text. text.now) result ≡ option_and_then printed (option_map (λ text. text.now) value.entry) }
{
    let value = value?;
    if value.is_empty() {
        None
    } else {
        printing_text(value)
    }
}
