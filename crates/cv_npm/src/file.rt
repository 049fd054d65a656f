//! A whole package.json.
ghost use Rattle.std.specs.Prelude.{◌≡◌, IfOk};
ghost use Rattle.std.specs.Option.{option_map};
ghost use Rattle.serde_json.specs.View.{view};
ghost use Rattle.cv_npm.specs.Npm.{npm, package_in, text_at};

use crate::package::NpmPackage;
use cv_base::{NoMemory, Text};
use serde_json::Value;
use std::alloc::Global;
use std::str;

/// The package that a package.json names, or none if it has no name or no version that is a text and not empty.
///
/// What is JSON is what `serde_json` reads. Only the two texts are copied out of it.
#[tactic(auto, using(cv_seq::proofs::Utf8::text_found, cv_seq::proofs::Utf8::none_found))]
pub fn read_package(alloc: Global, bytes: &[u8]) -> Result<Option<NpmPackage>, NoMemory>
    ensures { IfOk result (λ found. found ≡ npm bytes.now) }
{
    let Ok(text) = str::from_utf8(bytes) else {
        return Ok(None);
    };
    match Value::from_str(alloc, text) {
        Ok(value) => package_in(alloc, &value),
        Err(error) => {
            if error.is_memory() {
                Err(NoMemory)
            } else {
                Ok(None)
            }
        }
    }
}

/// The package that a value names.
fn package_in(alloc: Global, value: &Value) -> Result<Option<NpmPackage>, NoMemory>
    ensures { IfOk result (λ found. found ≡ package_in (view value.now)) }
{
    let Some(name) = text_at(value, "name") else {
        return Ok(None);
    };
    let Some(version) = text_at(value, "version") else {
        return Ok(None);
    };
    Ok(Some(NpmPackage {
        name: Text::of(alloc, name)?,
        version: Text::of(alloc, version)?,
    }))
}

/// A member that is a text and not empty.
fn text_at<'a>(value: &'a Value, key: &str) -> Option<&'a str>
    ensures { option_map (λ s. s.now) result ≡ text_at key.now (view value.now) }
{
    let text = value.get(key)?.as_str()?;
    if text.is_empty() { None } else { Some(text) }
}
