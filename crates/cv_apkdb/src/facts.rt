//! What the lines of a package say.
ghost use Rattle.std.specs.Prelude.{◌≡◌, ◌++◌, IfOk, Some, option_and_then, unwrap_or};
ghost use Rattle.std.specs.Option.{option_map};
ghost use Rattle.cv_base.specs.Answer.{MatchesUnlessOutOfMemory};
ghost use Rattle.cv_base.specs.Texts.{filled};
ghost use Rattle.cv_apkdb.specs.Installed.{whole_fault};
ghost use Rattle.cv_apkdb.specs.Package.{package_in, package_of};
ghost use Rattle.cv_apkdb.specs.code.Steps.{entry_step, facts_view};

use crate::letter::{Entry, Letter};
use crate::package::ApkPackage;
use crate::value::{new_filled_value, new_value};
use cv_base::{NoMemory, Text, What};
use std::alloc::Global;

/// The values of the used letters so far. All of them are borrowed from the file.
#[derive(Clone, Copy)]
pub struct Facts<'a> {
    pub name: Option<&'a str>,
    pub version: Option<&'a str>,
    pub arch: Option<&'a str>,
    pub origin: Option<&'a str>,
}

impl<'a> Facts<'a> {
    /// Adds an entry, unless it is bad.
    pub fn add(&mut self, entry: Entry<'a>) -> Result<(), What>
        ensures { MatchesUnlessOutOfMemory Some (λ _. facts_view self.new) result (entry_step entry.entry.letter entry.entry.value.now (facts_view self.old)) }
    {
        match entry.letter {
            Letter::Name => self.name = Some(new_filled_value(self.name, entry.value)?),
            Letter::Version => self.version = Some(new_filled_value(self.version, entry.value)?),
            Letter::Arch => self.arch = Some(new_value(self.arch, entry.value)?),
            Letter::Origin => self.origin = Some(new_value(self.origin, entry.value)?),
            Letter::Unused => {}
        }
        Ok(())
    }

    /// The fault of the package as a whole.
    pub fn fault(&self) -> Option<What>
        ensures { result ≡ whole_fault (facts_view self.now) }
    {
        if self.name.is_none() {
            Some(What::NoName)
        } else if self.version.is_none() {
            Some(What::NoVersion)
        } else {
            None
        }
    }

    /// Adds the package.
    pub fn push_package(&self, alloc: Global, found: &mut Vec<ApkPackage>) -> Result<(), NoMemory>
        ensures { IfOk result (λ _. found.new.items ≡ found.old.items ++ package_in (facts_view self.now)) }
    {
        if let (Some(name), Some(version)) = (self.name, self.version) {
            found.push(self.package(alloc, name, version)?)?;
        }
        Ok(())
    }

    fn package(&self, alloc: Global, name: &str, version: &str) -> Result<ApkPackage, NoMemory>
        ensures { IfOk result (λ p. p ≡ package_of name.now version.now (facts_view self.now)) }
    {
        let name = Text::of(alloc, name)?;
        let version = Text::of(alloc, version)?;
        let arch = Text::of(alloc, self.arch.unwrap_or(""))?;
        let origin = filled_or(alloc, self.origin, &name)?;
        Ok(ApkPackage {
            name,
            version,
            arch,
            origin,
        })
    }
}

/// A text that is not empty, or else the other one, whose bytes are then shared.
fn filled_or(alloc: Global, text: Option<&str>, other: &Text) -> Result<Text, NoMemory>
    ensures { IfOk result (λ t. t ≡ unwrap_or (option_and_then filled (option_map (λ s. s.now) text.entry)) other.now) }
{
    let Some(text) = text else {
        return Ok(other.clone()?);
    };
    if text.is_empty() {
        Ok(other.clone()?)
    } else {
        Text::of(alloc, text)
    }
}
