//! What the lines of a paragraph say of its package.
ghost use Rattle.std.specs.Prelude.{◌≡◌, ◌++◌, IfOk, MatchResult, None, Some, codes, unwrap_or};
ghost use Rattle.std.specs.Option.{option_map};
ghost use Rattle.cv_base.specs.Answer.{MatchesUnlessOutOfMemory};
ghost use Rattle.cv_base.specs.Texts.{same};
ghost use Rattle.cv_base.specs.declared.fault.What.TheVariants as what;
ghost use Rattle.cv_stanza.specs.code.Steps.{or_fault};
ghost use Rattle.cv_dpkg.specs.Fields.{origin_of, state_of};
ghost use Rattle.cv_dpkg.specs.Status.{counts, is_gone, is_missing, package_in, package_of, value_fault, whole_fault};
ghost use Rattle.cv_dpkg.specs.code.Steps.{facts_view, nothing, source_view, value_step};
ghost use Rattle.cv_dpkg.specs.declared.field.Field.TheVariants as field;

use crate::field::Field;
use crate::package::DebPackage;
use crate::rule::StatusRule;
use crate::value::{Source, origin_of, state_of};
use cv_base::{NoMemory, Text, What, printing_text};
use std::alloc::Global;

/// What the lines so far say. All of it is borrowed from the file.
#[derive(Clone, Copy)]
pub struct Facts<'a> {
    pub name: Option<&'a str>,
    /// The third word of Status.
    pub state: Option<&'a [u8]>,
    pub version: Option<&'a str>,
    pub source: Option<&'a str>,
    pub source_version: Option<&'a str>,
    pub arch: Option<&'a str>,
}

impl<'a> Facts<'a> {
    /// Before the first field nothing is known.
    pub fn new() -> Facts<'a>
        ensures { facts_view result ≡ nothing }
    {
        Facts {
            name: None,
            state: None,
            version: None,
            source: None,
            source_version: None,
            arch: None,
        }
    }

    /// Adds the value of a field, unless it is bad.
    pub fn add(&mut self, field: Field, value: &'a [u8]) -> Result<(), What>
        ensures { MatchesUnlessOutOfMemory Some (λ _. facts_view self.new) result (value_step field value.now (facts_view self.old)) }
    {
        match field {
            Field::Package => self.name = Some(filled_value(value)?),
            Field::Status => self.state = Some(state_value(value)?),
            Field::Version => self.version = Some(printing_value(value)?),
            Field::Source => {
                let source = source_value(value)?;
                self.source = source.name;
                self.source_version = source.version;
            }
            Field::Architecture => self.arch = Some(printing_value(value)?),
            Field::Unused => {}
        }
        Ok(())
    }

    /// The fault of the paragraph as a whole.
    pub fn fault(&self, rule: StatusRule) -> Option<What>
        ensures { result ≡ whole_fault rule (facts_view self.now) }
    {
        if self.name.is_none() {
            Some(What::NoPackage)
        } else if self.state.is_none() && rule == StatusRule::Needed {
            Some(What::BadStatus)
        } else if self.counts() && self.lacks_version() {
            Some(What::NoVersion)
        } else {
            None
        }
    }

    /// Whether there is no version, or an empty one.
    fn lacks_version(&self) -> bool
        ensures { result ≡ is_missing (facts_view self.now).version }
    {
        match self.version {
            None => true,
            Some(version) => version.is_empty(),
        }
    }

    /// Whether the package counts as installed.
    fn counts(&self) -> bool
        ensures { result ≡ counts (facts_view self.now).state (facts_view self.now).version }
    {
        match self.state {
            None => true,
            Some(state) => !(is_gone(state) || (is_half_installed(state) && self.lacks_version())),
        }
    }

    /// Adds the package, if it counts.
    pub fn push_package(&self, alloc: Global, found: &mut Vec<DebPackage>) -> Result<(), NoMemory>
        ensures { IfOk result (λ _. found.new.items ≡ found.old.items ++ package_in (facts_view self.now)) }
    {
        if !self.counts() {
            return Ok(());
        }
        let Some(name) = self.name else {
            return Ok(());
        };
        let Some(version) = self.version else {
            return Ok(());
        };
        let package = self.package(alloc, name, version)?;
        Ok(found.push(package)?)
    }

    fn package(&self, alloc: Global, name: &str, version: &str) -> Result<DebPackage, NoMemory>
        ensures { IfOk result (λ p. p ≡ package_of name.now version.now (facts_view self.now)) }
    {
        let name = Text::of(alloc, name)?;
        let version = Text::of(alloc, version)?;
        let source = text_or(alloc, self.source, &name)?;
        let source_version = text_or(alloc, self.source_version, &version)?;
        let arch = Text::of(alloc, self.arch.unwrap_or(""))?;
        Ok(DebPackage {
            name,
            version,
            source,
            source_version,
            arch,
        })
    }
}

/// A value of printing bytes.
fn printing_value(value: &[u8]) -> Result<&str, What>
    ensures { MatchesUnlessOutOfMemory Some (λ text. text.now) result (or_fault (value_fault field.Version value.now) value.now) }
{
    match printing_text(value) {
        Some(text) => Ok(text),
        None => Err(What::BadValue),
    }
}

/// A value of printing bytes, at least one.
fn filled_value(value: &[u8]) -> Result<&str, What>
    ensures { MatchesUnlessOutOfMemory Some (λ text. text.now) result (or_fault (value_fault field.Package value.now) value.now) }
{
    if value.is_empty() {
        return Err(What::BadValue);
    }
    printing_value(value)
}

/// The state in a value of Status.
fn state_value(value: &[u8]) -> Result<&[u8], What>
    ensures { MatchResult result (λ state. state_of value.now ≡ Some state.now) (λ error. (state_of value.now ≡ None) × (error ≡ what.BadStatus)) }
{
    match state_of(value) {
        Some(state) => Ok(state),
        None => Err(What::BadStatus),
    }
}

/// The source in a value of Source.
fn source_value(value: &[u8]) -> Result<Source<'_>, What>
    ensures { MatchResult result (λ source. origin_of value.now ≡ Some (source_view source)) (λ error. (origin_of value.now ≡ None) × (error ≡ what.BadValue)) }
{
    match origin_of(value) {
        Some(source) => Ok(source),
        None => Err(What::BadValue),
    }
}

/// A text of its own, or else the other one, whose bytes are then shared.
fn text_or(alloc: Global, text: Option<&str>, other: &Text) -> Result<Text, NoMemory>
    ensures { IfOk result (λ t. t ≡ unwrap_or (option_map (λ s. s.now) text.entry) other.now) }
{
    match text {
        Some(text) => Text::of(alloc, text),
        None => Ok(other.clone()?),
    }
}

fn is_gone(state: &[u8]) -> bool
    ensures { result ≡ is_gone state.now }
{
    state == b"not-installed".as_slice() || state == b"config-files".as_slice()
}

fn is_half_installed(state: &[u8]) -> bool
    ensures { result ≡ same state.now (codes "half-installed") }
{
    state == b"half-installed".as_slice()
}
