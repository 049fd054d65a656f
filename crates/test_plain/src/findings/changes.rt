use crate::findings::contents::{Contents, Version};
use crate::findings::lines::Found;
use crate::findings::records::{BASE, Form, RECORDS, Record};
use cv_base::{NoMemory, Reason};
use std::alloc::Global;

/// A feed, the number of its records, and the generation of its last update or patch. Both are 0 as long as it does not stand.
#[derive(Clone, Copy)]
pub struct Feed {
    pub name: &'static str,
    pub stands: bool,
    pub code: u32,
    pub since: u64,
}

/// What is found for a package by a record of a feed, before an update and after it.
#[derive(Clone, Copy)]
pub struct Change {
    pub before: Option<Found<'static>>,
    pub after: Option<Found<'static>>,
}

/// What all packages of an image have with all records of all feeds, in the order of findings.
pub fn changes_of(
    alloc: Global,
    contents: Contents,
    before: &[Feed],
    after: &[Feed],
) -> Result<Vec<Change>, NoMemory> {
    let mut changes = Vec::new(alloc);
    add_package(&mut changes, contents.curl, before, after)?;
    add_package(&mut changes, contents.zlib, before, after)?;
    add_package(&mut changes, contents.x, before, after)?;
    add_package(&mut changes, contents.y, before, after)?;
    Ok(changes)
}

/// What a package has, if it is installed, with all records of all feeds.
fn add_package(
    changes: &mut Vec<Change>,
    version: Option<Version>,
    before: &[Feed],
    after: &[Feed],
) -> Result<(), NoMemory> {
    let Some(version) = version else {
        return Ok(());
    };
    for (old, new) in before.iter().zip(after) {
        add_changes(changes, version, new.name, old.code, new.code)?;
    }
    Ok(())
}

/// What a package has with each record of a feed that is about it.
fn add_changes(
    changes: &mut Vec<Change>,
    version: Version,
    feed: &'static str,
    before: u32,
    after: u32,
) -> Result<(), NoMemory> {
    let (mut old, mut new) = (before, after);
    for record in RECORDS.iter() {
        if record.package == version.package {
            changes.push(Change {
                before: found(version, feed, record, old % BASE),
                after: found(version, feed, record, new % BASE),
            })?;
        }
        old /= BASE;
        new /= BASE;
    }
    Ok(())
}

/// What is found by a record, if the version of the package has the flaw.
fn found(
    version: Version,
    feed: &'static str,
    record: &'static Record,
    digit: u32,
) -> Option<Found<'static>> {
    let fixed = match record.form(digit) {
        Form::Absent | Form::Withdrawn => return None,
        Form::Unfixed => "none",
        Form::Fixed(fix) if version.rank < fix.rank => fix.text,
        Form::Fixed(_) => return None,
    };
    Some(Found {
        package: version.package,
        version: version.text,
        feed,
        advisory: record.id,
        fixed,
    })
}

impl Change {
    /// The row, if there is one.
    pub fn row(&self) -> Option<(Reason, Found<'static>)> {
        match (self.before, self.after) {
            (None, None) => None,
            (None, Some(new)) => Some((Reason::Added, new)),
            (Some(old), None) => Some((Reason::Removed, old)),
            (Some(old), Some(new)) if old.fixed != new.fixed => Some((Reason::Changed, new)),
            (Some(_), Some(_)) => None,
        }
    }
}
