use cv_base::{Advisory, NoMemory, RangeKind, Text};
use std::alloc::Global;
use test_data::{Flaw, advisory};

/// The names of the feeds, in ascending order.
pub static FEEDS: [&str; 3] = ["debian", "npm", "others"];

/// The records of a feed are a number with a digit for each record, the first one first, in this base.
pub const BASE: u32 = 8;

/// How many such numbers there are.
pub const CODES: u64 = 8 * 8 * 8 * 8 * 8;

/// A version that has a fix, with a number that grows as the versions of its package do.
#[derive(Clone, Copy)]
pub struct Fix {
    pub text: &'static str,
    pub rank: u32,
}

/// A record about a package, whose flaw is present from the start.
pub struct Record {
    pub id: &'static str,
    ecosystem: &'static str,
    name: &'static str,
    /// The name of the installed package that it is about.
    pub package: &'static str,
    kind: RangeKind,
    /// The versions that may have the fix. The last one is below those that are installed.
    first: Fix,
    second: Fix,
    below: Fix,
}

macro_rules! fix {
    ($text:literal, $rank:literal) => {
        Fix {
            text: $text,
            rank: $rank,
        }
    };
}

macro_rules! record {
    ($id:literal: $kind:ident $ecosystem:literal $name:literal as $package:literal; $($field:ident $text:literal $rank:literal),*) => {
        Record {
            id: $id,
            ecosystem: $ecosystem,
            name: $name,
            package: $package,
            kind: RangeKind::$kind,
            $($field: fix!($text, $rank),)*
        }
    };
}

/// All records, in ascending order of their ids.
pub static RECORDS: [Record; 5] = [
    record!("C-1": Ecosystem "Debian:12" "curl" as "curl"; first "8.4" 840, second "9" 900, below "7" 700),
    record!("C-2": Ecosystem "Debian" "curl" as "curl"; first "9" 900, second "10" 1000, below "7" 700),
    record!("X-1": Semver "npm" "x" as "x"; first "1.0.1" 101, second "1.1.0" 110, below "0.9.0" 90),
    record!("Y-1": Semver "npm" "y" as "y"; first "2.0.1" 201, second "3.0.0" 300, below "1.9.0" 190),
    record!("Z-1": Ecosystem "Debian:12" "zlib" as "zlib1g"; first "1:1.2.5" 1250, second "1:1.4" 1400, below "1:1.1" 1100),
];

/// What a feed has of a record.
#[derive(Clone, Copy)]
pub enum Form {
    Absent,
    Withdrawn,
    /// No version has the fix.
    Unfixed,
    Fixed(Fix),
}

/// The records of a number.
pub fn advisories(alloc: Global, code: u32) -> Result<Vec<Advisory>, NoMemory> {
    let mut advisories = Vec::new(alloc);
    let mut rest = code;
    for record in RECORDS.iter() {
        record.add(alloc, rest % BASE, &mut advisories)?;
        rest /= BASE;
    }
    Ok(advisories)
}

/// The ids of the records of a number.
pub fn ids_of(alloc: Global, code: u32) -> Result<Vec<Text>, NoMemory> {
    let mut ids = Vec::new(alloc);
    let mut rest = code;
    for record in RECORDS.iter() {
        if !is_absent(rest % BASE) {
            ids.push(Text::of(alloc, record.id)?)?;
        }
        rest /= BASE;
    }
    Ok(ids)
}

/// The number of records after a patch: each record that enters is as in the patch, and each other one that goes is absent.
pub fn patched(code: u32, entering: u32, gone: u32) -> u32 {
    let (mut old, mut new, mut out) = (code, entering, gone);
    let mut after: u32 = 0;
    let mut place: u32 = 1;
    for _ in RECORDS.iter() {
        let digit = patched_digit(old % BASE, new % BASE, out % BASE);
        after = after.wrapping_add(place.wrapping_mul(digit));
        place = place.wrapping_mul(BASE);
        old /= BASE;
        new /= BASE;
        out /= BASE;
    }
    after
}

fn patched_digit(old: u32, new: u32, out: u32) -> u32 {
    if !is_absent(new) {
        return new;
    }
    if is_absent(out) { old } else { 0 }
}

/// Whether a feed does not have a record of this digit.
fn is_absent(digit: u32) -> bool {
    digit < 2
}

/// The number of records, by words as `C-1=8.4`.
pub fn code_of(words: &str) -> u32 {
    let mut code: u32 = 0;
    for record in RECORDS.iter().rev() {
        code = code
            .wrapping_mul(BASE)
            .wrapping_add(digit_of(record, words));
    }
    code
}

/// The digit of a record.
fn digit_of(record: &Record, words: &str) -> u32 {
    for word in words.split(' ') {
        let (id, fix) = word.split_once('=').unwrap_or((word, ""));
        if id == record.id {
            return record.digit(fix);
        }
    }
    0
}

/// The feed of a name, if there is one.
pub fn feed_of(name: &str) -> Option<&'static str> {
    for feed in FEEDS.iter() {
        if *feed == name {
            return Some(*feed);
        }
    }
    None
}

impl Record {
    /// What a feed has of the record, by a digit.
    pub fn form(&self, digit: u32) -> Form {
        match digit {
            0 | 1 => Form::Absent,
            2 => Form::Withdrawn,
            3 => Form::Unfixed,
            4 | 5 => Form::Fixed(self.first),
            6 => Form::Fixed(self.second),
            _ => Form::Fixed(self.below),
        }
    }

    /// The digit by a word: `withdrawn`, the version with the fix, or any other word if none has it.
    fn digit(&self, word: &str) -> u32 {
        if word == "withdrawn" {
            2
        } else if word == self.first.text {
            4
        } else if word == self.second.text {
            6
        } else if word == self.below.text {
            7
        } else {
            3
        }
    }

    fn add(
        &self,
        alloc: Global,
        digit: u32,
        advisories: &mut Vec<Advisory>,
    ) -> Result<(), NoMemory> {
        let (withdrawn, fixed) = match self.form(digit) {
            Form::Absent => return Ok(()),
            Form::Withdrawn => (true, None),
            Form::Unfixed => (false, None),
            Form::Fixed(fix) => (false, Some(fix.text)),
        };
        let flaw = Flaw {
            id: self.id,
            modified: "2024-01-01T00:00:00Z",
            withdrawn,
            ecosystem: self.ecosystem,
            name: self.name,
            kind: self.kind,
            ranges: &[("0", fixed)],
        };
        advisories.push(advisory(alloc, &flaw)?)?;
        Ok(())
    }
}
