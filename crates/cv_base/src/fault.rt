ghost use Rattle.std.specs.Prelude.{◌≡◌};
ghost use Rattle.cv_base.specs.declared.fault.ReadBad.TheVariants as error;

use cv_seq::NoMemory;
use thiserror::Error;

/// What is wrong with a line of a package database: dpkg's status (deb-control(5), dpkg(1)) or apk's installed database.
#[derive(Clone, Copy, Debug, PartialEq, Eq)]
pub enum What {
    /// No colon follows the name of a field.
    NoColon,
    /// The name of a field is empty, begins with `#` or `-`, or has a byte that does not print.
    BadField,
    /// The field stands in this paragraph twice.
    RepeatedField,
    /// A continuation line is the first line of its paragraph.
    LooseContinuation,
    /// A paragraph has no field Package. Reported at its last line.
    NoPackage,
    /// An installed package has no version. Reported at its last line.
    NoVersion,
    /// A status is missing, or is not three words of which the third is a known state. A missing one is reported at
    /// the last line of the paragraph.
    BadStatus,
    /// A value that is used is empty, has a byte that does not print, or is not of its form.
    BadValue,
    /// A package of apk has no name. Reported at its last line.
    NoName,
    /// The letter stands in this package of apk twice.
    Repeated,
}

/// The first bad line of a package database. Lines are numbered from 1.
#[derive(Clone, Copy, Debug, PartialEq, Eq)]
pub struct FileBad {
    pub line: u64,
    pub what: What,
}

/// Why a package database was not read.
#[derive(Clone, Copy, Debug, PartialEq, Eq, Error)]
pub enum ReadBad {
    #[error("line {} is bad", .0.line)]
    Bad(FileBad),
    #[error("out of memory")]
    NoMemory,
}

impl ReadBad {
    /// The fault of a line.
    pub fn at(line: u64, what: What) -> ReadBad
        ensures { result ≡ error.Bad (record { line = line; what = what }) }
    {
        ReadBad::Bad(FileBad { line, what })
    }
}

impl From<NoMemory> for ReadBad {
    ghost from_gives = { λ _ e. e ≡ error.NoMemory };

    fn from(_error: NoMemory) -> ReadBad {
        ReadBad::NoMemory
    }
}
