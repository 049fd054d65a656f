ghost use Rattle.std.specs.Prelude.{◌≡◌};

use crate::package::PackageName;
use cv_seq::{Seq, Text};
use std::alloc::AllocError;

/// An event of a range, after the OSV schema: at this version the flaw comes in or is gone.
#[derive(Clone, Debug, PartialEq, Eq, Drop)]
pub enum Turn {
    Introduced(Text),
    Fixed(Text),
    LastAffected(Text),
    Limit(Text),
}

/// The order of a range's versions, after the OSV schema: the ecosystem's own, or that of semantic
/// versions. Every other type is `Other`, and nothing is within such a range.
#[derive(Clone, Copy, Debug, PartialEq, Eq)]
pub enum RangeKind {
    Ecosystem,
    Semver,
    Other,
}

/// A range of versions, given by its events.
#[derive(Debug, PartialEq, Eq, Drop)]
pub struct Range {
    pub kind: RangeKind,
    pub turns: Seq<Turn>,
}

/// One affected entry of an advisory: a package, with the versions that have the flaw.
#[derive(Debug, PartialEq, Eq, Drop)]
pub struct Affected {
    pub package: Option<PackageName>,
    pub ranges: Seq<Range>,
    pub versions: Seq<Text>,
}

/// A record of the OSV schema, with the fields that matching needs.
#[derive(Clone, Debug, PartialEq, Eq, Drop)]
pub struct Advisory {
    pub id: Text,
    pub modified: Text,
    pub withdrawn: bool,
    pub affected: Seq<Affected>,
}

impl Clone for Range {
    ghost is_clone = { λ x y. y ≡ x };

    fn clone(&self) -> Result<Range, AllocError> {
        Ok(Range {
            kind: self.kind,
            turns: self.turns.clone()?,
        })
    }
}

impl Clone for Affected {
    ghost is_clone = { λ x y. y ≡ x };

    fn clone(&self) -> Result<Affected, AllocError> {
        Ok(Affected {
            package: self.package.clone()?,
            ranges: self.ranges.clone()?,
            versions: self.versions.clone()?,
        })
    }
}
