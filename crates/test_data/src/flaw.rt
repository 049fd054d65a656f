ghost use Rattle.std.specs.Prelude.{◌≡◌, IfOk};

use cv_base::{Advisory, Affected, NoMemory, PackageName, Range, RangeKind, Seq, Text, Turn};
use std::alloc::Global;

/// A record about one package. Each of its ranges has the version with the flaw, and the version with the fix, if there is one.
#[derive(Clone, Copy)]
pub struct Flaw<'a> {
    pub id: &'a str,
    pub modified: &'a str,
    pub withdrawn: bool,
    pub ecosystem: &'a str,
    pub name: &'a str,
    pub kind: RangeKind,
    pub ranges: &'a [(&'a str, Option<&'a str>)],
}

/// The record.
pub fn advisory(alloc: Global, flaw: &Flaw<'_>) -> Result<Advisory, NoMemory>
    ensures { IfOk result (λ made. made.withdrawn ≡ flaw.now.withdrawn) }
{
    let affected = vec![in alloc; affected(alloc, flaw)?]?;
    Ok(Advisory {
        id: Text::of(alloc, flaw.id)?,
        modified: Text::of(alloc, flaw.modified)?,
        withdrawn: flaw.withdrawn,
        affected: Seq::of(affected),
    })
}

fn affected(alloc: Global, flaw: &Flaw<'_>) -> Result<Affected, NoMemory> {
    let package = PackageName {
        ecosystem: Text::of(alloc, flaw.ecosystem)?,
        name: Text::of(alloc, flaw.name)?,
    };
    Ok(Affected {
        package: Some(package),
        ranges: Seq::of(ranges(alloc, flaw)?),
        versions: Seq::of(Vec::new(alloc)),
    })
}

fn ranges(alloc: Global, flaw: &Flaw<'_>) -> Result<Vec<Range>, NoMemory> {
    let mut ranges = Vec::new(alloc);
    for (introduced, fixed) in flaw.ranges {
        ranges.push(Range {
            kind: flaw.kind,
            turns: Seq::of(turns(alloc, introduced, *fixed)?),
        })?;
    }
    Ok(ranges)
}

fn turns(alloc: Global, introduced: &str, fixed: Option<&str>) -> Result<Vec<Turn>, NoMemory> {
    let mut turns = Vec::new(alloc);
    turns.push(Turn::Introduced(Text::of(alloc, introduced)?))?;
    if let Some(fixed) = fixed {
        turns.push(Turn::Fixed(Text::of(alloc, fixed)?))?;
    }
    Ok(turns)
}
