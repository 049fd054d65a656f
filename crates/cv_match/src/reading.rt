ghost use Rattle.std.specs.Prelude.{◌≡◌, IfOk, map};
ghost use Rattle.cv_match.specs.code.Entries.{entry_text, prepared_entry};
ghost use Rattle.cv_match_range.specs.ReadRange.{events_of, range_text};

use crate::entry::PreparedEntry;
use cv_base::{Affected, NoMemory, PackageKind, Range, Seq};
use cv_match_range::{Placed, Version, prepare_range};
use std::alloc::Global;

/// The entries of a record, with each version read once.
pub(crate) fn prepare_entries<V: Version>(
    alloc: Global,
    kind: PackageKind,
    entries: &[Affected],
) -> Result<Seq<PreparedEntry<V>>, NoMemory>
    requires { kind ≡ V.kind }
    ensures { IfOk result (λ prepared. map (entry_text V.text) prepared ≡ map (prepared_entry V.kind) entries.now) }
{
    let mut prepared = Vec::new(alloc);
    for entry in entries {
        prepared.push(prepare_entry(alloc, kind, entry)?)?;
    }
    Ok(Seq::of(prepared))
}

fn prepare_entry<V: Version>(
    alloc: Global,
    kind: PackageKind,
    entry: &Affected,
) -> Result<PreparedEntry<V>, NoMemory>
    requires { kind ≡ V.kind }
    ensures { IfOk result (λ prepared. entry_text V.text prepared ≡ prepared_entry V.kind entry.now) }
{
    Ok(PreparedEntry {
        package: entry.package.clone()?,
        ranges: prepare_ranges(alloc, kind, entry.ranges.as_slice())?,
        versions: entry.versions.clone()?,
    })
}

fn prepare_ranges<V: Version>(
    alloc: Global,
    kind: PackageKind,
    ranges: &[Range],
) -> Result<Seq<Option<Seq<Placed<V>>>>, NoMemory>
    requires { kind ≡ V.kind }
    ensures { IfOk result (λ prepared. map (range_text V.text) prepared ≡ map (events_of V.kind) ranges.now) }
{
    let mut prepared = Vec::new(alloc);
    for range in ranges {
        prepared.push(prepare_range(alloc, kind, range)?)?;
    }
    Ok(Seq::of(prepared))
}
