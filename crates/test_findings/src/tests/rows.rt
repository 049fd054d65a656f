ghost use Rattle.std.specs.Prelude.{IfOk};
ghost use Rattle.std.specs.List.Sorted.{IsStrictlySortedBy};
ghost use Rattle.cv_match.specs.Findings.{finding_cmp};

use cv_base::{Digest, Finding, NoMemory, Row, Seq, Text};
use cv_findings::rows;
use cv_match::in_order;
use std::alloc::Global;
use std::test::Fail;
use test_data::debian_package;

/// The package of a finding, its advisory and the fixed version.
type FindingRow = (&'static str, &'static str, &'static str);

const BEFORE: &[FindingRow] = &[
    ("curl", "X-1", "2"),
    ("curl", "X-2", "2"),
    ("zlib", "X-3", "2"),
];

const AFTER: &[FindingRow] = &[
    ("curl", "X-2", "3"),
    ("zlib", "X-3", "2"),
    ("zlib", "X-4", "2"),
];

const CHANGES: &str = "\
Removed X-1 2
Changed X-2 3
Added X-4 2
";

/// A finding of the feed `deb`.
fn finding(alloc: Global, row: &FindingRow) -> Result<Finding, Fail> {
    let (name, advisory, fixed) = *row;
    Ok(Finding {
        package: debian_package(alloc, name)?,
        feed: Text::of(alloc, "deb")?,
        advisory: Text::of(alloc, advisory)?,
        fixed: Some(Text::of(alloc, fixed)?),
    })
}

fn sorted(alloc: Global, rows: &[FindingRow]) -> Result<Seq<Finding>, Fail>
    ensures { IfOk result (λ out. IsStrictlySortedBy finding_cmp out) }
{
    let mut all = Vec::new(alloc);
    for row in rows {
        all.push(finding(alloc, row)?)?;
    }
    Ok(in_order(alloc, all)?)
}

/// The reason of a row, its advisory and the fixed version.
fn line(alloc: Global, row: &Row) -> Result<String, NoMemory> {
    let fixed = match &row.finding.fixed {
        Some(text) => text.as_str(),
        None => "none",
    };
    let advisory = row.finding.advisory.as_str();
    Ok(format!(in alloc; "{:?} {advisory} {fixed}\n", row.reason)?)
}

/// The rows between two lists of findings of an image, a line each.
fn changes(alloc: Global, before: &[FindingRow], after: &[FindingRow]) -> Result<String, Fail> {
    let before = sorted(alloc, before)?;
    let after = sorted(alloc, after)?;
    let image = Digest::of([1; 32]);
    let found = rows(alloc, image, before.as_slice(), after.as_slice())?;
    let mut lines = String::new(alloc);
    for row in found.as_slice() {
        lines.push_str(line(alloc, row)?.as_str())?;
    }
    Ok(lines)
}

#[test]
fn rows_name_removed_changed_and_added_findings(rt: HostRuntime) -> Result<(), Fail> {
    assert_eq!(rt; changes(rt.alloc(), BEFORE, AFTER)?.as_str(), CHANGES);
    Ok(())
}
