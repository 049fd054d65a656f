ghost use Rattle.std.specs.Prelude.{◌≡◌, ◌∷◌, ◌++◌, [], IfOk, OnOk, map};
ghost use Rattle.std.specs.List.Sorted.{IsStrictlySortedBy};
ghost use Rattle.cv_match.specs.Findings.{finding_cmp};
ghost use Rattle.cv_findings.specs.Rows.{row_about, rows_of, same_fix};
ghost use Rattle.cv_findings.specs.code.Walk.{change_between, walked};

use cv_base::{Digest, Finding, NoMemory, Reason, Row, Seq, Text};
use cv_match::compare_packages;
use std::alloc::Global;
use std::cmp::Ordering;

/// The rows about an image after an update, sorted by package, feed and id of the advisory: `Removed` for a finding that is
/// gone, `Added` for one that is new, and `Changed`, with the finding after the update, where only the fixed version
/// differs. The time is linear in both lists.
pub fn rows(
    alloc: Global,
    image: Digest,
    before: &[Finding],
    after: &[Finding],
) -> Result<Seq<Row>, NoMemory>
    requires before { IsStrictlySortedBy finding_cmp before.now }
    requires after { IsStrictlySortedBy finding_cmp after.now }
    ensures { IfOk result (λ rows. rows ≡ rows_of image before.now after.now) }
{
    let rows = walk(alloc, image, before, after)?;
    Ok(Seq::of(rows))
}

/// The rows, by a walk over both lists.
fn walk(
    alloc: Global,
    image: Digest,
    before: &[Finding],
    after: &[Finding],
) -> Result<Vec<Row>, NoMemory>
    ensures { IfOk result (λ rows. rows.items ≡ walked image before.now after.now) }
{
    let mut rows = Vec::new(alloc);
    let (mut left, mut right) = (before, after);
    while let [old, olds @ ..] = left {
        let [new, news @ ..] = right else {
            add_all(&mut rows, image, Reason::Removed, left)?;
            return Ok(rows);
        };
        match compare(old, new) {
            Ordering::Less => {
                add(&mut rows, image, Reason::Removed, old)?;
                left = olds;
            }
            Ordering::Equal => {
                add_change(&mut rows, image, old, new)?;
                left = olds;
                right = news;
            }
            Ordering::Greater => {
                add(&mut rows, image, Reason::Added, new)?;
                right = news;
            }
        }
    }
    add_all(&mut rows, image, Reason::Added, right)?;
    Ok(rows)
}

/// Compares by package, then feed, then id of the advisory.
fn compare(one: &Finding, other: &Finding) -> Ordering
    ensures { result ≡ finding_cmp one.now other.now }
{
    compare_packages(&one.package, &other.package)
        .then_with(|| one.feed.cmp(&other.feed))
        .then_with(|| one.advisory.cmp(&other.advisory))
}

fn add_all(
    rows: &mut Vec<Row>,
    image: Digest,
    reason: Reason,
    findings: &[Finding],
) -> Result<(), NoMemory>
    ensures { OnOk result (rows.new.items ≡ rows.old.items ++ map (row_about image reason) findings.now) }
{
    for finding in findings {
        add(rows, image, reason, finding)?;
    }
    Ok(())
}

/// Adds a row for the new finding, if its fixed version differs.
fn add_change(
    rows: &mut Vec<Row>,
    image: Digest,
    old: &Finding,
    new: &Finding,
) -> Result<(), NoMemory>
    ensures { OnOk result (rows.new.items ≡ rows.old.items ++ change_between image old.now new.now) }
{
    if same_fix(&old.fixed, &new.fixed) {
        return Ok(());
    }
    add(rows, image, Reason::Changed, new)
}

fn same_fix(one: &Option<Text>, other: &Option<Text>) -> bool
    ensures { result ≡ same_fix one.now other.now }
{
    *one == *other
}

fn add(
    rows: &mut Vec<Row>,
    image: Digest,
    reason: Reason,
    finding: &Finding,
) -> Result<(), NoMemory>
    ensures { OnOk result (rows.new.items ≡ rows.old.items ++ row_about image reason finding.now ∷ []) }
{
    rows.push(row_about(image, reason, finding)?)?;
    Ok(())
}

fn row_about(image: Digest, reason: Reason, finding: &Finding) -> Result<Row, NoMemory>
    ensures { IfOk result (λ made. made ≡ row_about image reason finding.now) }
{
    Ok(Row {
        image,
        reason,
        finding: finding.clone()?,
    })
}
