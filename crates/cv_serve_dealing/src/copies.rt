ghost use Rattle.std.specs.Prelude.{◌≡◌, IfOk};

use cv_base::{Finding, NoMemory, Row, Seq};
use std::alloc::Global;

/// Findings that are equal to these.
pub fn copy_findings(alloc: Global, findings: &[Finding]) -> Result<Seq<Finding>, NoMemory>
    ensures { IfOk result (λ copy. copy ≡ findings.now) }
{
    let mut copy = Vec::new(alloc);
    for finding in findings {
        copy.push(finding.clone()?)?;
    }
    Ok(Seq::of(copy))
}

/// Rows that are equal to these.
pub fn copy_rows(alloc: Global, rows: &[Row]) -> Result<Seq<Row>, NoMemory>
    ensures { IfOk result (λ copy. copy ≡ rows.now) }
{
    let mut copy = Vec::new(alloc);
    for row in rows {
        copy.push(row.clone()?)?;
    }
    Ok(Seq::of(copy))
}
