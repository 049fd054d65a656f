ghost use Rattle.std.specs.Prelude.{◌≡◌, IfOk};
ghost use Rattle.serde_json.specs.View.{view};
ghost use Rattle.cv_transcript.specs.Rows.{reason_name, row_data, rows_data};

use cv_base::{NoMemory, Reason, Row};
use cv_scan_output::{Object, finding_value};
use serde_json::Value;
use std::alloc::Global;

/// The JSON of a list of rows of a notification.
pub fn rows_value(alloc: Global, rows: &[Row]) -> Result<Value, NoMemory>
    ensures { IfOk result (λ value. view value ≡ rows_data rows.now) }
{
    let mut items = Vec::new(alloc);
    for row in rows {
        items.push(row_value(alloc, row)?)?;
    }
    Ok(Value::Array(items))
}

fn row_value(alloc: Global, row: &Row) -> Result<Value, NoMemory>
    ensures { IfOk result (λ value. view value ≡ row_data row.now) }
{
    Ok(
        Object::new(alloc)
            .value(alloc, "finding", finding_value(alloc, &row.finding)?)?
            .digest(alloc, "image", &row.image)?
            .text(alloc, "reason", reason_name(row.reason))?
            .done(),
    )
}

/// The printed name of a reason.
fn reason_name(reason: Reason) -> &'static str
    ensures { result.now ≡ reason_name reason }
{
    match reason {
        Reason::Added => "added",
        Reason::Removed => "removed",
        Reason::Changed => "changed",
    }
}
