ghost use Rattle.std.specs.Prelude.{◌≡◌, IfOk};
ghost use Rattle.serde_json.specs.View.{members_view, view};
ghost use Rattle.cv_transcript.specs.Read.{answer_members, head_data, heads_data, list_members, page_members, read_data, reply_members, report_members};

use crate::rows::rows_value;
use cv_base::NoMemory;
use cv_core_records::{Answer, NoticeHead, PageOutcome, ReadEntry, ReportOutcome};
use cv_scan_output::{Object, bad_value, findings_value};
use serde_json::Value;
use std::alloc::Global;

/// The JSON of a read with its answer.
pub fn read_value(alloc: Global, entry: &ReadEntry) -> Result<Value, NoMemory>
    ensures { IfOk result (λ value. view value ≡ read_data entry.now) }
{
    Ok(
        answer_object(alloc, &entry.answer)?
            .value(alloc, "line", Value::from(entry.line))?
            .value(alloc, "lane", Value::from(entry.lane))?
            .value(alloc, "at", Value::from(entry.front))?
            .done(),
    )
}

/// The query of a read, and the answer.
fn answer_object(alloc: Global, answer: &Answer) -> Result<Object, NoMemory>
    ensures { IfOk result (λ o. members_view o.map.entries ≡ answer_members answer.now) }
{
    match answer {
        Answer::Report { image, outcome } => report_object(alloc, outcome)?
            .text(alloc, "read", "report")?
            .digest(alloc, "image", image),
        Answer::Page {
            number,
            size,
            page,
            outcome,
        } => page_object(alloc, outcome)?
            .text(alloc, "read", "page")?
            .value(alloc, "page", Value::from(*page))?
            .value(alloc, "size", Value::from(*size))?
            .value(alloc, "number", Value::from(*number)),
        Answer::List(heads) => list_object(alloc, heads.as_slice()),
        Answer::NoMemory => replied(alloc, "no_memory"),
    }
}

/// What a report says of its image.
fn report_object(alloc: Global, outcome: &ReportOutcome) -> Result<Object, NoMemory>
    ensures { IfOk result (λ o. members_view o.map.entries ≡ report_members outcome.now) }
{
    match outcome {
        ReportOutcome::Good {
            generation,
            findings,
        } => replied(alloc, "good")?
            .value(alloc, "generation", Value::from(*generation))?
            .value(
                alloc,
                "findings",
                findings_value(alloc, findings.as_slice())?,
            ),
        ReportOutcome::Pending(layer) => replied(alloc, "pending")?.digest(alloc, "layer", layer),
        ReportOutcome::BadImage(bad) => {
            replied(alloc, "bad_image")?.value(alloc, "bad", bad_value(alloc, bad)?)
        }
        ReportOutcome::NotRegistered => replied(alloc, "not_registered"),
    }
}

/// What a page says.
fn page_object(alloc: Global, outcome: &PageOutcome) -> Result<Object, NoMemory>
    ensures { IfOk result (λ o. members_view o.map.entries ≡ page_members outcome.now) }
{
    match outcome {
        PageOutcome::Rows { pages, rows } => replied(alloc, "page")?
            .value(alloc, "rows", rows_value(alloc, rows.as_slice())?)?
            .value(alloc, "pages", Value::from(*pages)),
        PageOutcome::NoNotification => replied(alloc, "no_notification"),
        PageOutcome::NoPage { pages } => {
            replied(alloc, "no_page")?.value(alloc, "pages", Value::from(*pages))
        }
    }
}

/// The list of all notifications.
fn list_object(alloc: Global, heads: &[NoticeHead]) -> Result<Object, NoMemory>
    ensures { IfOk result (λ o. members_view o.map.entries ≡ list_members heads.now) }
{
    replied(alloc, "list")?
        .text(alloc, "read", "list")?
        .value(alloc, "notifications", heads_value(alloc, heads)?)
}

/// A reply by its word alone.
fn replied(alloc: Global, reply: &str) -> Result<Object, NoMemory>
    ensures { IfOk result (λ o. members_view o.map.entries ≡ reply_members reply.now) }
{
    Object::new(alloc).text(alloc, "reply", reply)
}

/// The JSON of a list of notifications.
fn heads_value(alloc: Global, heads: &[NoticeHead]) -> Result<Value, NoMemory>
    ensures { IfOk result (λ value. view value ≡ heads_data heads.now) }
{
    let mut items = Vec::new(alloc);
    for head in heads {
        items.push(head_value(alloc, *head)?)?;
    }
    Ok(Value::Array(items))
}

fn head_value(alloc: Global, head: NoticeHead) -> Result<Value, NoMemory>
    ensures { IfOk result (λ value. view value ≡ head_data head) }
{
    Ok(
        Object::new(alloc)
            .value(alloc, "number", Value::from(head.number))?
            .value(alloc, "rows", Value::from(head.rows))?
            .done(),
    )
}
