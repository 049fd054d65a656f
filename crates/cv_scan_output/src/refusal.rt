ghost use Rattle.std.specs.Prelude.{◌≡◌, IfOk, codes, string_bytes};
ghost use Rattle.serde_json.specs.View.{view};
ghost use Rattle.cv_scan_output.specs.Refusal.{bad_advisory_data, bad_request_data, duplicate_data, item_data, line_data, named_data, no_manifest_text, refusal_data, refusal_text, refused_text};

use crate::line::line_of;
use cv_base::NoMemory;
use cv_osv::RecordWhat;
use cv_request::{RequestError, RequestWhat};
use serde_json::{Value, json};
use std::alloc::Global;

/// The line of an input line that is refused, with the reason: `{"line":2,"refused":"bad_json"}`. Lines are numbered from 1.
#[tactic(auto, unfolding(crate::specs::Refusal::refusal_text))]
pub fn refusal_line(alloc: Global, line: u64, error: &RequestError) -> Result<String, NoMemory>
    ensures { IfOk result (λ text. string_bytes text ≡ refusal_text line error.now) }
{
    let value = refusal_value(alloc, line, error)?;
    line_of(alloc, &value)
}

/// The line of an input that has no line: `{"line":1,"refused":"no_manifest"}`.
pub fn no_manifest_line(alloc: Global) -> Result<String, NoMemory>
    ensures { IfOk result (λ text. string_bytes text ≡ no_manifest_text) }
{
    refused_line(alloc, 1, "no_manifest")
}

/// The line of a refusal by a word alone: `{"line":1,"refused":"no_manifest"}`. Lines are numbered from 1.
#[tactic(auto, unfolding(crate::specs::Refusal::refused_text))]
pub fn refused_line(alloc: Global, line: u64, word: &str) -> Result<String, NoMemory>
    ensures { IfOk result (λ text. string_bytes text ≡ refused_text line word.now) }
{
    let value = line_value(alloc, line, word)?;
    line_of(alloc, &value)
}

fn line_value(alloc: Global, line: u64, word: &str) -> Result<Value, NoMemory>
    ensures { IfOk result (λ value. view value ≡ line_data line word.now) }
{
    Ok(json!(in alloc; {"line": line, "refused": word})?)
}

/// The JSON of an input line that is refused.
pub fn refusal_value(alloc: Global, line: u64, error: &RequestError) -> Result<Value, NoMemory>
    ensures { IfOk result (λ value. view value ≡ refusal_data line error.now) }
{
    match *error {
        RequestError::BadJson => line_value(alloc, line, "bad_json"),
        RequestError::BadRequest(what) => bad_request_value(alloc, line, what),
        RequestError::BadAdvisory { index, what } => bad_advisory_value(alloc, line, index, what),
        RequestError::DuplicateId { first, second } => duplicate_value(alloc, line, first, second),
        RequestError::TooManyAdvisories => line_value(alloc, line, "too_many_advisories"),
        RequestError::NoMemory => line_value(alloc, line, "no_memory"),
    }
}

fn bad_request_value(alloc: Global, line: u64, what: RequestWhat) -> Result<Value, NoMemory>
    ensures { IfOk result (λ value. view value ≡ bad_request_data line what) }
{
    match what {
        RequestWhat::NotObject => named_value(alloc, line, "not_object"),
        RequestWhat::BadLane => named_value(alloc, line, "bad_lane"),
        RequestWhat::BadDo => named_value(alloc, line, "bad_do"),
        RequestWhat::BadImage => named_value(alloc, line, "bad_image"),
        RequestWhat::BadManifest => named_value(alloc, line, "bad_manifest"),
        RequestWhat::BadHash => named_value(alloc, line, "bad_hash"),
        RequestWhat::BadLayers => named_value(alloc, line, "bad_layers"),
        RequestWhat::NoLayers => named_value(alloc, line, "no_layers"),
        RequestWhat::TooManyLayers => named_value(alloc, line, "too_many_layers"),
        RequestWhat::BadLayer(index) => item_value(alloc, line, "bad_request", index, "bad_layer"),
        RequestWhat::BadSeal(index) => item_value(alloc, line, "bad_request", index, "bad_seal"),
        RequestWhat::BadFeed => named_value(alloc, line, "bad_feed"),
        RequestWhat::BadBase => named_value(alloc, line, "bad_base"),
        RequestWhat::BadRemove => named_value(alloc, line, "bad_remove"),
        RequestWhat::BadAdvisories => named_value(alloc, line, "bad_advisories"),
        RequestWhat::BadNumber => named_value(alloc, line, "bad_number"),
        RequestWhat::BadSize => named_value(alloc, line, "bad_size"),
        RequestWhat::BadPage => named_value(alloc, line, "bad_page"),
    }
}

/// A bad request that has a name alone.
fn named_value(alloc: Global, line: u64, what: &str) -> Result<Value, NoMemory>
    ensures { IfOk result (λ value. view value ≡ named_data line what.now) }
{
    Ok(json!(in alloc; {"line": line, "refused": "bad_request", "what": what})?)
}

fn bad_advisory_value(
    alloc: Global,
    line: u64,
    index: u32,
    what: RecordWhat,
) -> Result<Value, NoMemory>
    ensures { IfOk result (λ value. view value ≡ bad_advisory_data line index what) }
{
    match what {
        RecordWhat::NotObject => record_value(alloc, line, index, "not_object"),
        RecordWhat::NoId => record_value(alloc, line, index, "no_id"),
        RecordWhat::NoModified => record_value(alloc, line, index, "no_modified"),
        RecordWhat::BadWithdrawn => record_value(alloc, line, index, "bad_withdrawn"),
        RecordWhat::BadAffected => record_value(alloc, line, index, "bad_affected"),
        RecordWhat::BadEntry => record_value(alloc, line, index, "bad_entry"),
        RecordWhat::BadPackage => record_value(alloc, line, index, "bad_package"),
        RecordWhat::BadRange => record_value(alloc, line, index, "bad_range"),
        RecordWhat::BadEvent => record_value(alloc, line, index, "bad_event"),
        RecordWhat::BadVersions => record_value(alloc, line, index, "bad_versions"),
    }
}

/// A bad record, by its printed name.
fn record_value(alloc: Global, line: u64, index: u32, what: &str) -> Result<Value, NoMemory>
    ensures { IfOk result (λ value. view value ≡ item_data line (codes "bad_advisory") index what.now) }
{
    item_value(alloc, line, "bad_advisory", index, what)
}

/// A line that is refused for an item of a list.
fn item_value(
    alloc: Global,
    line: u64,
    word: &str,
    index: u32,
    what: &str,
) -> Result<Value, NoMemory>
    ensures { IfOk result (λ value. view value ≡ item_data line word.now index what.now) }
{
    Ok(json!(in alloc; {"index": index, "line": line, "refused": word, "what": what})?)
}

fn duplicate_value(alloc: Global, line: u64, first: u32, second: u32) -> Result<Value, NoMemory>
    ensures { IfOk result (λ value. view value ≡ duplicate_data line first second) }
{
    Ok(
        json!(in alloc; {"first": first, "line": line, "refused": "duplicate_id", "second": second})?,
    )
}
