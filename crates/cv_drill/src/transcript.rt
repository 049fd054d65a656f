ghost use Rattle.std.specs.Prelude.{◌≡◌, IfOk, map, unwrap_or, option_and_then};
ghost use Rattle.std.specs.Option.{option_map};
ghost use Rattle.serde_json.specs.View.{items_view, members_view, view};
ghost use Rattle.cv_drill.specs.Transcript.{has_number, items_have_number, json_of, line_object, list, members_have_number, number_at, objects, says, text_at};

use cv_base::{NoMemory, next_line};
use serde_json::{Map, Value};
use std::alloc::Global;
use std::str;

/// The objects that the lines of a transcript are. Other lines are ignored.
pub(crate) fn objects(alloc: Global, transcript: &[u8]) -> Result<Vec<Value>, NoMemory>
    ensures { IfOk result (λ found. map view found.items ≡ objects transcript.now) }
{
    let mut found = Vec::new(alloc);
    let mut remaining = Some(transcript);
    while let Some(rest) = remaining {
        let (line, after) = next_line(rest);
        if let Some(value) = line_object(alloc, line)? {
            found.push(value)?;
        }
        remaining = after;
    }
    Ok(found)
}

/// The object that a line is.
fn line_object(alloc: Global, line: &[u8]) -> Result<Option<Value>, NoMemory>
    ensures { IfOk result (λ found. option_map view found ≡ line_object line.now) }
{
    match line_value(alloc, line)? {
        Some(value) if value.is_object() => Ok(Some(value)),
        _ => Ok(None),
    }
}

/// The value that a line is.
#[tactic(auto, using(cv_seq::proofs::Utf8::text_found, cv_seq::proofs::Utf8::none_found))]
fn line_value(alloc: Global, line: &[u8]) -> Result<Option<Value>, NoMemory>
    ensures { IfOk result (λ found. option_map view found ≡ json_of line.now) }
{
    let Ok(text) = str::from_utf8(line) else {
        return Ok(None);
    };
    match Value::from_str(alloc, text) {
        Ok(value) => Ok(Some(value)),
        Err(error) => {
            if error.is_memory() {
                Err(NoMemory)
            } else {
                Ok(None)
            }
        }
    }
}

/// A member that is a text.
pub(crate) fn text_at<'a>(value: &'a Value, key: &str) -> Option<&'a str>
    ensures { option_map (λ text. text.now) result ≡ text_at key.now (view value.now) }
{
    value.get(key).and_then(Value::as_str)
}

/// Whether a member is this text.
pub(crate) fn says(value: &Value, key: &str, word: &str) -> bool
    ensures { result ≡ says key.now word.now (view value.now) }
{
    match text_at(value, key) {
        Some(text) => text == word,
        None => false,
    }
}

/// A member that is a whole number; 0 if there is none.
pub(crate) fn number_at(value: &Value, key: &str) -> u64
    ensures { result ≡ number_at key.now (view value.now) }
{
    value.get(key).and_then(Value::as_u64).unwrap_or(0)
}

/// The values of a list.
#[tactic(auto, using(crate::proofs::Items::list_of_items))]
pub(crate) fn list(value: &Value) -> Option<&[Value]>
    ensures { option_map (λ values. map view values.now) result ≡ list (view value.now) }
{
    match value.as_array() {
        Some(values) => Some(values.as_slice()),
        None => None,
    }
}

/// Whether a number stands in a value, at any depth.
#[cycle(numbers)]
pub(crate) fn has_number(value: &Value) -> bool
    ensures { result ≡ has_number (view value.now) }
{
    match value {
        Value::Null | Value::Bool(_) | Value::String(_) => false,
        Value::Number(_) => true,
        Value::Array(values) => values_have_number(values.as_slice()),
        Value::Object(members) => members_have_number(members),
    }
}

#[cycle(numbers)]
fn values_have_number(values: &[Value]) -> bool
    ensures { result ≡ items_have_number (items_view values.now) }
{
    for value in values {
        if has_number(value) {
            return true;
        }
    }
    false
}

#[cycle(numbers)]
fn members_have_number(members: &Map<String, Value>) -> bool
    ensures { result ≡ members_have_number (members_view members.now.entries) }
{
    for (_key, value) in members {
        if has_number(value) {
            return true;
        }
    }
    false
}
