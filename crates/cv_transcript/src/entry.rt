ghost use Rattle.std.specs.Prelude.{◌≡◌, IfOk, OnOk, Some, string_bytes};
ghost use Rattle.serde_json.specs.View.{view};
ghost use Rattle.cv_transcript.specs.Entry.{entry_data, entry_json, entry_text};
ghost use Rattle.cv_transcript.specs.Tag.{entry_tag, tag_of_json};

use crate::event::event_value;
use crate::read::read_value;
use cv_base::NoMemory;
use cv_core_records::{EventEntry, ReadEntry};
use cv_request::RequestError;
use cv_scan_output::{ended, json_of, refusal_value};
use serde_json::Value;
use std::alloc::Global;

/// An entry of a transcript. Input lines are numbered from 1.
#[derive(Debug, PartialEq, Eq, Drop)]
pub enum Entry {
    /// An input line that is refused, with the reason.
    Refused { line: u64, error: RequestError },
    /// An event that was applied.
    Event(EventEntry),
    /// A line of a lane without an event: a read with its answer, or a request that ran out of memory.
    Read(ReadEntry),
}

/// The line of an entry: its JSON and an LF. The tag that the JSON reads back as is that of the entry. It is stated of an entry
/// that was printed, since its numbers have at most 64 bits.
#[tactic(auto, unfolding(crate::specs::Entry::entry_text, cv_scan_output::specs::Line::line_text))]
pub fn entry_line(alloc: Global, entry: &Entry) -> Result<String, NoMemory>
    ensures text { IfOk result (λ line. string_bytes line ≡ entry_text entry.now) }
    ensures tag { OnOk result (tag_of_json (entry_json entry.now) ≡ Some (entry_tag entry.now)) }
{
    let value = entry_value(alloc, entry)?;
    ended(json_of(alloc, &value)?)
}

fn entry_value(alloc: Global, entry: &Entry) -> Result<Value, NoMemory>
    ensures { IfOk result (λ value. view value ≡ entry_data entry.now) }
{
    match entry {
        Entry::Refused { line, error } => refusal_value(alloc, *line, error),
        Entry::Event(event) => event_value(alloc, event),
        Entry::Read(read) => read_value(alloc, read),
    }
}
