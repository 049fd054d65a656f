ghost use Rattle.std.specs.Prelude.{◌≡◌, IfOk, string_bytes};
ghost use Rattle.serde_json.specs.View.{view};
ghost use Rattle.cv_scan_output.specs.Refusal.{refused_text};
ghost use Rattle.cv_list_output.specs.Fault.{bad_list_data, bad_list_text, fault_text, list_fault_text, named_list_data};

use cv_base::NoMemory;
use cv_request::{RequestError, RequestFault};
use cv_sbom::{ListFault, ListWhat};
use cv_scan_input::InputFault;
use cv_scan_output::{line_of, refusal_line, refused_line};
use serde_json::{Value, json};
use std::alloc::Global;

/// The line of an input line that is refused, with the reason: `{"line":2,"refused":"extra_line"}`. Lines are numbered from 1.
pub fn fault_line(alloc: Global, line: u64, fault: InputFault) -> Result<String, NoMemory>
    ensures { IfOk result (λ text. string_bytes text ≡ fault_text line fault) }
{
    match fault {
        InputFault::Request(fault) => request_fault_line(alloc, line, fault),
        InputFault::Components(fault) => list_fault_line(alloc, line, fault),
        InputFault::ExtraLine => refused_line(alloc, line, "extra_line"),
    }
}

/// The line of an input that has no line, by the word for what is missing: `{"line":1,"refused":"no_list"}`.
pub fn none_line(alloc: Global, word: &str) -> Result<String, NoMemory>
    ensures { IfOk result (λ text. string_bytes text ≡ refused_text 1 word.now) }
{
    refused_line(alloc, 1, word)
}

fn request_fault_line(alloc: Global, line: u64, fault: RequestFault) -> Result<String, NoMemory>
    ensures { IfOk result (λ text. string_bytes text ≡ fault_text line (InputFault.Request fault)) }
{
    refusal_line(alloc, line, &RequestError::from(fault))
}

fn list_fault_line(alloc: Global, line: u64, fault: ListFault) -> Result<String, NoMemory>
    ensures { IfOk result (λ text. string_bytes text ≡ list_fault_text line fault) }
{
    match fault {
        ListFault::BadJson => refused_line(alloc, line, "bad_json"),
        ListFault::BadList(what) => bad_list_line(alloc, line, what),
    }
}

/// The line of a list of components that is malformed.
#[tactic(auto, unfolding(crate::specs::Fault::bad_list_text))]
fn bad_list_line(alloc: Global, line: u64, what: ListWhat) -> Result<String, NoMemory>
    ensures { IfOk result (λ text. string_bytes text ≡ bad_list_text line what) }
{
    let value = bad_list_value(alloc, line, what)?;
    line_of(alloc, &value)
}

fn bad_list_value(alloc: Global, line: u64, what: ListWhat) -> Result<Value, NoMemory>
    ensures { IfOk result (λ value. view value ≡ bad_list_data line what) }
{
    match what {
        ListWhat::NotObject => named_value(alloc, line, "not_object"),
        ListWhat::BadFormat => named_value(alloc, line, "bad_format"),
        ListWhat::BadComponents => named_value(alloc, line, "bad_components"),
    }
}

/// A malformed list by the name of what is wrong.
fn named_value(alloc: Global, line: u64, what: &str) -> Result<Value, NoMemory>
    ensures { IfOk result (λ value. view value ≡ named_list_data line what.now) }
{
    Ok(json!(in alloc; {"line": line, "refused": "bad_list", "what": what})?)
}
