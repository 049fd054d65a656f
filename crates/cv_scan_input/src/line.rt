ghost use Rattle.std.specs.Prelude.{◌≡◌, IfOk};
ghost use Rattle.cv_base.specs.Answer.{Gives, MatchesUnlessOutOfMemory};
ghost use Rattle.cv_request.specs.Fault.{fault_of};
ghost use Rattle.cv_scan_input.specs.code.Memory.{is_input_memory};
ghost use Rattle.std.specs.Option.{option_map};
ghost use Rattle.cv_sbom.specs.Fault as list;
ghost use Rattle.cv_scan_input.specs.Answer.{HasLayers};
ghost use Rattle.cv_scan_input.specs.Request.{list_or, manifest_or, manifest_read};
ghost use Rattle.cv_scan_input.specs.code.Remaining.{found_after, line_after, record_after_line, refusal_at, refused_at, text_after};
ghost use Rattle.cv_scan_input.specs.declared.error.InputFault.TheVariants as fault;

use crate::error::{InputError, InputFault};
use crate::later::Later;
use cv_base::Manifest;
use cv_osv::{RecordList, RecordRead};
use cv_osv_text::RecordReader;
use cv_request::{RequestError, read_json, read_manifest};
use cv_sbom::{ComponentList, ListError, read_list};
use std::alloc::Global;

/// The manifest that line 1 is.
#[tactic(auto, using(crate::proofs::Refusals::refusal_gives))]
pub(crate) fn manifest_line(alloc: Global, line: &[u8]) -> Result<Manifest, InputError>
    ensures value { Gives is_input_memory (λ manifest. manifest) result (refused_at 1 (manifest_or line.now)) }
    ensures layers { IfOk result HasLayers }
{
    manifest_text(alloc, line).map_err(|error| refused_request(1, error))
}

/// The list of components that line 1 is.
#[tactic(auto, using(crate::proofs::Refusals::refusal_gives))]
pub(crate) fn list_line(alloc: Global, line: &[u8]) -> Result<ComponentList, InputError>
    ensures { Gives is_input_memory (λ list. list) result (refused_at 1 (list_or line.now)) }
{
    read_list(alloc, line).map_err(|error| refused_list(1, error))
}

/// Reads a further line and appends its record, unless the line is empty.
pub(crate) fn further_line(
    alloc: Global,
    later: Later,
    reader: &mut RecordReader,
    records: RecordList,
    line: &[u8],
    number: u64,
) -> Result<RecordList, InputError>
    ensures { Gives is_input_memory (λ more. more) result (line_after later number records line.now) }
{
    if line.is_empty() {
        return Ok(records);
    }
    match later {
        Later::Records => record_line(alloc, reader, records, line, number),
        Later::Nothing => Err(InputError::Refused {
            line: number,
            fault: InputFault::ExtraLine,
        }),
    }
}

/// Reads the record of a line and appends it.
#[tactic(auto, using(crate::proofs::Refusals::refusal_gives))]
fn record_line(
    alloc: Global,
    reader: &mut RecordReader,
    records: RecordList,
    line: &[u8],
    number: u64,
) -> Result<RecordList, InputError>
    ensures { Gives is_input_memory (λ more. more) result (record_after_line Later.Records number records line.now) }
{
    record_text(alloc, reader, records, line).map_err(|error| refused_request(number, error))
}

/// The refusal of a line as a request, or out of memory.
fn refused_request(line: u64, error: RequestError) -> InputError
    ensures { result ≡ refusal_at line (option_map fault.Request (fault_of error)) }
{
    refused_at(line, error.fault().map(InputFault::Request))
}

/// The refusal of a line as a list of components, or out of memory.
fn refused_list(line: u64, error: ListError) -> InputError
    ensures { result ≡ refusal_at line (option_map fault.Components (list.fault_of error)) }
{
    refused_at(line, error.fault().map(InputFault::Components))
}

/// The refusal of a line with this fault, or out of memory.
fn refused_at(line: u64, fault: Option<InputFault>) -> InputError
    ensures { result ≡ refusal_at line fault }
{
    match fault {
        Some(fault) => InputError::Refused { line, fault },
        None => InputError::NoMemory,
    }
}

fn manifest_text(alloc: Global, text: &[u8]) -> Result<Manifest, RequestError>
    ensures value { MatchesUnlessOutOfMemory fault_of (λ manifest. manifest) result (manifest_read text.now) }
    ensures layers { IfOk result HasLayers }
{
    let value = read_json(alloc, text)?;
    read_manifest(alloc, &value)
}

#[tactic(auto, using(crate::proofs::Refusals::text_read, crate::proofs::Refusals::text_refused))]
fn record_text(
    alloc: Global,
    reader: &mut RecordReader,
    records: RecordList,
    text: &[u8],
) -> Result<RecordList, RequestError>
    ensures { MatchesUnlessOutOfMemory fault_of (λ more. more) result (text_after records text.now) }
{
    let found = reader.read(alloc, text)?;
    append(records, found)
}

/// Appends a record that was read, unless there are too many.
#[tactic(auto, using(crate::proofs::Refusals::list_yields))]
fn append(records: RecordList, found: RecordRead) -> Result<RecordList, RequestError>
    ensures { MatchesUnlessOutOfMemory fault_of (λ more. more) result (found_after records found) }
{
    if records.is_full() {
        return Err(RequestError::TooManyAdvisories);
    }
    Ok(records.append(found)?)
}
