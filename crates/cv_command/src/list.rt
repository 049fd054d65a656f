ghost use Rattle.std.specs.Prelude.{◌≡◌, IfOk};
ghost use Rattle.cv_match.specs.Findings.{findings};
ghost use Rattle.cv_seq.specs.Cause.{Rose};
ghost use Rattle.cv_command.specs.Commands.{ListScanEnds};
ghost use Rattle.cv_command.specs.List.{list_printed};
ghost use Rattle.cv_command.specs.Outcome.{feeds_of};
ghost use Rattle.cv_command.specs.code.Printing.{ListPrinted, printed_of};

use crate::error::print_error;
use crate::printing::print;
use crate::scanning::Answer;
use crate::status::Status;
use cv_base::{Advisory, Finding, NoMemory, Package, Seq, Text};
use cv_io::{Sink, Source};
use cv_list_output::list_good_line;
use cv_match_feed::find_all;
use cv_sbom::ComponentList;
use cv_scan_input::{InputLines, ListKind, read_input};
use std::alloc::Global;

/// Reads a list of components and records of advisories, and prints what the records find in the packages of the list, without any
/// layer, and how many components of the list are not packages that can be matched.
pub fn list_scan_command<S: Source, K: Sink>(alloc: Global, input: &mut S, output: &mut K) -> Status
    ensures outcome { ListScanEnds (S.remaining input.old) (S.remaining input.new) (K.contents output.old) (K.contents output.new) result }
    ensures read_fault { result ≡ Status.ReadFault → Rose (S.faults input.old) (S.faults input.new) }
    ensures write_fault { result ≡ Status.WriteFault → Rose (K.faults output.old) (K.faults output.new) }
    ensures no_desk { result ≡ Status.DeskFault → ⊥ }
{
    match read_input::<S, ListKind>(alloc, input) {
        Ok(request) => print_list(alloc, output, &request),
        Err(error) => print_error(alloc, output, error, "no_list"),
    }
}

/// Prints what records find in a list of components.
fn print_list<K: Sink>(alloc: Global, output: &mut K, request: &InputLines<ComponentList>) -> Status
    ensures printed { ListPrinted request.now.first request.now.records (K.contents output.old) (K.contents output.new) result }
    ensures write_fault { result ≡ Status.WriteFault → Rose (K.faults output.old) (K.faults output.new) }
    ensures no_desk { result ≡ Status.DeskFault → ⊥ }
{
    match list_answer(alloc, request) {
        Ok(answer) => print(output, answer.text.as_str(), answer.ended),
        Err(NoMemory) => Status::NoMemory,
    }
}

/// Matches the packages of a list with records, and makes the line of what is found.
fn list_answer(alloc: Global, request: &InputLines<ComponentList>) -> Result<Answer, NoMemory>
    ensures { IfOk result (λ answer. printed_of answer ≡ list_printed request.now.first request.now.records) }
{
    let list = &request.first;
    let found = find_in(alloc, list.packages.as_slice(), request.records.as_slice())?;
    Ok(Answer {
        text: list_good_line(alloc, list.image.as_ref(), found.as_slice(), list.skipped)?,
        ended: Status::Done,
    })
}

/// The findings of packages with the records of the one feed of a scan.
fn find_in(
    alloc: Global,
    packages: &[Package],
    records: &[Advisory],
) -> Result<Seq<Finding>, NoMemory>
    ensures { IfOk result (λ found. found ≡ findings packages.now (feeds_of records.now)) }
{
    let feed = Text::of(alloc, "scan")?;
    find_all(alloc, packages, &feed, records)
}
