ghost use Rattle.std.specs.Prelude.{◌≡◌, ◌^◌, ◌<◌};
ghost use Rattle.cv_seq.specs.Cause.{Rose};
ghost use Rattle.cv_scan_input.specs.Answer.{HasLayers};
ghost use Rattle.cv_command.specs.Commands.{ScanEnds};
ghost use Rattle.cv_command.specs.Outcome.{ListsAtMost, SaysOutcome};
ghost use Rattle.cv_command.specs.World.{counts_of};
ghost use Rattle.cv_command.specs.code.Printing.{OutcomePrinted};

use crate::error::print_error;
use crate::printing::print;
use crate::scanning::scan_answer;
use crate::status::Status;
use cv_base::{Manifest, NoMemory};
use cv_desk::Desk;
use cv_io::{Sink, Source};
use cv_scan_input::{InputLines, ScanKind, read_input};
use std::alloc::Global;

/// Reads the manifest of an image and records of advisories, and prints what the records find in the image, or why it is bad. An
/// image is bad also where the tree of a layer has another seal than the manifest states.
pub fn scan_command<S: Source, K: Sink, D: Desk>(
    alloc: Global,
    input: &mut S,
    output: &mut K,
    desk: &mut D,
) -> Status
    requires room { D.listings desk.old < 2 ^ 62 }
    ensures outcome { ScanEnds D.tree
        (record { remaining = S.remaining input.old; written = K.contents output.old; counts = counts_of D.listings D.faults desk.old })
        (record { remaining = S.remaining input.new; written = K.contents output.new; counts = counts_of D.listings D.faults desk.new })
        result }
    ensures read_fault { result ≡ Status.ReadFault → Rose (S.faults input.old) (S.faults input.new) }
    ensures write_fault { result ≡ Status.WriteFault → Rose (K.faults output.old) (K.faults output.new) }
    ensures desk_fault { result ≡ Status.DeskFault → Rose (D.faults desk.old) (D.faults desk.new) }
{
    match read_input::<S, ScanKind>(alloc, input) {
        Ok(request) => print_scan(alloc, output, desk, &request),
        Err(error) => print_error(alloc, output, error, "no_manifest"),
    }
}

/// Prints the outcome of the image.
fn print_scan<K: Sink, D: Desk>(
    alloc: Global,
    output: &mut K,
    desk: &mut D,
    request: &InputLines<Manifest>,
) -> Status
    requires room { D.listings desk.old < 2 ^ 62 }
    requires layers { HasLayers request.now.first }
    ensures printed { OutcomePrinted (SaysOutcome D.tree) ListsAtMost request.now.first request.now.records (counts_of D.listings D.faults desk.old) (counts_of D.listings D.faults desk.new) (K.contents output.old) (K.contents output.new) result }
    ensures write_fault { result ≡ Status.WriteFault → Rose (K.faults output.old) (K.faults output.new) }
    ensures desk_fault { result ≡ Status.DeskFault → Rose (D.faults desk.old) (D.faults desk.new) }
{
    match scan_answer(alloc, desk, request) {
        Ok(answer) => print(output, answer.text.as_str(), answer.ended),
        Err(NoMemory) => Status::NoMemory,
    }
}
