ghost use Rattle.std.specs.Prelude.{◌≡◌, ◌^◌, ◌<◌, true, IfOk, string_bytes};
ghost use Rattle.cv_scan_input.specs.Answer.{HasLayers};
ghost use Rattle.cv_seq.specs.Cause.{Rose};
ghost use Rattle.cv_command.specs.Commands.{SbomEnds};
ghost use Rattle.cv_command.specs.Outcome.{ListsAtMost, ReadsBack, SaysPackages, packages_text};
ghost use Rattle.cv_command.specs.Printed.{is_end};
ghost use Rattle.cv_command.specs.World.{counts_of};
ghost use Rattle.cv_command.specs.code.Printing.{OutcomePrinted, printed_of};

use crate::error::print_error;
use crate::printing::print;
use crate::scanning::{Answer, error_answer};
use crate::status::Status;
use cv_base::{Digest, Manifest, NoMemory, Package};
use cv_desk::Desk;
use cv_io::{Sink, Source};
use cv_sbom::write_list;
use cv_scan_image::list_packages;
use cv_scan_input::{ImageKind, InputLines, read_input};
use std::alloc::Global;

/// Reads the manifest of an image, and prints the packages of the image as a list of components, or why it is bad. After the manifest
/// there may be only empty lines.
pub fn sbom_command<S: Source, K: Sink, D: Desk>(
    alloc: Global,
    input: &mut S,
    output: &mut K,
    desk: &mut D,
) -> Status
    requires room { D.listings desk.old < 2 ^ 62 }
    ensures outcome { SbomEnds D.tree
        (record { remaining = S.remaining input.old; written = K.contents output.old; counts = counts_of D.listings D.faults desk.old })
        (record { remaining = S.remaining input.new; written = K.contents output.new; counts = counts_of D.listings D.faults desk.new })
        result }
    ensures read_fault { result ≡ Status.ReadFault → Rose (S.faults input.old) (S.faults input.new) }
    ensures write_fault { result ≡ Status.WriteFault → Rose (K.faults output.old) (K.faults output.new) }
    ensures desk_fault { result ≡ Status.DeskFault → Rose (D.faults desk.old) (D.faults desk.new) }
{
    match read_input::<S, ImageKind>(alloc, input) {
        Ok(request) => print_packages(alloc, output, desk, &request),
        Err(error) => print_error(alloc, output, error, "no_manifest"),
    }
}

/// Prints the packages of the image.
fn print_packages<K: Sink, D: Desk>(
    alloc: Global,
    output: &mut K,
    desk: &mut D,
    request: &InputLines<Manifest>,
) -> Status
    requires room { D.listings desk.old < 2 ^ 62 }
    requires layers { HasLayers request.now.first }
    ensures printed { OutcomePrinted (SaysPackages D.tree) ListsAtMost request.now.first request.now.records (counts_of D.listings D.faults desk.old) (counts_of D.listings D.faults desk.new) (K.contents output.old) (K.contents output.new) result }
    ensures write_fault { result ≡ Status.WriteFault → Rose (K.faults output.old) (K.faults output.new) }
    ensures desk_fault { result ≡ Status.DeskFault → Rose (D.faults desk.old) (D.faults desk.new) }
{
    match packages_answer(alloc, desk, request) {
        Ok(answer) => print(output, answer.text.as_str(), answer.ended),
        Err(NoMemory) => Status::NoMemory,
    }
}

/// Finds the packages of an image, and makes the line of them.
fn packages_answer<D: Desk>(
    alloc: Global,
    desk: &mut D,
    request: &InputLines<Manifest>,
) -> Result<Answer, NoMemory>
    requires room { D.listings desk.old < 2 ^ 62 }
    requires layers { HasLayers request.now.first }
    ensures outcome { IfOk result (λ answer. SaysPackages D.tree request.now.first request.now.records (counts_of D.listings D.faults desk.old) (counts_of D.listings D.faults desk.new) (printed_of answer)) }
    ensures listed { ListsAtMost request.now.first (counts_of D.listings D.faults desk.old) (counts_of D.listings D.faults desk.new) }
    ensures end { IfOk result (λ answer. is_end answer.ended ≡ true) }
    ensures cause { IfOk result (λ answer. answer.ended ≡ Status.DeskFault → Rose (D.faults desk.old) (D.faults desk.new)) }
{
    let hash = &request.first.hash;
    let layers = request.first.layers.as_slice();
    let seals = request.first.seals.as_slice();
    match list_packages(alloc, desk, layers, seals) {
        Ok(packages) => Ok(Answer {
            text: packages_line(alloc, hash, packages.as_slice())?,
            ended: Status::Done,
        }),
        Err(error) => error_answer(alloc, hash, error),
    }
}

/// The line of the packages of an image: their list, and LF.
fn packages_line(alloc: Global, hash: &Digest, packages: &[Package]) -> Result<String, NoMemory>
    ensures text { IfOk result (λ line. string_bytes line ≡ packages_text hash.now packages.now) }
    ensures reads_back { IfOk result (λ _. ReadsBack hash.now packages.now) }
{
    let list = write_list(alloc, hash, packages)?;
    let list = list.as_str();
    Ok(format!(in alloc; "{list}\n")?)
}
