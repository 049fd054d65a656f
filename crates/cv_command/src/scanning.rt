ghost use Rattle.std.specs.Prelude.{◌≡◌, ◌^◌, ◌<◌, true, IfOk};
ghost use Rattle.cv_scan_input.specs.Answer.{HasLayers};
ghost use Rattle.cv_seq.specs.Cause.{Rose};
ghost use Rattle.cv_command.specs.Outcome.{ListsAtMost, SaysOutcome};
ghost use Rattle.cv_command.specs.Printed.{is_end};
ghost use Rattle.cv_command.specs.World.{counts_of};
ghost use Rattle.cv_command.specs.code.Printing.{SaysError, printed_of, reason_of, reason_printed};

use crate::status::Status;
use cv_base::{Digest, Manifest, NoMemory, Text};
use cv_desk::Desk;
use cv_overlay::ImageFault;
use cv_scan_image::{ImageError, scan_layers};
use cv_scan_input::InputLines;
use cv_scan_output::{bad_image_line, desk_fault_line, good_line};
use std::alloc::Global;

/// A line to be printed, and how the command then ends.
#[derive(Debug, Drop)]
pub struct Answer {
    pub text: String,
    pub ended: Status,
}

/// Scans an image, and makes the line of its outcome.
pub fn scan_answer<D: Desk>(
    alloc: Global,
    desk: &mut D,
    request: &InputLines<Manifest>,
) -> Result<Answer, NoMemory>
    requires room { D.listings desk.old < 2 ^ 62 }
    requires layers { HasLayers request.now.first }
    ensures outcome { IfOk result (λ answer. SaysOutcome D.tree request.now.first request.now.records (counts_of D.listings D.faults desk.old) (counts_of D.listings D.faults desk.new) (printed_of answer)) }
    ensures listed { ListsAtMost request.now.first (counts_of D.listings D.faults desk.old) (counts_of D.listings D.faults desk.new) }
    ensures end { IfOk result (λ answer. is_end answer.ended ≡ true) }
    ensures cause { IfOk result (λ answer. answer.ended ≡ Status.DeskFault → Rose (D.faults desk.old) (D.faults desk.new)) }
{
    let feed = Text::of(alloc, "scan")?;
    let hash = &request.first.hash;
    let layers = request.first.layers.as_slice();
    let seals = request.first.seals.as_slice();
    let records = request.records.as_slice();
    match scan_layers(alloc, desk, layers, seals, &feed, records) {
        Ok(found) => Ok(Answer {
            text: good_line(alloc, hash, found.as_slice())?,
            ended: Status::Done,
        }),
        Err(error) => error_answer(alloc, hash, error),
    }
}

/// Why an image has no findings: it is refused, or the desk failed at a layer.
#[derive(Drop)]
enum Reason {
    Bad(ImageFault),
    Desk(Digest),
}

/// The line that says why an image has no findings.
pub(crate) fn error_answer(
    alloc: Global,
    hash: &Digest,
    error: ImageError,
) -> Result<Answer, NoMemory>
    ensures { IfOk result (λ answer. SaysError hash.now error (printed_of answer)) }
{
    match reason_of(error) {
        Some(reason) => reason_answer(alloc, hash, &reason),
        None => Err(NoMemory),
    }
}

/// The reason that an error gives: none, if it is out of memory.
fn reason_of(error: ImageError) -> Option<Reason>
    ensures { result ≡ reason_of error }
{
    match error {
        ImageError::Bad(bad) => Some(Reason::Bad(bad)),
        ImageError::Desk(layer) => Some(Reason::Desk(layer)),
        ImageError::NoMemory => None,
    }
}

fn reason_answer(alloc: Global, hash: &Digest, reason: &Reason) -> Result<Answer, NoMemory>
    ensures { IfOk result (λ answer. printed_of answer ≡ reason_printed hash.now reason.now) }
{
    match reason {
        Reason::Bad(bad) => Ok(Answer {
            text: bad_image_line(alloc, hash, bad)?,
            ended: Status::Refused,
        }),
        Reason::Desk(layer) => Ok(Answer {
            text: desk_fault_line(alloc, layer)?,
            ended: Status::DeskFault,
        }),
    }
}
