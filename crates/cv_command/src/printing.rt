ghost use Rattle.std.specs.Prelude.{◌≡◌, true};
ghost use Rattle.cv_seq.specs.Cause.{Rose};
ghost use Rattle.cv_command.specs.Printed.{IsPrinted, is_end};
ghost use Rattle.cv_command.specs.code.Printing.{write_status};

use crate::status::Status;
use cv_io::{Sink, WriteError, write_all};

/// Writes a text, and ends with the status that follows it: one that says that a text was written.
#[tactic(auto, using(crate::proofs::Ends::part_printed, crate::proofs::Ends::write_rose))]
pub fn print<K: Sink>(output: &mut K, text: &str, ended: Status) -> Status
    requires end { is_end ended ≡ true }
    ensures printed { IsPrinted (record { text = text.now; ended = ended }) (K.contents output.old) (K.contents output.new) result }
    ensures write_fault { result ≡ Status.WriteFault → Rose (K.faults output.old) (K.faults output.new) }
{
    match write_all(output, text.as_bytes()) {
        Ok(()) => ended,
        Err(error) => write_status(error),
    }
}

/// The status of a text that was not written whole.
fn write_status(error: WriteError) -> Status
    ensures { result ≡ write_status error }
{
    match error {
        WriteError::WriteFault => Status::WriteFault,
        WriteError::NoMemory => Status::NoMemory,
    }
}
