ghost use Rattle.std.specs.Prelude.{◌≡◌};
ghost use Rattle.cv_list_output.specs.Fault.{fault_text};
ghost use Rattle.cv_scan_output.specs.Refusal.{refused_text};
ghost use Rattle.cv_seq.specs.Cause.{Rose};
ghost use Rattle.cv_command.specs.code.Printing.{ErrorPrinted, RefusalPrinted};

use crate::printing::print;
use crate::status::Status;
use cv_base::NoMemory;
use cv_io::Sink;
use cv_list_output::{fault_line, none_line};
use cv_scan_input::{InputError, InputFault};
use std::alloc::Global;

/// Prints why the input requests nothing; `none` is the word for what an input without a line lacks. If the input could not be read,
/// nothing is printed, and the status says why.
pub fn print_error<K: Sink>(alloc: Global, output: &mut K, error: InputError, none: &str) -> Status
    ensures printed { ErrorPrinted (refused_text 1 none.now) error (K.contents output.old) (K.contents output.new) result }
    ensures write_fault { result ≡ Status.WriteFault → Rose (K.faults output.old) (K.faults output.new) }
{
    match error {
        InputError::NoLine => print_none(alloc, output, none),
        InputError::Refused { line, fault } => print_fault(alloc, output, line, fault),
        InputError::ReadFault => Status::ReadFault,
        InputError::LineTooLong => Status::LineTooLong,
        InputError::InputTooLong => Status::InputTooLong,
        InputError::NoMemory => Status::NoMemory,
    }
}

/// Prints that the input has no line.
fn print_none<K: Sink>(alloc: Global, output: &mut K, none: &str) -> Status
    ensures printed { RefusalPrinted (refused_text 1 none.now) (K.contents output.old) (K.contents output.new) result }
    ensures write_fault { result ≡ Status.WriteFault → Rose (K.faults output.old) (K.faults output.new) }
{
    match none_line(alloc, none) {
        Ok(text) => print(output, text.as_str(), Status::Refused),
        Err(NoMemory) => Status::NoMemory,
    }
}

/// Prints why a line of the input is refused.
fn print_fault<K: Sink>(alloc: Global, output: &mut K, line: u64, fault: InputFault) -> Status
    ensures printed { RefusalPrinted (fault_text line fault) (K.contents output.old) (K.contents output.new) result }
    ensures write_fault { result ≡ Status.WriteFault → Rose (K.faults output.old) (K.faults output.new) }
{
    match fault_line(alloc, line, fault) {
        Ok(text) => print(output, text.as_str(), Status::Refused),
        Err(NoMemory) => Status::NoMemory,
    }
}
