ghost use Rattle.std.specs.Prelude.{◌≡◌};
ghost use Rattle.cv_serve.specs.code.Ends.{end_of, input_end};
ghost use Rattle.cv_serve.specs.declared.end.Stop.TheVariants as stop;

use cv_base::NoMemory;
use cv_io::{LineError, WriteError};
use thiserror::Error;

/// How a service ends.
#[derive(Clone, Copy, Debug, PartialEq, Eq)]
pub enum ServeEnd {
    /// The input was read to its end, and every round was written.
    Done,
    /// The input could not be read. The round that had begun was not run.
    ReadFault,
    /// The output could not be written. Lines of the last round may be missing.
    WriteFault,
    /// A line of the input is longer than 67,108,864 bytes. The round that had begun was not run.
    LineTooLong,
    /// The input has 2^36 bytes or more. The round that had begun was not run.
    InputTooLong,
    /// Memory ran out. Some lines of the last round, or all of them, may be missing.
    NoMemory,
}

/// Why a service stops before the end of its input, or before all is written.
#[derive(Clone, Copy, Debug, PartialEq, Eq, Error)]
pub enum Stop {
    #[error("the input was not read to its end")]
    Input(LineError),
    #[error("the output was not written")]
    Output(WriteError),
    #[error("out of memory")]
    NoMemory,
}

/// The end of a service that stopped so.
pub fn end_of(stopped: Result<(), Stop>) -> ServeEnd
    ensures { result ≡ end_of stopped }
{
    match stopped {
        Ok(()) => ServeEnd::Done,
        Err(Stop::Input(error)) => input_end(error),
        Err(Stop::Output(WriteError::WriteFault)) => ServeEnd::WriteFault,
        Err(Stop::Output(WriteError::NoMemory) | Stop::NoMemory) => ServeEnd::NoMemory,
    }
}

/// The end of a service whose input was not read to its end.
fn input_end(error: LineError) -> ServeEnd
    ensures { result ≡ input_end error }
{
    match error {
        LineError::ReadFault => ServeEnd::ReadFault,
        LineError::LineTooLong => ServeEnd::LineTooLong,
        LineError::InputTooLong => ServeEnd::InputTooLong,
        LineError::NoMemory => ServeEnd::NoMemory,
    }
}

impl From<LineError> for Stop {
    ghost from_gives = { λ error e. e ≡ stop.Input error };

    fn from(error: LineError) -> Stop {
        Stop::Input(error)
    }
}

impl From<WriteError> for Stop {
    ghost from_gives = { λ error e. e ≡ stop.Output error };

    fn from(error: WriteError) -> Stop {
        Stop::Output(error)
    }
}

impl From<NoMemory> for Stop {
    ghost from_gives = { λ _ e. e ≡ stop.NoMemory };

    fn from(_error: NoMemory) -> Stop {
        Stop::NoMemory
    }
}
