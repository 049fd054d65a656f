ghost use Rattle.std.specs.Prelude.{◌≡◌};
ghost use Rattle.cv_io.specs.code.Errors.{line_error};
ghost use Rattle.cv_io.specs.declared.line.LineError.TheVariants as error;

use crate::fault::IoFault;
use cv_seq::{NoMemory, Seq};
use thiserror::Error;

/// Why a line was not given. After it the reader gives no more lines.
#[derive(Clone, Copy, Debug, PartialEq, Eq, Error)]
pub enum LineError {
    #[error("the input could not be read")]
    ReadFault,
    #[error("the line is too long")]
    LineTooLong,
    #[error("the input is too long")]
    InputTooLong,
    #[error("out of memory")]
    NoMemory,
}

/// What a reader of lines gives.
#[derive(Debug, PartialEq, Eq, Drop)]
pub enum Line {
    /// A line, without its LF and the one CR before it.
    Text(Seq<u8>),
    /// The input ended, and each line of it was given.
    End,
}

/// The error of a line of which a read was not made.
pub fn line_error(fault: IoFault) -> LineError
    ensures { result ≡ line_error fault }
{
    match fault {
        IoFault::Failed => LineError::ReadFault,
        IoFault::NoMemory => LineError::NoMemory,
    }
}

impl From<NoMemory> for LineError {
    ghost from_gives = { λ _ e. e ≡ error.NoMemory };

    fn from(_error: NoMemory) -> LineError {
        LineError::NoMemory
    }
}
