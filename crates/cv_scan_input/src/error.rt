ghost use Rattle.std.specs.Prelude.{◌≡◌};
ghost use Rattle.cv_scan_input.specs.Answer.{stop_error};
ghost use Rattle.cv_scan_input.specs.declared.error.InputError.TheVariants as input;

use cv_base::NoMemory;
use cv_io::LineError;
use cv_request::RequestFault;
use cv_sbom::ListFault;
use thiserror::Error;

/// Why a line of an input is refused.
#[derive(Clone, Copy, Debug, PartialEq, Eq)]
pub enum InputFault {
    /// As a manifest, or as a record.
    Request(RequestFault),
    /// As a list of components.
    Components(ListFault),
    /// A line stands where there may be none.
    ExtraLine,
}

/// Why an input requests nothing.
#[derive(Clone, Copy, Debug, PartialEq, Eq, Error)]
pub enum InputError {
    #[error("the input has no line")]
    NoLine,
    /// Lines are numbered from 1, empty ones included.
    #[error("line {line} is refused")]
    Refused { line: u64, fault: InputFault },
    #[error("the input could not be read")]
    ReadFault,
    #[error("a line is too long")]
    LineTooLong,
    #[error("the input is too long")]
    InputTooLong,
    #[error("out of memory")]
    NoMemory,
}

impl From<LineError> for InputError {
    ghost from_gives = { λ line e. e ≡ stop_error line };

    fn from(error: LineError) -> InputError {
        match error {
            LineError::ReadFault => InputError::ReadFault,
            LineError::LineTooLong => InputError::LineTooLong,
            LineError::InputTooLong => InputError::InputTooLong,
            LineError::NoMemory => InputError::NoMemory,
        }
    }
}

impl From<NoMemory> for InputError {
    ghost from_gives = { λ _ e. e ≡ input.NoMemory };

    fn from(_error: NoMemory) -> InputError {
        InputError::NoMemory
    }
}
