ghost use Rattle.std.specs.Prelude.{◌≡◌};
ghost use Rattle.std.specs.Option.{option_map};
ghost use Rattle.cv_base.specs.Reading.{read_fault};
ghost use Rattle.cv_stanza.specs.code.Steps.{line_fault};
ghost use Rattle.cv_stanza.specs.declared.line_error.LineError.TheVariants as error;

use cv_base::{NoMemory, ReadBad, What};
use thiserror::Error;

/// Why a line, or a block at its end, was refused. The reader of the file knows the number of the line.
#[derive(Clone, Copy, Debug, PartialEq, Eq, Error)]
pub enum LineError {
    #[error("the line is bad")]
    Bad(What),
    #[error("out of memory")]
    NoMemory,
}

/// Nothing, or why a line was refused.
pub type LineResult = Result<(), LineError>;

impl LineError {
    /// The error of a file with this line.
    pub fn at(self, line: u64) -> ReadBad
        ensures { read_fault result ≡ option_map (λ what. record { line = line; what = what }) (line_fault self) }
    {
        match self {
            LineError::Bad(what) => ReadBad::at(line, what),
            LineError::NoMemory => ReadBad::NoMemory,
        }
    }
}

impl From<NoMemory> for LineError {
    ghost from_gives = { λ _ e. e ≡ error.NoMemory };

    fn from(_error: NoMemory) -> LineError {
        LineError::NoMemory
    }
}

impl From<What> for LineError {
    ghost from_gives = { λ what e. e ≡ error.Bad what };

    fn from(what: What) -> LineError {
        LineError::Bad(what)
    }
}
