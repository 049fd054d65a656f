ghost use Rattle.std.specs.Prelude.{◌≡◌};
ghost use Rattle.cv_keep_replay.specs.declared.error.ReplayError.TheVariants as error;

use cv_base::NoMemory;
use cv_facts::IndexError;
use thiserror::Error;

/// Why a service does not go on from the kept events.
#[derive(Clone, Copy, Debug, PartialEq, Eq, Error)]
pub enum ReplayError {
    /// The record of this number, from 0, is the first that is not good.
    #[error("record {0} is bad")]
    BadKeep(u64),
    #[error("a layer could not be read")]
    DeskFault,
    #[error("the disk failed")]
    KeepFault,
    #[error("out of memory")]
    NoMemory,
}

impl From<NoMemory> for ReplayError {
    ghost from_gives = { λ _ e. e ≡ error.NoMemory };

    fn from(_error: NoMemory) -> ReplayError {
        ReplayError::NoMemory
    }
}

impl From<IndexError> for ReplayError {
    ghost use Rattle.cv_keep_replay.specs.Cause.{replay_error};

    ghost from_gives = { λ refusal e. e ≡ replay_error refusal };

    fn from(refusal: IndexError) -> ReplayError {
        match refusal {
            IndexError::DeskFault => ReplayError::DeskFault,
            IndexError::NoMemory => ReplayError::NoMemory,
        }
    }
}
