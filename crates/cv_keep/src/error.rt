ghost use Rattle.std.specs.Prelude.{◌≡◌};
ghost use Rattle.cv_keep.specs.declared.error.KeepError.TheVariants as error;

use crate::fault::DiskFault;
use cv_seq::NoMemory;
use std::alloc::{AllocError, AllocFailed};
use thiserror::Error;

/// Why a journal could not be opened, read or appended to.
#[derive(Clone, Copy, Debug, PartialEq, Eq, Error)]
pub enum KeepError {
    #[error("the disk failed")]
    DiskFault,
    #[error("the file would pass 2^40 bytes")]
    Full,
    #[error("out of memory")]
    NoMemory,
}

impl From<DiskFault> for KeepError {
    ghost use Rattle.cv_keep.specs.code.Errors.{keep_error};

    ghost from_gives = { λ fault e. e ≡ keep_error fault };

    fn from(fault: DiskFault) -> KeepError {
        match fault {
            DiskFault::Failed => KeepError::DiskFault,
            DiskFault::NoMemory => KeepError::NoMemory,
        }
    }
}

impl From<NoMemory> for KeepError {
    ghost from_gives = { λ _ e. e ≡ error.NoMemory };

    fn from(_error: NoMemory) -> KeepError {
        KeepError::NoMemory
    }
}

impl From<AllocError> for KeepError {
    ghost from_gives = { λ _ e. e ≡ error.NoMemory };

    fn from(_error: AllocError) -> KeepError {
        KeepError::NoMemory
    }
}

/// The rejected value is dropped.
impl<T: Drop> From<AllocFailed<T>> for KeepError {
    ghost from_gives = { λ _ e. e ≡ error.NoMemory };

    fn from(_failed: AllocFailed<T>) -> KeepError {
        KeepError::NoMemory
    }
}
