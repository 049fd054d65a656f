ghost use Rattle.std.specs.Prelude.{◌≡◌};
ghost use Rattle.cv_advdb.specs.declared.error.AdvError.TheVariants as error;
ghost use Rattle.cv_advdb.specs.declared.error.PatchError.TheVariants as patch_error;

use cv_base::NoMemory;
use thiserror::Error;

/// Why the records of a feed were not replaced.
#[derive(Clone, Copy, Debug, PartialEq, Eq, Error)]
pub enum AdvError {
    #[error("there are as many feeds as there may be")]
    TooManyFeeds,
    #[error("out of memory")]
    NoMemory,
}

impl From<NoMemory> for AdvError {
    ghost from_gives = { λ e r. r ≡ error.NoMemory };

    fn from(_error: NoMemory) -> AdvError {
        AdvError::NoMemory
    }
}

/// Why a feed was not patched.
#[derive(Clone, Copy, Debug, PartialEq, Eq, Error)]
pub enum PatchError {
    #[error("there is no feed of this name")]
    NoFeed,
    #[error("a feed has at most 200000 records, and would have {would}")]
    TooManyRecords { would: u64 },
    #[error("out of memory")]
    NoMemory,
}

impl From<NoMemory> for PatchError {
    ghost from_gives = { λ e r. r ≡ patch_error.NoMemory };

    fn from(_error: NoMemory) -> PatchError {
        PatchError::NoMemory
    }
}
