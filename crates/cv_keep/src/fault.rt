ghost use Rattle.std.specs.Prelude.{◌≡◌};
ghost use Rattle.cv_keep.specs.declared.fault.DiskFault.TheVariants as fault;

use cv_seq::NoMemory;
use std::alloc::AllocError;
use thiserror::Error;

/// Why a single call of a disk was not done.
#[derive(Clone, Copy, Debug, PartialEq, Eq, Error)]
pub enum DiskFault {
    #[error("the disk failed")]
    Failed,
    #[error("out of memory")]
    NoMemory,
}

impl From<NoMemory> for DiskFault {
    ghost from_gives = { λ _ f. f ≡ fault.NoMemory };

    fn from(_error: NoMemory) -> DiskFault {
        DiskFault::NoMemory
    }
}

impl From<AllocError> for DiskFault {
    ghost from_gives = { λ _ f. f ≡ fault.NoMemory };

    fn from(_error: AllocError) -> DiskFault {
        DiskFault::NoMemory
    }
}
