ghost use Rattle.std.specs.Prelude.{◌≡◌};
ghost use Rattle.cv_facts.specs.Cause.{index_error};
ghost use Rattle.cv_facts.specs.declared.error.IndexError.TheVariants as error;

use cv_base::NoMemory;
use cv_desk::DeskFault;
use thiserror::Error;

/// Why a layer was not indexed.
#[derive(Clone, Copy, Debug, PartialEq, Eq, Error)]
pub enum IndexError {
    #[error("the layer could not be read")]
    DeskFault,
    #[error("out of memory")]
    NoMemory,
}

impl From<DeskFault> for IndexError {
    ghost from_gives = { λ fault e. e ≡ index_error fault };

    fn from(fault: DeskFault) -> IndexError {
        match fault {
            DeskFault::Failed => IndexError::DeskFault,
            DeskFault::NoMemory => IndexError::NoMemory,
        }
    }
}

impl From<NoMemory> for IndexError {
    ghost from_gives = { λ _ e. e ≡ error.NoMemory };

    fn from(_error: NoMemory) -> IndexError {
        IndexError::NoMemory
    }
}
