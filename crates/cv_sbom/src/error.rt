ghost use Rattle.std.specs.Prelude.{◌≡◌};
ghost use Rattle.cv_sbom.specs.Fault.{fault_of};
ghost use Rattle.cv_sbom.specs.declared.error.ListError.TheVariants as error;

use cv_base::NoMemory;
use std::alloc::AllocFailed;
use thiserror::Error;

/// What is wrong with a component list that is JSON.
#[derive(Clone, Copy, Debug, PartialEq, Eq, Error)]
pub enum ListWhat {
    #[error("the line is not an object")]
    NotObject,
    #[error("`bomFormat` is not `CycloneDX`")]
    BadFormat,
    #[error("`components` is not a list")]
    BadComponents,
}

/// Why a line is refused as a component list.
#[derive(Clone, Copy, Debug, PartialEq, Eq)]
pub enum ListFault {
    BadJson,
    BadList(ListWhat),
}

/// Why a line was not read as a component list: its fault, or out of memory.
#[derive(Clone, Copy, Debug, PartialEq, Eq, Error)]
pub enum ListError {
    #[error("the line is not a JSON value")]
    BadJson,
    #[error("the line is not a component list: {0}")]
    BadList(ListWhat),
    #[error("out of memory")]
    NoMemory,
}

impl ListError {
    /// The fault of the line, if the call did not run out of memory.
    pub fn fault(self) -> Option<ListFault>
        ensures { result ≡ fault_of self }
    {
        match self {
            ListError::BadJson => Some(ListFault::BadJson),
            ListError::BadList(what) => Some(ListFault::BadList(what)),
            ListError::NoMemory => None,
        }
    }
}

impl From<ListWhat> for ListError {
    ghost from_gives = { λ what e. e ≡ error.BadList what };

    fn from(what: ListWhat) -> ListError {
        ListError::BadList(what)
    }
}

impl From<NoMemory> for ListError {
    ghost from_gives = { λ _ e. e ≡ error.NoMemory };

    fn from(_error: NoMemory) -> ListError {
        ListError::NoMemory
    }
}

/// The rejected value is dropped.
impl<T: Drop> From<AllocFailed<T>> for ListError {
    ghost from_gives = { λ _ e. e ≡ error.NoMemory };

    fn from(_failed: AllocFailed<T>) -> ListError {
        ListError::NoMemory
    }
}
