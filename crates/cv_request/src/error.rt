ghost use Rattle.std.specs.Prelude.{◌≡◌};
ghost use Rattle.cv_request.specs.Fault.{fault_of, error_of};
ghost use Rattle.cv_request.specs.declared.error.RequestError.TheVariants as error;
ghost use Rattle.cv_request.specs.code.Records.{requested};

use cv_base::NoMemory;
use cv_osv::{OsvError, RecordWhat};
use std::alloc::AllocFailed;
use thiserror::Error;

/// What is wrong with a request.
#[derive(Clone, Copy, Debug, PartialEq, Eq, Error)]
pub enum RequestWhat {
    #[error("the line is not an object")]
    NotObject,
    #[error("`lane` is not a whole number from 0 to 7")]
    BadLane,
    #[error("`do` is not a known command")]
    BadDo,
    #[error("`image` is not a digest")]
    BadImage,
    #[error("the manifest is not an object")]
    BadManifest,
    #[error("`hash` is not a digest")]
    BadHash,
    #[error("`layers` is not a list")]
    BadLayers,
    #[error("there are no layers")]
    NoLayers,
    #[error("there are too many layers")]
    TooManyLayers,
    /// The index of the layer, from 0.
    #[error("layer {0} has no digest")]
    BadLayer(u32),
    /// The index of the layer, from 0.
    #[error("the seal of layer {0} is not a digest")]
    BadSeal(u32),
    #[error("`feed` is not the name of a feed")]
    BadFeed,
    #[error("`base` is not the generation of a feed")]
    BadBase,
    #[error("`remove` is not a list of texts")]
    BadRemove,
    #[error("`advisories` is not a list")]
    BadAdvisories,
    #[error("`number` is not the number of a notification")]
    BadNumber,
    #[error("`size` is not the size of a page")]
    BadSize,
    #[error("`page` is not the number of a page")]
    BadPage,
}

/// Why a line is refused as a request: what is wrong with the line itself. Records are numbered from 0.
#[derive(Clone, Copy, Debug, PartialEq, Eq)]
pub enum RequestFault {
    BadJson,
    BadRequest(RequestWhat),
    BadAdvisory { index: u32, what: RecordWhat },
    DuplicateId { first: u32, second: u32 },
    TooManyAdvisories,
}

/// Why a line was not read as a request: its fault, or out of memory.
#[derive(Clone, Copy, Debug, PartialEq, Eq, Error)]
pub enum RequestError {
    #[error("the line is not a JSON value")]
    BadJson,
    #[error("the request is malformed: {0}")]
    BadRequest(RequestWhat),
    #[error("record {index} is malformed: {what}")]
    BadAdvisory { index: u32, what: RecordWhat },
    #[error("records {first} and {second} have one id")]
    DuplicateId { first: u32, second: u32 },
    #[error("there are too many records")]
    TooManyAdvisories,
    #[error("out of memory")]
    NoMemory,
}

impl RequestError {
    /// The fault of the line, if the call did not run out of memory.
    pub fn fault(self) -> Option<RequestFault>
        ensures { result ≡ fault_of self }
    {
        match self {
            RequestError::BadJson => Some(RequestFault::BadJson),
            RequestError::BadRequest(what) => Some(RequestFault::BadRequest(what)),
            RequestError::BadAdvisory { index, what } => {
                Some(RequestFault::BadAdvisory { index, what })
            }
            RequestError::DuplicateId { first, second } => {
                Some(RequestFault::DuplicateId { first, second })
            }
            RequestError::TooManyAdvisories => Some(RequestFault::TooManyAdvisories),
            RequestError::NoMemory => None,
        }
    }
}

impl From<RequestFault> for RequestError {
    ghost from_gives = { λ fault e. e ≡ error_of fault };

    fn from(fault: RequestFault) -> RequestError {
        match fault {
            RequestFault::BadJson => RequestError::BadJson,
            RequestFault::BadRequest(what) => RequestError::BadRequest(what),
            RequestFault::BadAdvisory { index, what } => RequestError::BadAdvisory { index, what },
            RequestFault::DuplicateId { first, second } => {
                RequestError::DuplicateId { first, second }
            }
            RequestFault::TooManyAdvisories => RequestError::TooManyAdvisories,
        }
    }
}

impl From<RequestWhat> for RequestError {
    ghost from_gives = { λ what e. e ≡ error.BadRequest what };

    fn from(what: RequestWhat) -> RequestError {
        RequestError::BadRequest(what)
    }
}

/// The refusal of records, as that of a line.
impl From<OsvError> for RequestError {
    ghost from_gives = { λ refusal e. e ≡ requested refusal };

    fn from(refusal: OsvError) -> RequestError {
        match refusal {
            OsvError::NotList => RequestError::BadRequest(RequestWhat::BadAdvisories),
            OsvError::TooMany => RequestError::TooManyAdvisories,
            OsvError::BadAdvisory { index, what } => RequestError::BadAdvisory { index, what },
            OsvError::DuplicateId { first, second } => RequestError::DuplicateId { first, second },
            OsvError::NoMemory => RequestError::NoMemory,
        }
    }
}

impl From<NoMemory> for RequestError {
    ghost from_gives = { λ _ e. e ≡ error.NoMemory };

    fn from(_error: NoMemory) -> RequestError {
        RequestError::NoMemory
    }
}

/// The rejected value is dropped.
impl<T: Drop> From<AllocFailed<T>> for RequestError {
    ghost from_gives = { λ _ e. e ≡ error.NoMemory };

    fn from(_failed: AllocFailed<T>) -> RequestError {
        RequestError::NoMemory
    }
}
