ghost use Rattle.std.specs.Prelude.{◌≡◌};
ghost use Rattle.cv_osv.specs.declared.error.OsvError.TheVariants as osv;

use crate::record_error::RecordWhat;
use cv_base::NoMemory;
use thiserror::Error;

/// Why a list of records was not read. Indices count from 0.
#[derive(Clone, Copy, Debug, PartialEq, Eq, Error)]
pub enum OsvError {
    #[error("records stand in a list")]
    NotList,
    #[error("a list has at most 200000 records")]
    TooMany,
    #[error("record {index}: {what}")]
    BadAdvisory { index: u32, what: RecordWhat },
    #[error("record {second} has the id of record {first}")]
    DuplicateId { first: u32, second: u32 },
    #[error("out of memory")]
    NoMemory,
}

impl From<NoMemory> for OsvError {
    ghost from_gives = { λ _ e. e ≡ osv.NoMemory };

    fn from(_error: NoMemory) -> OsvError {
        OsvError::NoMemory
    }
}
