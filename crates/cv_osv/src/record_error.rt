ghost use Rattle.std.specs.Prelude.{◌≡◌};
ghost use Rattle.cv_osv.specs.declared.record_error.AdvisoryError.TheVariants.{Bad};
ghost use Rattle.cv_osv.specs.declared.record_error.AdvisoryError.TheVariants as advisory;

use cv_base::NoMemory;
use thiserror::Error;

/// What is wrong with a record. A member with the value null counts as absent.
#[derive(Clone, Copy, Debug, PartialEq, Eq, Error)]
pub enum RecordWhat {
    #[error("a record is an object")]
    NotObject,
    #[error("`id` is a text that is not empty")]
    NoId,
    #[error("`modified` is a text")]
    NoModified,
    #[error("`withdrawn` is a text")]
    BadWithdrawn,
    #[error("`affected` is a list")]
    BadAffected,
    #[error("each item of `affected` is an object")]
    BadEntry,
    #[error("`package` is an object with the texts `ecosystem` and `name`")]
    BadPackage,
    #[error("`ranges` is a list of objects with a text `type`")]
    BadRange,
    #[error("`events` is a list of objects, whose versions are texts")]
    BadEvent,
    #[error("`versions` is a list of texts")]
    BadVersions,
}

/// Why a record was not read.
#[derive(Clone, Copy, Debug, PartialEq, Eq, Error)]
pub enum AdvisoryError {
    #[error("{0}")]
    Bad(RecordWhat),
    #[error("out of memory")]
    NoMemory,
}

impl From<RecordWhat> for AdvisoryError {
    ghost from_gives = { λ what e. e ≡ Bad what };

    fn from(what: RecordWhat) -> AdvisoryError {
        AdvisoryError::Bad(what)
    }
}

impl From<NoMemory> for AdvisoryError {
    ghost from_gives = { λ _ e. e ≡ advisory.NoMemory };

    fn from(_error: NoMemory) -> AdvisoryError {
        AdvisoryError::NoMemory
    }
}
