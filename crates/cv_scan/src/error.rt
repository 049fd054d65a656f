ghost use Rattle.std.specs.Prelude.{◌≡◌};
ghost use Rattle.cv_scan.specs.declared.error.ScanError.TheVariants as error;
ghost use Rattle.cv_scan.specs.Faults.{root_error};

use cv_base::{NoMemory, RelPath, What};
use cv_packages::{FileFault, PackagesError};
use thiserror::Error;

/// Why a root has no findings: its first package file, in the order of paths, that is refused.
#[derive(Debug, PartialEq, Eq, Drop, Error)]
pub enum ScanError {
    /// A line of the file is bad. Lines are numbered from 1.
    #[error("{path:?}, line {line}: {what:?}")]
    BadFile {
        path: RelPath,
        line: u64,
        what: What,
    },
    /// The file has more bytes than a package file may have.
    #[error("{path:?} is too large")]
    TooLarge {
        path: RelPath,
    },
    #[error("out of memory")]
    NoMemory,
}

/// The refused file, or that memory ran out.
impl From<PackagesError> for ScanError {
    ghost from_gives = { λ e out. out ≡ root_error e };

    fn from(error: PackagesError) -> ScanError {
        match error {
            PackagesError::Refused(FileFault::BadFile { path, line, what }) => {
                ScanError::BadFile { path, line, what }
            }
            PackagesError::Refused(FileFault::TooLarge { path }) => ScanError::TooLarge { path },
            PackagesError::NoMemory => ScanError::NoMemory,
        }
    }
}

impl From<NoMemory> for ScanError {
    ghost from_gives = { λ _ e. e ≡ error.NoMemory };

    fn from(_error: NoMemory) -> ScanError {
        ScanError::NoMemory
    }
}
