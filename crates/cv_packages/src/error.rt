ghost use Rattle.std.specs.Prelude.{◌≡◌};
ghost use Rattle.cv_packages.specs.Faults.{image_fault};
ghost use Rattle.cv_packages.specs.declared.error.PackagesError.TheVariants as error;

use cv_base::{NoMemory, RelPath, What};
use cv_overlay::ImageFault;
use std::alloc::AllocError;
use thiserror::Error;

/// Why the package files of a root are refused: the first refused file, in the order of paths.
#[derive(Debug, PartialEq, Eq, Drop, Error)]
pub enum FileFault {
    /// A line of the file is bad. Lines are numbered from 1.
    #[error("{path:?}, line {line}: {what:?}")]
    BadFile {
        path: RelPath,
        line: u64,
        what: What,
    },
    /// The file has more bytes than a package file may have.
    #[error("{path:?} is too large")]
    TooLarge {
        path: RelPath,
    },
}

/// A refused package file makes its image bad.
impl From<FileFault> for ImageFault {
    ghost from_gives = { λ fault out. out ≡ image_fault fault };

    fn from(fault: FileFault) -> ImageFault {
        match fault {
            FileFault::BadFile { path, line, what } => ImageFault::BadFile { path, line, what },
            FileFault::TooLarge { path } => ImageFault::TooLarge { path },
        }
    }
}

/// Why the packages of a root were not read.
#[derive(Debug, PartialEq, Eq, Drop, Error)]
pub enum PackagesError {
    #[error("{0}")]
    Refused(FileFault),
    #[error("out of memory")]
    NoMemory,
}

impl From<FileFault> for PackagesError {
    ghost from_gives = { λ fault e. e ≡ error.Refused fault };

    fn from(fault: FileFault) -> PackagesError {
        PackagesError::Refused(fault)
    }
}

impl From<NoMemory> for PackagesError {
    ghost from_gives = { λ _ e. e ≡ error.NoMemory };

    fn from(_error: NoMemory) -> PackagesError {
        PackagesError::NoMemory
    }
}

impl From<AllocError> for PackagesError {
    ghost from_gives = { λ _ e. e ≡ error.NoMemory };

    fn from(_error: AllocError) -> PackagesError {
        PackagesError::NoMemory
    }
}
