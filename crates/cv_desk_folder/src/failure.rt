ghost use Rattle.std.specs.Prelude.{◌≡◌, ◌↔◌, IfErr, IfOk, IsErrAnd, IsTrue, Ok};
ghost use Rattle.cv_desk_folder.specs.code.Walked.{IsErrorOf, IsInterrupted};
ghost use Rattle.cv_desk_folder.specs.declared.failure.FolderError.TheVariants as error;

use cv_base::NoMemory;
use std::alloc::{AllocError, AllocFailed, Global};
use std::io::{self, ErrorKind};
use thiserror::Error;

/// Where real folders failed, and why, as the system says. It is meant for people. The path is empty if there was no memory
/// to keep it.
#[derive(Debug, Error, Drop)]
#[error("{path}: {reason}")]
pub struct FolderFailure {
    pub path: String,
    pub reason: io::Error,
}

/// Why a listing or a read of real folders was not finished.
#[derive(Debug, Drop)]
pub enum FolderError {
    Failed(FolderFailure),
    NoMemory,
}

impl From<NoMemory> for FolderError {
    ghost from_gives = { λ _ e. e ≡ error.NoMemory };

    fn from(_error: NoMemory) -> FolderError {
        FolderError::NoMemory
    }
}

impl From<AllocError> for FolderError {
    fn from(_error: AllocError) -> FolderError {
        FolderError::NoMemory
    }
}

/// The rejected value is dropped.
impl<T: Drop> From<AllocFailed<T>> for FolderError {
    fn from(_failed: AllocFailed<T>) -> FolderError {
        FolderError::NoMemory
    }
}

impl FolderError {
    /// Whether a signal interrupted a call of the system.
    pub fn is_interrupted(&self) -> bool
        ensures { IsTrue result ↔ IsInterrupted self.now }
    {
        match self {
            FolderError::Failed(failure) => failure.reason.kind() == ErrorKind::Interrupted,
            FolderError::NoMemory => false,
        }
    }
}

/// The system's answer about a path, with its error made one of this crate.
pub fn answer_at<X>(alloc: Global, path: &str, found: io::Result<X>) -> Result<X, FolderError>
    ensures ok { IfOk found (λ x. result ≡ Ok x) }
    ensures error { IfErr found (λ reason. IsErrAnd result (IsErrorOf reason)) }
{
    match found {
        Ok(found) => Ok(found),
        Err(error) => Err(failure(alloc, path, error)),
    }
}

/// The error that an error of the system at a path makes.
pub fn failure(alloc: Global, path: &str, reason: io::Error) -> FolderError
    ensures { IsErrorOf reason result }
{
    if reason.kind() == ErrorKind::OutOfMemory {
        return FolderError::NoMemory;
    }
    let path = match String::from_str(alloc, path) {
        Ok(path) => path,
        Err(_) => String::new(alloc),
    };
    FolderError::Failed(FolderFailure { path, reason })
}
