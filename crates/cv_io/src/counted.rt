ghost use Rattle.std.specs.Prelude.{◌≡◌, true, None, Some};
ghost use Rattle.cv_seq.specs.Cause.{CausedBy, next_count};
ghost use Rattle.cv_io.specs.Standard.{IsFaultOf};

use crate::fault::IoFault;
use std::io::{self, ErrorKind};

/// A reader or a writer of std with the count of its errors and the last of them.
#[derive(Drop)]
pub struct Counted<S> {
    pub stream: S,
    pub faults: u64,
    pub last_error: Option<io::Error>,
}

impl<S> Counted<S> {
    /// No error yet.
    pub fn new(stream: S) -> Counted<S>
        ensures stream { result.stream ≡ stream }
        ensures faults { result.faults ≡ 0 }
        ensures none { result.last_error ≡ None }
    {
        Counted {
            stream,
            faults: 0,
            last_error: None,
        }
    }

    /// Counts an error of the stream, and keeps it.
    pub fn note(&mut self, error: io::Error) -> IoFault
        ensures value { IsFaultOf error result }
        ensures stream { self.new.stream ≡ self.old.stream }
        ensures last_error { self.new.last_error ≡ Some error }
        ensures faults { self.new.faults ≡ next_count self.old.faults }
        ensures cause { CausedBy self.old.faults self.new.faults true }
    {
        self.faults = self.faults.saturating_add(1);
        self.last_error = Some(error);
        fault_of(error)
    }
}

/// What an error of the system is to the one who called.
fn fault_of(error: io::Error) -> IoFault
    ensures { IsFaultOf error result }
{
    if error.kind() == ErrorKind::OutOfMemory {
        IoFault::NoMemory
    } else {
        IoFault::Failed
    }
}
