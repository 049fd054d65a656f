ghost use Rattle.std.specs.Prelude.{◌≡◌};
ghost use Rattle.cv_seq.specs.Cause.{CausedBy};
ghost use Rattle.cv_desk.specs.Fault.{is_failed};
ghost use Rattle.cv_desk_folder.specs.code.Walked.{desk_answer, failure_after, faults_after};

use crate::failure::{FolderError, FolderFailure};
use crate::reading::read_file;
use crate::walk::list_folder;
use cv_base::{Digest, ListEntry, RelPath, Seq};
use cv_desk::{Desk, DeskFault, ReadResult};
use std::alloc::Global;
use std::rt::Files;

/// Real folders below `./layers`: the layer of a digest is the folder `layers/sha256/<64 digits>`. No tree is known. A folder
/// that does not exist is no layer. A link is listed as `Other` and is not read; the system follows links among the folders on the
/// way to a file. Any other failure but running out of memory is a fault, as a name that is not UTF-8, a file that is gone or one that
/// was replaced while it was read. The last failure is kept with its path. What signals interrupt is tried again.
#[derive(Drop)]
pub struct FolderDesk<R: Files + AllocGlobal + Clone + Drop> {
    rt: R,
    faults: u64,
    listings: u64,
    reads: u64,
    last_failure: Option<FolderFailure>,
}

impl<R: Files + AllocGlobal + Clone + Drop> FolderDesk<R> {
    /// A desk over the folders of the working directory.
    pub fn new(rt: R) -> FolderDesk<R>
        ensures faults { ⟦<FolderDesk<R> as Desk>⟧.faults result ≡ 0 }
        ensures listings { ⟦<FolderDesk<R> as Desk>⟧.listings result ≡ 0 }
        ensures reads { ⟦<FolderDesk<R> as Desk>⟧.reads result ≡ 0 }
    {
        FolderDesk {
            rt,
            faults: 0,
            listings: 0,
            reads: 0,
            last_failure: None,
        }
    }

    /// Where and why the last call that failed did so. It is meant for people.
    pub fn last_failure(&self) -> Option<&FolderFailure> {
        self.last_failure.as_ref()
    }

    /// The desk's answer. A failure is counted and kept.
    fn counted<X>(&mut self, found: Result<X, FolderError>) -> Result<X, DeskFault>
        ensures answer { result ≡ desk_answer found }
        ensures faults { self.new.faults ≡ faults_after self.old.faults found }
        ensures failure { self.new.last_failure ≡ failure_after self.old.last_failure found }
        ensures cause { CausedBy self.old.faults self.new.faults (is_failed result) }
        ensures listings { self.new.listings ≡ self.old.listings }
        ensures reads { self.new.reads ≡ self.old.reads }
    {
        match found {
            Ok(found) => Ok(found),
            Err(FolderError::NoMemory) => Err(DeskFault::NoMemory),
            Err(FolderError::Failed(failure)) => {
                self.faults = self.faults.saturating_add(1);
                self.last_failure = Some(failure);
                Err(DeskFault::Failed)
            }
        }
    }
}

impl<R: Files + AllocGlobal + Clone + Drop> Desk for FolderDesk<R> {
    ghost use Rattle.std.specs.Prelude.{None};

    ghost tree = { λ d. None };

    ghost faults = { λ s. s.faults };

    ghost listings = { λ s. s.listings };

    ghost reads = { λ s. s.reads };

    ghost distinct = { λ d. tt };

    ghost paths = { λ d. tt };

    fn list(&mut self, alloc: Global, layer: &Digest) -> Result<Option<Seq<ListEntry>>, DeskFault> {
        self.listings += 1;
        let found = list_folder(&self.rt, alloc, layer);
        self.counted(found)
    }

    fn read(&mut self, alloc: Global, layer: &Digest, path: &RelPath, limit: u32) -> ReadResult {
        self.reads = self.reads.saturating_add(1);
        let found = read_file(&self.rt, alloc, layer, path, limit);
        self.counted(found)
    }
}
