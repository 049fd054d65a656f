ghost use Rattle.std.specs.Prelude.{◌≡◌, ◌≢◌, Ok, Err, Some, IfOk, IfErr};
ghost use Rattle.std.specs.IoError.{error_kind};
ghost use Rattle.cv_seq.specs.Cause.{CausedBy, next_count};
ghost use Rattle.cv_hook.specs.Offers.{is_failed};

use crate::failure::HookFailure;
use crate::writing::{name_of, replace, rows_text};
use cv_base::Row;
use cv_hook::{Hook, HookFault, Took};
use std::io::{self, ErrorKind};

/// The folder `./hook`: the rows of a notification are the file `./hook/<number>.json`, which is there whole or not at all. One of that
/// name that is there already is replaced. The folder is not made; without it each offer fails. It never refuses, and its offers are
/// not known. Any failure of the system but running out of memory is counted, and the last one is kept with the number.
#[derive(Drop)]
pub struct FolderHook {
    rt: HostRuntime,
    faults: u64,
    last_failure: Option<HookFailure>,
}

impl FolderHook {
    /// A hook over the folder of the working directory. Nothing is done with the folder yet.
    pub fn new(rt: HostRuntime) -> FolderHook
        ensures { ⟦<FolderHook as Hook>⟧.faults result ≡ 0 }
    {
        FolderHook {
            rt,
            faults: 0,
            last_failure: None,
        }
    }

    /// Which offer failed the last time, and why. It is meant for people.
    pub fn last_failure(&self) -> Option<HookFailure> {
        self.last_failure
    }

    /// The answer to an offer, by what the system said of the file. A failure is counted and kept.
    fn answered(&mut self, number: u64, written: io::Result<()>) -> Result<Took, HookFault>
        ensures taken { IfOk written (λ _. result ≡ Ok Took.Taken) }
        ensures no_memory { IfErr written (λ reason. error_kind reason ≡ ErrorKind.OutOfMemory → result ≡ Err HookFault.NoMemory) }
        ensures failed { IfErr written (λ reason. error_kind reason ≢ ErrorKind.OutOfMemory → (result ≡ Err HookFault.Failed) × (self.new.faults ≡ next_count self.old.faults)) }
        ensures failure { IfErr written (λ reason. error_kind reason ≢ ErrorKind.OutOfMemory → self.new.last_failure ≡ Some (record { number = number; reason = reason })) }
        ensures cause { CausedBy self.old.faults self.new.faults (is_failed result) }
    {
        let Err(reason) = written else {
            return Ok(Took::Taken);
        };
        if reason.kind() == ErrorKind::OutOfMemory {
            return Err(HookFault::NoMemory);
        }
        self.faults = self.faults.saturating_add(1);
        self.last_failure = Some(HookFailure { number, reason });
        Err(HookFault::Failed)
    }
}

impl Hook for FolderHook {
    ghost use Rattle.std.specs.Prelude.{None};

    ghost offers = { λ h. None };

    ghost faults = { λ h. h.faults };

    fn offer(&mut self, number: u64, rows: &[Row]) -> Result<Took, HookFault>
        ensures cause { CausedBy self.old.faults self.new.faults (is_failed result) }
        ensures never_refused { IfOk result (λ took. took ≡ Took.Taken) }
    {
        let alloc = self.rt.alloc();
        let text = rows_text(alloc, rows)?;
        let name = name_of(alloc, number)?;
        let written = replace(&self.rt, name.as_str(), text.as_str());
        self.answered(number, written)
    }
}
