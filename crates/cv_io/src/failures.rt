ghost use Rattle.std.specs.Prelude.{◌≡◌};
ghost use Rattle.cv_seq.specs.Cause.{CausedBy, is_to_fail, next_count};
ghost use Rattle.cv_io.specs.Fault.{is_failed};
ghost use Rattle.cv_io.specs.Memory.{faults_after};

use crate::fault::IoFault;
use cv_seq::Seq;

/// Which calls fail, numbered from 1, and how many calls there were and how many of them failed.
#[derive(Debug, Drop)]
pub(crate) struct Failures {
    pub(crate) fails: Seq<u64>,
    pub(crate) calls: u64,
    pub(crate) faults: u64,
}

impl Failures {
    /// No call was made yet.
    pub(crate) fn new(fails: Seq<u64>) -> Failures
        ensures { result ≡ record { fails = fails; calls = 0; faults = 0 } }
    {
        Failures {
            fails,
            calls: 0,
            faults: 0,
        }
    }

    /// Counts one more call, which fails if it is to.
    pub(crate) fn call(&mut self) -> Result<(), IoFault>
        ensures failed { is_failed result ≡ is_to_fail self.old.fails (next_count self.old.calls) }
        ensures cause { CausedBy self.old.faults self.new.faults (is_failed result) }
        ensures calls { self.new.calls ≡ next_count self.old.calls }
        ensures faults { self.new.faults ≡ faults_after (is_to_fail self.old.fails (next_count self.old.calls)) self.old.faults }
        ensures fails { self.new.fails ≡ self.old.fails }
    {
        self.calls = self.calls.saturating_add(1);
        if self.fails.as_slice().contains(&self.calls) {
            self.faults = self.faults.saturating_add(1);
            return Err(IoFault::Failed);
        }
        Ok(())
    }
}
