ghost use Rattle.std.specs.Prelude.{Option, ℕ, List, ◌≤◌, ◌<◌, length, IfOk};
ghost use Rattle.cv_seq.specs.Cause.{CausedBy};
ghost use Rattle.cv_io.specs.Fault.{is_failed};
ghost use Rattle.cv_io.specs.Writes.{WritesFront};

use crate::fault::IoFault;

/// Where bytes are written to.
pub trait Sink {
    /// The bytes written, if they are known.
    ghost contents: { Self → Option (List ℕ) };

    /// How often it failed. The count never falls.
    ghost faults: { Self → ℕ };

    /// Appends the first bytes, and returns how many: at least one of a piece that is not empty. A write that failed
    /// may have appended some of them, as one whose flush failed.
    fn write(&mut self, bytes: &[u8]) -> Result<usize, IoFault>
        ensures bound { IfOk result (λ n. n ≤ length bytes.now) }
        ensures progress { IfOk result (λ n. 0 < length bytes.now → 0 < n) }
        ensures bytes { WritesFront (contents self.old) (contents self.new) result bytes.now }
        ensures cause { CausedBy (faults self.old) (faults self.new) (is_failed result) };
}
