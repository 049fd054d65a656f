ghost use Rattle.std.specs.Prelude.{Option, ℕ, List};
ghost use Rattle.std.specs.Io.{ReadsAtMost};
ghost use Rattle.std.specs.Io.KnownBytes.{ReadConsumes};
ghost use Rattle.cv_seq.specs.Cause.{CausedBy};
ghost use Rattle.cv_io.specs.Fault.{is_failed};

use crate::fault::IoFault;

/// Where bytes are read from.
pub trait Source {
    /// The bytes that remain to be read, if they are known.
    ghost remaining: { Self → Option (List ℕ) };

    /// How often it failed. The count never falls.
    ghost faults: { Self → ℕ };

    /// Moves the first remaining bytes into the front of `buf`, and returns how many. Zero for a `buf` that
    /// is not empty means the end.
    fn read(&mut self, buf: &mut [u8]) -> Result<usize, IoFault>
        ensures bound { ReadsAtMost result buf.new }
        ensures bytes { ReadConsumes (remaining self.old) (remaining self.new) result buf.new }
        ensures cause { CausedBy (faults self.old) (faults self.new) (is_failed result) };
}
