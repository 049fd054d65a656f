ghost use Rattle.std.specs.Prelude.{◌≡◌, ◌+◌, ◌≤◌, ◌++◌, [], ◌∷◌, ℕ, List, Option, option_map, is_none, length, take, drop, IfSome, IfOk, OnOk, OnErr};
ghost use Rattle.cv_seq.specs.Cause.{CausedBy};
ghost use Rattle.cv_keep.specs.Disk.{IsCut, IsDurable, IsSame, IsTorn, Steps, images_now, written};
ghost use Rattle.cv_keep.specs.Fault.{is_failed};

use crate::fault::DiskFault;

/// One file, and what a crash may leave of it.
pub trait Disk {
    /// What a read gives, if the disk knows it and keeps to the model of `specs/Disk.antt`. A call never changes which.
    ghost contents: { Self → Option (List ℕ) };

    /// The moment. It never falls.
    ghost moment: { Self → ℕ };

    /// What a crash at that moment, or at a later one up to now, may leave.
    ghost may_leave: { Self → ℕ → List ℕ → Type 0 };

    /// The moment after each sync that succeeded, the first one first.
    ghost syncs: { Self → List ℕ };

    /// How often it failed. The count never falls.
    ghost faults: { Self → ℕ };

    /// How many bytes the file has.
    fn len(&mut self) -> Result<u64, DiskFault>
        ensures length { IfSome (contents self.old) (λ b. IfOk result (λ len. len ≡ length b)) }
        ensures contents { contents self.new ≡ contents self.old }
        ensures syncs { syncs self.new ≡ syncs self.old }
        ensures crash { Steps IsSame moment may_leave self.old self.new }
        ensures cause { CausedBy (faults self.old) (faults self.new) (is_failed result) };

    /// Fills `buf` with the bytes from a place on.
    fn read(&mut self, at: u64, buf: &mut [u8]) -> Result<(), DiskFault>
        requires inside { IfSome (contents self.old) (λ b. at + length buf.old ≤ length b) }
        ensures read { IfSome (contents self.old) (λ b. OnOk result (buf.new ≡ take (length buf.old) (drop at b))) }
        ensures contents { contents self.new ≡ contents self.old }
        ensures syncs { syncs self.new ≡ syncs self.old }
        ensures crash { Steps IsSame moment may_leave self.old self.new }
        ensures cause { CausedBy (faults self.old) (faults self.new) (is_failed result) };

    /// Writes bytes at a place, over what is there and past the end.
    fn write_at(&mut self, at: u64, bytes: &[u8]) -> Result<(), DiskFault>
        requires inside { IfSome (contents self.old) (λ b. at ≤ length b) }
        ensures written { OnOk result (contents self.new ≡ option_map (written at bytes.now) (contents self.old)) }
        ensures known { is_none (contents self.new) ≡ is_none (contents self.old) }
        ensures syncs { syncs self.new ≡ syncs self.old }
        ensures crash { Steps (IsTorn at (length bytes.now)) moment may_leave self.old self.new }
        ensures cause { CausedBy (faults self.old) (faults self.new) (is_failed result) };

    /// Cuts the file to a length.
    fn cut(&mut self, len: u64) -> Result<(), DiskFault>
        requires inside { IfSome (contents self.old) (λ b. len ≤ length b) }
        ensures cut { OnOk result (contents self.new ≡ option_map (take len) (contents self.old)) }
        ensures known { is_none (contents self.new) ≡ is_none (contents self.old) }
        ensures syncs { syncs self.new ≡ syncs self.old }
        ensures crash { Steps (IsCut len) moment may_leave self.old self.new }
        ensures cause { CausedBy (faults self.old) (faults self.new) (is_failed result) };

    /// After it, a crash leaves what a read gives.
    fn sync(&mut self) -> Result<(), DiskFault>
        ensures durable { OnOk result (IfSome (contents self.old) (λ b. IsDurable b (images_now moment may_leave self.new))) }
        ensures contents { contents self.new ≡ contents self.old }
        ensures syncs { IfSome (contents self.old) (λ _. OnOk result (syncs self.new ≡ syncs self.old ++ moment self.new ∷ [])) }
        ensures not_synced { OnErr result (syncs self.new ≡ syncs self.old) }
        ensures crash { Steps IsSame moment may_leave self.old self.new }
        ensures cause { CausedBy (faults self.old) (faults self.new) (is_failed result) };

    /// What may be left from a moment on may be left from an earlier one on.
    ghost earlier: { (d : Self) (t u : ℕ) (image : List ℕ) → t ≤ u → may_leave d u image → may_leave d t image };

    /// What a read gives is one of the images that a crash now may leave.
    ghost reads: { (d : Self) → IfSome (contents d) (may_leave d (moment d)) };
}
