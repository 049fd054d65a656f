ghost use Rattle.std.specs.Prelude.{◌≡◌, ◌+◌, ◌<◌, ◌^◌, ◌++◌, ◌∷◌, ℕ, List, option_map, is_none, length, take, IfSome, OnOk};
ghost use Rattle.cv_seq.specs.Cause.{CausedBy};
ghost use Rattle.cv_keep.specs.Disk.{IsDurable, Leaves, images_now, written};
ghost use Rattle.cv_keep.specs.Fault.{is_failed};
ghost use Rattle.cv_keep.specs.Journal.{BelongsTo};
ghost use Rattle.cv_keep.specs.code.Walk.{IsStaged};

use crate::disk::Disk;
use crate::fault::DiskFault;
use crate::walk::OPEN;

/// Writes a block after the closed gate, and opens that gate only when the block is on the disk.
pub(crate) fn stage<J: Disk>(disk: &mut J, gate: u64, block: &[u8]) -> Result<(), DiskFault>
    requires belongs { BelongsTo gate (images_now J.moment J.may_leave disk.old) (J.contents disk.old) }
    requires place { gate + 1 < 2 ^ 64 }
    ensures written { OnOk result (J.contents disk.new ≡ option_map (λ b. take gate b ++ (1 ∷ block.now)) (J.contents disk.old)) }
    ensures durable { OnOk result (IfSome (J.contents disk.new) (λ b. IsDurable b (images_now J.moment J.may_leave disk.new))) }
    ensures known { is_none (J.contents disk.new) ≡ is_none (J.contents disk.old) }
    ensures any_moment { IfSome (J.contents disk.old) (λ b. Leaves J.moment J.may_leave disk.old disk.new (IsStaged (take gate b) block.now)) }
    ensures cause { CausedBy (J.faults disk.old) (J.faults disk.new) (is_failed result) }
{
    disk.write_at(gate + 1, block)?;
    disk.sync()?;
    disk.write_at(gate, &[OPEN])?;
    disk.sync()?;
    Ok(())
}
