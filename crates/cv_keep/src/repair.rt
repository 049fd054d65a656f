ghost use Rattle.std.specs.Prelude.{◌≡◌, ◌+◌, ◌≤◌, ◌<◌, ◌^◌, ℕ, List, option_map, is_none, length, take, IfSome, IfOk, OnOk};
ghost use Rattle.cv_seq.specs.Cause.{CausedBy};
ghost use Rattle.cv_keep.specs.Disk.{IsCut, IsDurable, IsSame, Leaves, Steps, images_now};
ghost use Rattle.cv_keep.specs.Fault.{is_failed};
ghost use Rattle.cv_keep.specs.Journal.{BelongsTo};
ghost use Rattle.cv_keep.specs.Records.{HasRecordsOf, gate_after, records};
ghost use Rattle.cv_keep.specs.code.Walk.{IsFront};

use crate::disk::Disk;
use crate::fault::DiskFault;
use crate::walk::last_gate;

/// A closed gate.
pub(crate) const CLOSED: u8 = 0;

/// The place of the closed gate of a file of this length; an empty file has it at 0.
fn find_gate<J: Disk>(disk: &mut J, len: u64) -> Result<u64, DiskFault>
    requires length { IfSome (J.contents disk.old) (λ b. length b ≡ len) }
    ensures gate { IfSome (J.contents disk.old) (λ b. IfOk result (λ gate. gate ≡ gate_after (records b))) }
    ensures within { IfOk result (λ gate. gate ≤ len) }
    ensures contents { J.contents disk.new ≡ J.contents disk.old }
    ensures syncs { J.syncs disk.new ≡ J.syncs disk.old }
    ensures crash { Steps IsSame J.moment J.may_leave disk.old disk.new }
    ensures cause { CausedBy (J.faults disk.old) (J.faults disk.new) (is_failed result) }
{
    if len == 0 {
        return Ok(0);
    }
    last_gate(disk, len - 1)
}

/// Cuts the file after its last gate where it is longer.
fn cut_end<J: Disk>(disk: &mut J, gate: u64, len: u64) -> Result<(), DiskFault>
    requires length { IfSome (J.contents disk.old) (λ b. length b ≡ len) }
    ensures cut { OnOk result (J.contents disk.new ≡ option_map (take (gate + 1)) (J.contents disk.old)) }
    ensures known { is_none (J.contents disk.new) ≡ is_none (J.contents disk.old) }
    ensures syncs { J.syncs disk.new ≡ J.syncs disk.old }
    ensures crash { Steps (IsCut (gate + 1)) J.moment J.may_leave disk.old disk.new }
    ensures cause { CausedBy (J.faults disk.old) (J.faults disk.new) (is_failed result) }
{
    if len.saturating_sub(gate) > 1 {
        disk.cut(gate + 1)
    } else {
        Ok(())
    }
}

/// Cuts the end of the file, and brings the cut to the disk.
fn trim<J: Disk>(disk: &mut J, gate: u64, len: u64) -> Result<(), DiskFault>
    requires length { IfSome (J.contents disk.old) (λ b. (length b ≡ len) × (gate ≡ gate_after (records b)) × (gate ≤ len)) }
    requires durable { IfSome (J.contents disk.old) (λ b. IsDurable b (images_now J.moment J.may_leave disk.old)) }
    ensures trimmed { OnOk result (J.contents disk.new ≡ option_map (take (gate + 1)) (J.contents disk.old)) }
    ensures durable { OnOk result (IfSome (J.contents disk.new) (λ b. IsDurable b (images_now J.moment J.may_leave disk.new))) }
    ensures known { is_none (J.contents disk.new) ≡ is_none (J.contents disk.old) }
    ensures any_moment { IfSome (J.contents disk.old) (λ b. Leaves J.moment J.may_leave disk.old disk.new (HasRecordsOf b)) }
    ensures syncs { IfSome (J.contents disk.old) (λ _. IsFront (J.syncs disk.old) (J.syncs disk.new)) }
    ensures cause { CausedBy (J.faults disk.old) (J.faults disk.new) (is_failed result) }
{
    cut_end(disk, gate, len)?;
    disk.sync()?;
    Ok(())
}

/// Writes the closed gate at the end of a trimmed file.
fn close<J: Disk>(disk: &mut J, gate: u64) -> Result<(), DiskFault>
    requires place { IfSome (J.contents disk.old) (λ b. (gate ≤ length b) × (length b ≤ gate + 1) × (gate ≡ gate_after (records b))) }
    requires durable { IfSome (J.contents disk.old) (λ b. IsDurable b (images_now J.moment J.may_leave disk.old)) }
    ensures settled { OnOk result (BelongsTo gate (images_now J.moment J.may_leave disk.new) (J.contents disk.new)) }
    ensures found { OnOk result (option_map records (J.contents disk.new) ≡ option_map records (J.contents disk.old)) }
    ensures known { is_none (J.contents disk.new) ≡ is_none (J.contents disk.old) }
    ensures any_moment { IfSome (J.contents disk.old) (λ b. Leaves J.moment J.may_leave disk.old disk.new (HasRecordsOf b)) }
    ensures syncs { IfSome (J.contents disk.old) (λ _. IsFront (J.syncs disk.old) (J.syncs disk.new)) }
    ensures cause { CausedBy (J.faults disk.old) (J.faults disk.new) (is_failed result) }
{
    disk.write_at(gate, &[CLOSED])?;
    disk.sync()?;
    Ok(())
}

/// Finds the closed gate of a file that is on the disk, cuts what stands after it, and writes it anew.
pub(crate) fn settle<J: Disk>(disk: &mut J) -> Result<u64, DiskFault>
    requires durable { IfSome (J.contents disk.old) (λ b. IsDurable b (images_now J.moment J.may_leave disk.old)) }
    ensures settled { IfOk result (λ gate. BelongsTo gate (images_now J.moment J.may_leave disk.new) (J.contents disk.new)) }
    ensures found { OnOk result (option_map records (J.contents disk.new) ≡ option_map records (J.contents disk.old)) }
    ensures known { is_none (J.contents disk.new) ≡ is_none (J.contents disk.old) }
    ensures any_moment { IfSome (J.contents disk.old) (λ b. Leaves J.moment J.may_leave disk.old disk.new (HasRecordsOf b)) }
    ensures syncs { IfSome (J.contents disk.old) (λ _. IsFront (J.syncs disk.old) (J.syncs disk.new)) }
    ensures cause { CausedBy (J.faults disk.old) (J.faults disk.new) (is_failed result) }
{
    let len = disk.len()?;
    let gate = find_gate(disk, len)?;
    trim(disk, gate, len)?;
    close(disk, gate)?;
    Ok(gate)
}
