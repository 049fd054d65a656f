ghost use Rattle.std.specs.Prelude.{◌≡◌, ◌+◌, ◌≤◌, ◌<◌, ◌^◌, ℕ, List, length, drop, IfSome, IfOk};
ghost use Rattle.cv_seq.specs.Cause.{CausedBy};
ghost use Rattle.cv_keep.specs.Disk.{IsSame, Steps};
ghost use Rattle.cv_keep.specs.Fault.{is_failed};
ghost use Rattle.cv_keep.specs.Records.{gate_after, records};
ghost use Rattle.cv_keep.specs.code.Walk.{IsHead, IsNextGate};

use crate::disk::Disk;
use crate::fault::DiskFault;

/// An open gate.
pub(crate) const OPEN: u8 = 1;

/// Reads a gate byte and the length after it.
#[tactic(auto, unfolding(crate::specs::Records::size))]
fn read_head<J: Disk>(disk: &mut J, gate: u64) -> Result<(u8, u64), DiskFault>
    requires inside { IfSome (J.contents disk.old) (λ b. gate + 9 ≤ length b) }
    requires place { gate + 9 < 2 ^ 64 }
    ensures head { IfSome (J.contents disk.old) (λ b. IfOk result (λ head. IsHead (drop gate b) head.0 head.1)) }
    ensures contents { J.contents disk.new ≡ J.contents disk.old }
    ensures syncs { J.syncs disk.new ≡ J.syncs disk.old }
    ensures crash { Steps IsSame J.moment J.may_leave disk.old disk.new }
    ensures cause { CausedBy (J.faults disk.old) (J.faults disk.new) (is_failed result) }
{
    let mut head = [0u8; 9];
    disk.read(gate, &mut head)?;
    let mut size = [0u8; 8];
    size.copy_from_slice(&head[1..]);
    Ok((head[0], u64::from_be_bytes(size)))
}

/// The gate after the one at `gate`, if that one is open, and its record and the next gate lie before or at `last`.
pub(crate) fn next_gate<J: Disk>(
    disk: &mut J,
    gate: u64,
    last: u64,
) -> Result<Option<u64>, DiskFault>
    requires place { IfSome (J.contents disk.old) (λ b. (gate ≤ last) × (length b ≡ last + 1)) }
    ensures next { IfSome (J.contents disk.old) (λ b. IfOk result (IsNextGate b gate)) }
    ensures within { IfOk result (λ next. IfSome next (λ place. (gate + 9 ≤ place) × (place ≤ last))) }
    ensures contents { J.contents disk.new ≡ J.contents disk.old }
    ensures syncs { J.syncs disk.new ≡ J.syncs disk.old }
    ensures crash { Steps IsSame J.moment J.may_leave disk.old disk.new }
    ensures cause { CausedBy (J.faults disk.old) (J.faults disk.new) (is_failed result) }
{
    if last.saturating_sub(gate) < 9 {
        return Ok(None);
    }
    let (mark, size) = read_head(disk, gate)?;
    if mark == OPEN && size <= last - gate - 9 {
        Ok(Some(gate + 9 + size))
    } else {
        Ok(None)
    }
}

/// The closed gate of a file whose last byte stands at `last`.
pub(crate) fn last_gate<J: Disk>(disk: &mut J, last: u64) -> Result<u64, DiskFault>
    requires length { IfSome (J.contents disk.old) (λ b. length b ≡ last + 1) }
    ensures gate { IfSome (J.contents disk.old) (λ b. IfOk result (λ gate. gate ≡ gate_after (records b))) }
    ensures within { IfOk result (λ gate. gate ≤ last) }
    ensures contents { J.contents disk.new ≡ J.contents disk.old }
    ensures syncs { J.syncs disk.new ≡ J.syncs disk.old }
    ensures crash { Steps IsSame J.moment J.may_leave disk.old disk.new }
    ensures cause { CausedBy (J.faults disk.old) (J.faults disk.new) (is_failed result) }
{
    let mut gate = 0;
    while let Some(next) = next_gate(disk, gate, last)? {
        gate = next;
    }
    Ok(gate)
}
