ghost use Rattle.std.specs.Prelude.{◌≡◌, ◌+◌, ◌<◌, ◌≤◌, ◌^◌, ℕ, List, [], false, length, IfOk, IfSome, IsErrOf, OnOk};
ghost use Rattle.cv_seq.specs.Cause.{CausedBy};
ghost use Rattle.cv_core_machine.specs.Scans.{StatesEveryLayer, trees_of};
ghost use Rattle.cv_hub_seats.specs.Events.{acts_of, state_of};
ghost use Rattle.cv_hub_seats.specs.Seats.{AreAllReceipts, AreFresh, AreNumbered};
ghost use Rattle.cv_keep.specs.Disk.{IsSame, Steps};
ghost use Rattle.cv_keep.specs.Journal.{Belongs, IsGate, IsReadAt};
ghost use Rattle.cv_keep.specs.Records.{records};
ghost use Rattle.cv_keep_replay.specs.Cause.{is_desk_fault, is_keep_fault};
ghost use Rattle.cv_keep_replay.specs.Good.{IsFirstBad, IsReplayOf, ListsAtMost, start_of};
ghost use Rattle.cv_keep_replay.specs.Kept.{index_count};

use crate::error::ReplayError;
use crate::record::replay_record;
use crate::resumed::Resumed;
use cv_desk::Desk;
use cv_hub::{Hub, Identity, Seat};
use cv_keep::{Disk, Journal, KeepError, Kept};
use std::alloc::Global;
use std::sync::Wait;

/// Submits all events that a file keeps to a hub that has applied none, and tells how many there are and the generation after them.
/// A worker's `indexed` lists its layer once on this desk. If a record is not good, is not read or is not carried out, the hub
/// and the seats are not to be used further. It waits for the lock of the hub.
pub fn replay<J: Disk, D: Desk + Drop, L: Identity, W: Wait>(
    rt: &W,
    alloc: Global,
    journal: &Journal,
    disk: &mut J,
    hub: &mut Hub<D, L>,
    seats: &mut [Seat<D, L>],
    desk: &mut D,
) -> Result<Resumed, ReplayError>
    requires sound { journal.now.failed ≡ false }
    requires belongs { Belongs J.contents J.moment J.may_leave journal.now disk.old }
    requires hub { hub.old ≡ [] }
    requires all { length seats.old ≡ L.parts }
    requires has_seats { 0 < length seats.old }
    requires fresh { AreFresh 0 seats.old }
    requires room { D.listings desk.old < 2 ^ 62 }
    ensures replayed { OnOk result (IfSome (J.contents disk.old) (λ bytes. IsReplayOf D.tree L.limits (records bytes) hub.new)) }
    ensures events { IfOk result (λ resumed. resumed.events ≡ length hub.new) }
    ensures generation { StatesEveryLayer D.tree → IfOk result (λ resumed. resumed.generation ≡ (state_of (trees_of D.tree) L.limits hub.new).generation) }
    ensures bad_keep { StatesEveryLayer D.tree → (k : ℕ) → IsErrOf result (ReplayError.BadKeep k) → IfSome (J.contents disk.old) (λ bytes. IsFirstBad (trees_of D.tree) (start_of L.limits) (records bytes) k) }
    ensures desk_cause { CausedBy (D.faults desk.old) (D.faults desk.new) (is_desk_fault result) }
    ensures disk_cause { CausedBy (J.faults disk.old) (J.faults disk.new) (is_keep_fault result) }
    ensures listed { OnOk result (D.listings desk.new ≡ D.listings desk.old + index_count (acts_of hub.new)) }
    ensures lists_at_most { IfSome (J.contents disk.old) (λ bytes. ListsAtMost (records bytes) (D.listings desk.old) (D.listings desk.new)) }
    ensures room { OnOk result (D.listings desk.new ≤ 2 ^ 62 + length hub.new) }
    ensures numbered { OnOk result (AreNumbered 0 seats.new) }
    ensures receipts { OnOk result (AreAllReceipts hub.new seats.new) }
    ensures belongs { Belongs J.contents J.moment J.may_leave journal.now disk.new }
    ensures contents { J.contents disk.new ≡ J.contents disk.old }
    ensures syncs { J.syncs disk.new ≡ J.syncs disk.old }
    ensures crash { Steps IsSame J.moment J.may_leave disk.old disk.new }
{
    let mut at = 0;
    let mut count = 0;
    let mut resumed = Resumed {
        events: 0,
        generation: 0,
    };
    for _ in rt.forever() {
        let Some(kept) = next_record(alloc, journal, disk, at)? else {
            return Ok(resumed);
        };
        let bytes = kept.bytes.as_slice();
        if !replay_record(rt, alloc, hub, seats, desk, bytes, &mut resumed)? {
            return Err(ReplayError::BadKeep(count));
        }
        at = kept.next;
        count += 1;
    }
    unreachable!()
}

/// The record after a gate of the file. `Full` does not come from a read.
fn next_record<J: Disk>(
    alloc: Global,
    journal: &Journal,
    disk: &mut J,
    at: u64,
) -> Result<Option<Kept>, ReplayError>
    requires sound { journal.now.failed ≡ false }
    requires belongs { Belongs J.contents J.moment J.may_leave journal.now disk.old }
    requires gate { IfSome (J.contents disk.old) (IsGate at) }
    ensures read { IfSome (J.contents disk.old) (λ b. IfOk result (IsReadAt at b)) }
    ensures belongs { Belongs J.contents J.moment J.may_leave journal.now disk.new }
    ensures contents { J.contents disk.new ≡ J.contents disk.old }
    ensures syncs { J.syncs disk.new ≡ J.syncs disk.old }
    ensures crash { Steps IsSame J.moment J.may_leave disk.old disk.new }
    ensures not_bad { (k : ℕ) → IsErrOf result (ReplayError.BadKeep k) → ⊥ }
    ensures not_desk { is_desk_fault result ≡ false }
    ensures cause { CausedBy (J.faults disk.old) (J.faults disk.new) (is_keep_fault result) }
{
    match journal.read(alloc, disk, at) {
        Ok(found) => Ok(found),
        Err(KeepError::DiskFault) => Err(ReplayError::KeepFault),
        Err(KeepError::Full) => unreachable!(),
        Err(KeepError::NoMemory) => Err(ReplayError::NoMemory),
    }
}
