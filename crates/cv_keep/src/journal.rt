ghost use Rattle.std.specs.Prelude.{◌≡◌, ◌⊎◌, ◌↔◌, ◌+◌, ◌≤◌, ◌<◌, ◌^◌, ◌++◌, [], ◌∷◌, ℕ, List, true, false, option_map, is_none, length, take, drop, IfSome, IfOk, IsErrOf, OnOk, OnErr};
ghost use Rattle.std.specs.Int.{w64, to_be_bytes};
ghost use Rattle.cv_seq.specs.Cause.{CausedBy};
ghost use Rattle.cv_keep.specs.Disk.{IsSame, Leaves, LeavesAfterSync, LeavesAsBeforeOr, Steps};
ghost use Rattle.cv_keep.specs.Fault.{is_disk_fault};
ghost use Rattle.cv_keep.specs.Journal.{Belongs, IsBeforeOrAfter, IsGate, IsReadAt};
ghost use Rattle.cv_keep.specs.Records.{HasRecordsOf, records};

use crate::disk::Disk;
use crate::error::KeepError;
use crate::repair::{CLOSED, settle};
use crate::stage::stage;
use crate::walk::next_gate;
use cv_seq::{NoMemory, Seq};
use std::alloc::Global;

/// The most bytes of a file.
pub const MAX_FILE: u64 = 1 << 40;

/// A record that was read, and the place of the gate after it.
#[derive(Debug, Drop)]
pub struct Kept {
    pub bytes: Seq<u8>,
    pub next: u64,
}

/// The place of a file's closed gate. After a record could not be appended the journal is failed, and the file has to be opened again.
#[derive(Debug, Drop)]
pub struct Journal {
    gate: u64,
    failed: bool,
}

impl Journal {
    /// Finds the records of a file, cuts what stands after them, and leaves the file with its closed gate on the disk.
    pub fn open<J: Disk>(disk: &mut J) -> Result<Journal, KeepError>
        ensures found { OnOk result (option_map records (J.contents disk.new) ≡ option_map records (J.contents disk.old)) }
        ensures belongs { IfOk result (λ journal. Belongs J.contents J.moment J.may_leave journal disk.new × (journal.failed ≡ false)) }
        ensures after_sync { IfSome (J.contents disk.old) (λ b. LeavesAfterSync (J.syncs disk.old) (J.syncs disk.new) (J.may_leave disk.new) (HasRecordsOf b)) }
        ensures any_moment { IfSome (J.contents disk.old) (λ b. LeavesAsBeforeOr J.moment J.may_leave disk.old disk.new (HasRecordsOf b)) }
        ensures known { is_none (J.contents disk.new) ≡ is_none (J.contents disk.old) }
        ensures same { IfSome (J.contents disk.old) (λ b. IfSome (J.contents disk.new) (HasRecordsOf b)) }
        ensures not_full { IsErrOf result KeepError.Full → ⊥ }
        ensures cause { CausedBy (J.faults disk.old) (J.faults disk.new) (is_disk_fault result) }
    {
        disk.sync()?;
        let gate = settle(disk)?;
        Ok(Journal {
            gate,
            failed: false,
        })
    }

    /// Reads the record after a gate: after 0 for the first one, or after the `next` of the one before.
    pub fn read<J: Disk>(
        &self,
        alloc: Global,
        disk: &mut J,
        at: u64,
    ) -> Result<Option<Kept>, KeepError>
        requires sound { self.now.failed ≡ false }
        requires belongs { Belongs J.contents J.moment J.may_leave self.now disk.old }
        requires gate { IfSome (J.contents disk.old) (IsGate at) }
        ensures read { IfSome (J.contents disk.old) (λ b. IfOk result (IsReadAt at b)) }
        ensures belongs { Belongs J.contents J.moment J.may_leave self.now disk.new }
        ensures contents { J.contents disk.new ≡ J.contents disk.old }
        ensures syncs { J.syncs disk.new ≡ J.syncs disk.old }
        ensures crash { Steps IsSame J.moment J.may_leave disk.old disk.new }
        ensures not_full { IsErrOf result KeepError.Full → ⊥ }
        ensures cause { CausedBy (J.faults disk.old) (J.faults disk.new) (is_disk_fault result) }
    {
        match next_gate(disk, at, self.gate)? {
            Some(next) => {
                let bytes = read_bytes(alloc, disk, at + 9, next - (at + 9))?;
                Ok(Some(Kept { bytes, next }))
            }
            None => Ok(None),
        }
    }

    /// Whether a record could not be appended, so that the file has to be opened again.
    pub fn is_failed(&self) -> bool
        ensures { result ≡ self.now.failed }
    {
        self.failed
    }

    /// Appends a record. At `Ok` it is on the disk.
    pub fn append<J: Disk>(
        &mut self,
        alloc: Global,
        disk: &mut J,
        bytes: &[u8],
    ) -> Result<(), KeepError>
        requires sound { self.old.failed ≡ false }
        requires belongs { Belongs J.contents J.moment J.may_leave self.old disk.old }
        ensures kept { OnOk result (option_map records (J.contents disk.new) ≡ option_map (λ b. records b ++ bytes.now ∷ []) (J.contents disk.old)) }
        ensures belongs { OnOk result (Belongs J.contents J.moment J.may_leave self.new disk.new × (self.new.failed ≡ false)) }
        ensures any_moment { IfSome (J.contents disk.old) (λ b. Leaves J.moment J.may_leave disk.old disk.new (IsBeforeOrAfter (records b) bytes.now)) }
        ensures known { is_none (J.contents disk.new) ≡ is_none (J.contents disk.old) }
        ensures full { IsErrOf result KeepError.Full ↔ (2 ^ 40 < self.old.gate + 10 + length bytes.now) }
        ensures full_same { IsErrOf result KeepError.Full → (disk.new ≡ disk.old) × (self.new ≡ self.old) }
        ensures failed { OnErr result ((self.new.failed ≡ true) ⊎ IsErrOf result KeepError.Full) }
        ensures cause { CausedBy (J.faults disk.old) (J.faults disk.new) (is_disk_fault result) }
    {
        if !has_room(self.gate, bytes.len() as u64) {
            return Err(KeepError::Full);
        }
        self.failed = true;
        let block = block_of(alloc, bytes)?;
        stage(disk, self.gate, block.as_slice())?;
        self.gate += 9 + bytes.len() as u64;
        self.failed = false;
        Ok(())
    }
}

/// Whether a file with its closed gate at this place has room for one more record of this length.
fn has_room(gate: u64, len: u64) -> bool
    ensures { (result ≡ true) ↔ (gate + 10 + len ≤ 2 ^ 40) }
{
    gate < MAX_FILE && len < MAX_FILE && gate + 10 + len <= MAX_FILE
}

/// A record with its length before it and a closed gate after it.
fn block_of(alloc: Global, bytes: &[u8]) -> Result<Vec<u8>, NoMemory>
    ensures { IfOk result (λ block. block.items ≡ to_be_bytes w64 (length bytes.now) ++ bytes.now ++ 0 ∷ []) }
{
    let mut block = Vec::with_capacity(alloc, bytes.len())?;
    block.extend_from_slice(&(bytes.len() as u64).to_be_bytes())?;
    block.extend_from_slice(bytes)?;
    block.push(CLOSED)?;
    Ok(block)
}

/// Reads `len` bytes from a place on.
fn read_bytes<J: Disk>(alloc: Global, disk: &mut J, at: u64, len: u64) -> Result<Seq<u8>, KeepError>
    requires inside { IfSome (J.contents disk.old) (λ b. at + len ≤ length b) }
    ensures read { IfSome (J.contents disk.old) (λ b. IfOk result (λ bytes. bytes ≡ take len (drop at b))) }
    ensures contents { J.contents disk.new ≡ J.contents disk.old }
    ensures syncs { J.syncs disk.new ≡ J.syncs disk.old }
    ensures crash { Steps IsSame J.moment J.may_leave disk.old disk.new }
    ensures not_full { IsErrOf result KeepError.Full → ⊥ }
    ensures cause { CausedBy (J.faults disk.old) (J.faults disk.new) (is_disk_fault result) }
{
    let mut bytes = vec![in alloc; 0u8; len as usize]?;
    disk.read(at, bytes.as_mut_slice())?;
    Ok(Seq::of(bytes))
}
