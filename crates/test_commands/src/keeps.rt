use crate::streams::listed;
use cv_base::{NoMemory, Seq};
use cv_hook::{MemHook, Outcome};
use cv_keep::MemDisk;
use std::alloc::Global;

/// A disk with these bytes, which refuses the calls of these numbers, and all past the last one.
pub fn disk_of(alloc: Global, bytes: &[u8], fails: &[u64], last: u64) -> Result<MemDisk, NoMemory> {
    let bytes = Seq::of(bytes.to_vec(alloc)?);
    Ok(MemDisk::new(alloc, bytes, listed(alloc, fails)?, last))
}

/// A hook whose first offers end so, and which takes all later ones.
pub fn hook_of(alloc: Global, outcomes: &[Outcome]) -> Result<MemHook, NoMemory> {
    Ok(MemHook::new(Seq::of(outcomes.to_vec(alloc)?)))
}
