//! Keeps records in one file of a disk, each on the disk before it is acknowledged, so that a crash at any moment leaves the records
//! of before, with the new one or without it.
//!
//! ```text
//! let mut journal = Journal::open(&mut disk)?;
//! journal.append(alloc, &mut disk, b"first")?;
//! let kept = journal.read(alloc, &mut disk, 0)?;
//! ```
#![tactic(auto)]

mod call;
mod disk;
mod error;
mod fault;
mod file;
mod journal;
mod mem;
mod repair;
mod stage;
mod walk;

pub use call::Call;
pub use disk::Disk;
pub use error::KeepError;
pub use fault::DiskFault;
pub use file::{FILE, FileDisk};
pub use journal::{Journal, Kept, MAX_FILE};
pub use mem::MemDisk;
