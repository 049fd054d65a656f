//! Lists and reads layers in real folders below `./layers`.
//!
//! ```text
//! let mut desk = FolderDesk::new(rt.clone()?);
//! let listing = desk.list(alloc, &digest)?;
//! ```
#![tactic(auto)]

mod again;
mod failure;
mod folder;
mod place;
mod reading;
mod walk;

pub use failure::FolderFailure;
pub use folder::FolderDesk;
