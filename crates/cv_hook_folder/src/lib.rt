//! Hands notifications over as files of the folder `./hook`.
//!
//! ```text
//! let mut hook = FolderHook::new(rt.clone()?);
//! let took = hook.offer(number, rows)?;
//! ```
#![tactic(auto)]

mod failure;
mod folder;
mod writing;

pub use failure::HookFailure;
pub use folder::FolderHook;
