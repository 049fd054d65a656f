//! Lays the trees of layers on a root, after the changesets of the OCI image specification 1.1, layer.md.
//!
//! ```text
//! let mut root = Root::empty(alloc);
//! root.lay(alloc, &base)?;
//! root.lay(alloc, &upper)?;
//! ```
#![tactic(auto)]

mod check;
mod copy;
mod cover;
mod cut;
mod fault;
mod mark;
mod merge;
mod outline;
mod root;

pub use check::{check_tree, fault_of};
pub use fault::{ImageFault, OverlayError, TreeFault};
pub use mark::{Mark, mark_of};
pub use outline::Outlined;
pub use root::Root;
