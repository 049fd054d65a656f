//! Desks whose digests spell their layers: that of drills, and one of hostile sizes for tests.
//!
//! ```text
//! let mut desk = GenDesk::new();
//! let listing = desk.list(alloc, &digest)?;
//! ```
#![tactic(auto)]

mod generated;
mod hostile;

pub use generated::GenDesk;
pub use hostile::HostileDesk;
