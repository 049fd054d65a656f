//! The findings of an image, and what changes in them by an update of a feed.
//!
//! ```text
//! let before = match_all(alloc, packages, &feeds, &mut steps)?;
//! let touched = feeds.replace(alloc, name, records)?;
//! let after = rematch(alloc, packages, before.as_slice(), &feeds, &touched, &mut steps)?;
//! let changes = rows(alloc, image, before.as_slice(), after.as_slice())?;
//! ```
#![tactic(auto)]

mod again;
mod changes;
mod laws;
mod matching;

pub use again::{any_touched, rematch};
pub use changes::rows;
pub use laws::{part_laws, rematch_laws};
pub use matching::match_all;
