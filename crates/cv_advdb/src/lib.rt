//! The feeds of advisories: the records of each feed, those under the name of a package, and which names are touched when the
//! records of a feed are replaced.
//!
//! ```text
//! let mut feeds = Feeds::new(alloc, 64)?;
//! let touched = feeds.replace(alloc, Text::of(alloc, "debian")?, records)?;
//! let first = feeds.under(&touched.keys.as_slice()[0], PackageKind::Deb, 0);
//! ```
#![tactic(auto)]

mod difference;
mod error;
mod feeds;
mod index;
mod indexed;
mod laws;
mod list;
mod lookup;
mod names;
mod patch;
mod record;
mod same;
mod stock;
mod touch;

pub use error::{AdvError, PatchError};
pub use feeds::{Feeds, Listed};
pub use laws::touched_laws;
pub use lookup::is_touched;
pub use touch::Touched;
