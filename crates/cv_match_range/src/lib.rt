//! Whether a version of a package lies within a range of an advisory, by the order of its kind of package, and which fix of the
//! range is the least above it, after the evaluation of the OSV schema 1.6.
//!
//! ```text
//! let range = prepare_range(alloc, PackageKind::Deb, &range)?;
//! if let Some(installed) = DebVersion::read(alloc, &text)? && range_holds(&range, &installed) {
//!     let fix = fix_in(&range, &installed);
//! }
//! ```
#![tactic(auto)]

mod placed;
mod reading;
mod semantic;
mod version;
mod within;

pub use placed::{Bound, Placed};
pub use reading::prepare_range;
pub use semantic::{SemanticVersion, semantic_order_laws};
pub use version::{
    ApkRule, ApkVersion, DebRule, DebVersion, PypiRule, PypiVersion, TextVersion, Version,
    VersionRule,
};
pub use within::{fix_in, range_holds};
