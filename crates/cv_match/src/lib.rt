//! Which packages an advisory affects, and which version has the fix, after the evaluation of the OSV schema 1.6.
//!
//! ```text
//! let record = prepare(alloc, &advisory, PackageKind::Deb)?;
//! let installed = prepare_package(alloc, &package)?;
//! if let Hit::Yes { fixed: Some(at) } = affects(&record, &installed, &mut steps) {
//!     assert_eq!(fixed_text(&advisory, at), Some("1.5"));
//! }
//! ```
#![tactic(auto)]

mod answer;
mod entry;
mod evaluate;
mod key;
mod kinds;
mod laws;
mod matching;
mod order;
mod prepared;
mod reading;

pub use answer::{FixedAt, Hit};
pub use cv_match_range::{SemanticVersion, semantic_order_laws};
pub use evaluate::{affects, fixed_text};
pub use key::{family, key_name, package_keys};
pub use kinds::{PreparedForKinds, prepare_for_kinds};
pub use laws::{findings_laws, key_laws};
pub use order::{compare_packages, in_order};
pub use prepared::{ReadyAdvisory, ReadyPackage, prepare, prepare_package};
