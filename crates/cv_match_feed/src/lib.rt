//! Finds what the records of one feed say of packages: all findings, or the finding of one package with one record.
//!
//! ```text
//! let findings = find_all(alloc, packages.as_slice(), &feed, advisories)?;
//! ```
#![tactic(auto)]

mod find;
mod finding;
mod index;
mod slots;

pub use find::find_all;
pub use finding::find_one;
