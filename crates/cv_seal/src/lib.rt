//! The seal of a layer: a SHA-256 over the entries of its unpacked tree, defined by this project.
//!
//! ```text
//! let mut seal = Seal::new();
//! if is_summed(&entry) {
//!     seal.entry(&entry, Some(bytes));
//! } else {
//!     seal.entry(&entry, None);
//! }
//! let digest = seal.finish();
//! ```
#![tactic(auto)]

mod seal;
mod summed;

pub use seal::Seal;
pub use summed::is_summed;
