//! Reduces a layer to what the packages of an image need of it: what it hides of the layers below it, and what its own
//! package files have; and seals it.
//!
//! ```text
//! let facts = index_layer(alloc, &mut desk, digest)?;
//! if let Shape::Reduced(reduction) = facts.shape() {
//!     assert!(reduction.files.as_slice().is_empty());
//! }
//! ```
#![tactic(auto)]

mod error;
mod facts;
mod hides;
mod index;
mod order;
mod reading;
mod reduction;

pub use cv_packages::{FileFound, Found};
pub use error::IndexError;
pub use facts::LayerFacts;
pub use index::index_layer;
pub use reduction::{Reduction, Shape};
