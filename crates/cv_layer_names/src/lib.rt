//! Finds the names under which advisories have the packages of a layer's own package files. So the images that may have a package
//! of a given name are found by their layers, without making their packages.
//!
//! ```text
//! let names = layer_names(alloc, facts.shape())?;
//! assert_eq!(names[0].as_str(), "openssl");
//! ```
#![tactic(auto)]

mod laws;
mod names;

pub use laws::names_law;
pub use names::layer_names;
