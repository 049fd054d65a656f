//! Reads the metadata of an installed Python package, `METADATA` or `PKG-INFO`, into the package that it names.
//!
//! What is accepted is a profile of the core metadata specification, defined by this project.
//!
//! ```text
//! let package = read_metadata(alloc, b"Name: Foo.Bar\nVersion: 1.0\n")?;
//! ```
#![tactic(auto)]

mod field;
mod header;
mod metadata;
mod name;
mod package;
mod text;

pub use metadata::read_metadata;
pub use name::normalized_law;
pub use package::PypiPackage;
