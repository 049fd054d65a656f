//! Reads npm's package.json into the package that it names.
//!
//! ```text
//! let package = read_package(alloc, bytes)?;
//! ```
#![tactic(auto)]

mod file;
mod package;

pub use file::read_package;
pub use package::NpmPackage;
