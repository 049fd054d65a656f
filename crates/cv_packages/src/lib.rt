//! Reads the package files of a root, each by its place and its bytes alone, and assembles the packages of the root, of which the
//! os-release names the system.
//!
//! ```text
//! let found = read_file(alloc, Place::Status, &content)?;
//! let packages = assemble(alloc, &[&FileFound { path, found }])?;
//! let packages = read_packages(alloc, root_entries)?;
//! ```
#![tactic(auto)]

mod assembly;
mod error;
mod files;
mod found;
mod package;
mod read;
mod root;

pub use assembly::assemble;
pub use error::{FileFault, PackagesError};
pub use found::{FileFound, Found};
pub use read::read_file;
pub use root::read_packages;
