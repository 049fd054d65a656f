//! Reads apk's database of installed packages into the packages that it lists.
//!
//! What is accepted is a profile of the format of apk's version 2, defined by this project.
//!
//! ```text
//! let packages = read_installed(alloc, bytes)?;
//! ```
#![tactic(auto)]

mod blocks;
mod facts;
mod installed;
mod letter;
mod package;
mod value;

pub use installed::read_installed;
pub use package::ApkPackage;
