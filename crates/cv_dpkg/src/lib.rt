//! Reads a dpkg status file into the packages that are installed.
//!
//! What is accepted is a profile of deb-control(5) and Debian Policy 5.1, defined by this project.
//!
//! ```text
//! let packages = read_status(alloc, bytes, StatusRule::Needed)?;
//! ```
#![tactic(auto)]

mod facts;
mod field;
mod names;
mod package;
mod paragraph;
mod paragraphs;
mod rule;
mod status;
mod text;
mod value;

pub use package::DebPackage;
pub use rule::StatusRule;
pub use status::read_status;
