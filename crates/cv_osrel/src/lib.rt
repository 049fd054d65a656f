//! Reads os-release into the name of the system, and gives the ecosystem of its packages.
//!
//! What is accepted is a profile of os-release(5), defined by this project. The ecosystems have the form of OSV.
//!
//! ```text
//! let os = read_os(alloc, bytes)?;
//! assert_eq!(ecosystem(alloc, Some(&os), PackageKind::Deb)?.as_str(), "Debian:12");
//! ```
#![tactic(auto)]

mod assignment;
mod branch;
mod ecosystems;
mod name;
mod system;
mod text;
mod value;

pub use ecosystems::ecosystem;
pub use name::OsName;
pub use system::read_os;
