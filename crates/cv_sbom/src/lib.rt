//! Writes the packages of an image as a component list, a line of JSON in a profile of CycloneDX 1.5, and reads such lists, also
//! those of other tools.
//!
//! ```text
//! let text = write_list(alloc, &image, packages)?;
//! let list = read_list(alloc, text.as_str().as_bytes())?;
//! ```
#![tactic(auto)]

mod component;
mod components;
mod error;
mod laws;
mod list;
mod member;
mod read;
mod write;

pub use error::{ListError, ListFault, ListWhat};
pub use laws::{list_laws, packages_law};
pub use list::ComponentList;
pub use read::read_list;
pub use write::write_list;
