//! Reads the whole input of a command: line 1 is the manifest of an image or a list of components, and each further line that is
//! not empty is one record of the OSV schema, if there may be records.
//!
//! ```text
//! {"hash":"sha256:11..","layers":[{"hash":"sha256:aa.."}]}
//! {"id":"DSA-5417-1","modified":"2023-05-31T00:00:00Z"}
//! {"id":"DSA-5532-1","modified":"2023-10-24T00:00:00Z"}
//! ```
#![tactic(auto)]

mod error;
mod input;
mod kind;
mod later;
mod line;

pub use error::{InputError, InputFault};
pub use input::{InputLines, MAX_INPUT, MAX_LINE, read_input};
pub use kind::{ImageKind, InputKind, ListKind, ScanKind};
pub use later::Later;
