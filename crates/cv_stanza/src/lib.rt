//! Reads files of blocks between empty lines, as package databases are, and names their first bad line.
//!
//! A crate that implements [`BlockFormat`] says what the lines of a block mean.
//!
//! ```text
//! let packages = read_blocks(alloc, &format, bytes)?;
//! ```
#![tactic(auto)]

mod format;
mod line_error;
mod reader;

pub use format::BlockFormat;
pub use line_error::{LineError, LineResult};
pub use reader::read_blocks;
