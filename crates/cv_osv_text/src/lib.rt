//! Reads a line of JSON as a record of the OSV schema or as a request, over a tree that borrows the texts of the line.
//!
//! ```text
//! let request = read_request(alloc, line)?;
//!
//! let mut reader = RecordReader::new(alloc)?;
//! let found = reader.read(alloc, line)?;
//! let records = RecordList::new(alloc).append(found)?;
//! ```
#![tactic(auto)]

mod line;
mod node;
mod number;
mod numbers;
mod reader;
mod request;
mod shared;

pub use reader::RecordReader;
pub use request::read_request;
