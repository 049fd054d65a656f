//! Cuts a source of bytes into lines, and writes bytes whole to a sink, with the cause of each failure.
//!
//! ```text
//! let mut reader = LineReader::new(alloc, 4_096, 1 << 20)?;
//! while let Line::Text(line) = reader.next(alloc, &mut input)? {
//!     write_all(&mut output, line.as_slice())?;
//! }
//! ```
#![tactic(auto)]

mod calm;
mod chunk;
mod copies;
mod counted;
mod failures;
mod fault;
mod gather;
mod gathering;
mod line;
mod mem;
mod reader;
mod signal;
mod sink;
mod source;
mod standard;
mod write;

pub use calm::{CalmSink, CalmSource};
pub use fault::IoFault;
pub use line::{Line, LineError};
pub use mem::{MemSink, MemSource};
pub use reader::LineReader;
pub use signal::{MOST_TRIES, is_interrupted, too_many_signals};
pub use sink::Sink;
pub use source::Source;
pub use standard::{StdSink, StdSource};
pub use write::{WriteError, write_all};
