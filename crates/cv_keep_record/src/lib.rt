//! Spells the events of one round as a record of the kept file, and reads them back.
//!
//! ```text
//! let mut bytes = Vec::new(alloc);
//! push_line(&mut bytes, 1, 0, 1, b"{\"do\":\"register\"}")?;
//! let events = read_record(alloc, bytes.as_slice())?;
//! ```
#![tactic(auto)]

mod event;
mod fields;
mod numbers;
mod read;
mod write;

pub use event::{KeptBy, KeptEvent, WorkKind};
pub use numbers::are_numbered;
pub use read::{read_record, record_law};
pub use write::{push_event, push_line, push_work, record_bytes};
