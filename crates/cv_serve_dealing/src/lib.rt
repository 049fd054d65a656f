//! What a round does without a hub: it divides its lines into the refused ones and the requests of eight lanes, each in their order,
//! copies what reads show, and merges the events of the round with the reads of its lanes, in the order of the transcript.
//!
//! ```text
//! let (refused, requests) = divide(alloc, lines)?;
//! let lanes = lanes_of(alloc, requests)?;
//! let entries = merge(alloc, events, reads_of(alloc, lanes)?)?;
//! ```
#![tactic(auto)]

mod copies;
mod dealing;
mod gathering;
mod keeping;
mod lane;
mod merging;

pub use copies::{copy_findings, copy_rows};
pub use dealing::{divide, lanes_of};
pub use gathering::{joined, reads_of};
pub use keeping::{KeepNothing, Keeper, NotedLine};
pub use lane::Lane;
pub use merging::merge;
