//! A large run of the service that a number determines: the input of the run, and a summary of the transcript that is written for it.
//!
//! ```text
//! let input = script(alloc, 7)?;
//! let line = summary(alloc, 7, transcript)?;
//! ```
#![tactic(auto)]

mod digest;
mod image;
mod input;
mod line;
mod output;
mod record;
mod report;
mod totals;
mod transcript;

pub use input::script;
pub use output::summary;
