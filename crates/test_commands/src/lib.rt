//! Runs of the program and of its commands over layers made in memory, for their tests: `scan`, `sbom`, `scan-list`, `order`, and the
//! whole program with its arguments, over one desk or two, over layers of hostile sizes, over a disk that keeps its events, or
//! before a hook.
//!
//! ```text
//! let is_right = command_ends(alloc, InputCommand::Scan, input, &CALM, (Status::Done, ".."))?;
//! let is_right = runs_to(rt, alloc, &["scan"], input, &CALM, (Status::Done, ".."))?;
//! ```
#![tactic(auto)]

mod commands;
mod compare;
mod keeps;
mod layers;
mod roots;
mod runs;
mod scan;
mod streams;
mod texts;

pub use commands::{InputCommand, command_ends, orders_to};
pub use compare::{after_one_of, is_ended, unless_out_of_memory};
pub use cv_base::NoMemory;
pub use cv_command::Status;
pub use cv_hook::{MemHook, Outcome};
pub use cv_io::{MemSink, MemSource};
pub use cv_keep::{Call, MemDisk};
pub use keeps::{disk_of, hook_of};
pub use layers::Layers;
pub use roots::root_scans_to;
pub use runs::{hostile_runs_to, run_before, run_by_two, run_on, runs_to};
pub use scan::scan_input;
pub use streams::{
    CALM, Failure, Outside, UNREAD, USAGE, arguments_of, listed, sink_of, source_of,
};
