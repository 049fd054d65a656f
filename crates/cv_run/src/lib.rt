//! Runs the arguments of the command line: a scan, a list of components or the scan of one, a service, one that keeps its events, one
//! that hands its notifications to a hook, a comparison of versions, or a drill.
//!
//! ```text
//! let status = run_all(&rt, alloc, &arguments, &mut input, &mut output, &mut desks, &mut disk, &mut hook);
//! ```
#![tactic(auto)]

mod arguments;
mod commands;
mod drill;
mod keep;
mod laws;
mod push;
mod service;

pub use commands::run;
pub use cv_command::Status;
pub use keep::run_kept;
pub use laws::list_law;
pub use push::run_all;
