//! Reads the arguments after the name of a command, with one simple command of clap each. What it answers is clap's published
//! meaning of these commands. Laws say by cases what that meaning is.
//!
//! ```text
//! match workers_of(alloc, arguments)? {
//!     Some(workers) => serve(workers),
//!     None => print_usage(),
//! }
//! ```
#![tactic(auto)]

mod bare;
mod drill;
mod laws;
mod order;
mod serve;
mod simple;

pub use bare::takes_none;
pub use drill::seed_of;
pub use laws::{bare_law, drill_laws, order_laws, serve_laws};
pub use order::{Packages, Versions, versions_of};
pub use serve::workers_of;
