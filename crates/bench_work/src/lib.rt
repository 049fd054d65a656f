//! The pieces of cvwatch's work that the benchmarks repeat: counting what a stream has in each format, the steps of a scan, the events of
//! a core, and threads at a hub.
//!
//! ```text
//! let lines = lines_in(alloc, rt.reader())?;
//! let less = compare_pairs(alloc, Order::of("deb"), 1000, 0)?;
//! let speed = watch.stop(rt, task.work.name(), lanes.len(), count);
//! ```
#![tactic(auto)]

mod events;
mod formats;
mod hub;
mod requests;
mod scans;
mod transcript;

pub use events::{Cost, TimedCore};
pub use formats::{count_lines, lines_in, packages_in, records_in, values_in};
pub use hub::{Lane, Speed, Spread, Task, Update, Watch, Work, run_beside, run_lanes};
pub use requests::requests_in;
pub use scans::{
    Order, Sample, compare_pairs, lay_layers, make_records, match_packages, match_record,
    replace_records,
};
pub use transcript::entry_bytes;
