//! A core over sample data that notes for each kind of work how often it was done and how long it took.
mod cost;
mod timed;

pub use cost::Cost;
pub use timed::TimedCore;
