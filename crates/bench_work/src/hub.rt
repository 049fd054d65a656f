//! Threads that work at the seats of a hub concurrently, and how fast they do it.
mod beside;
mod lanes;
mod speed;
mod spread;

pub use beside::{Update, run_beside};
pub use lanes::{Lane, Task, Work, run_lanes};
pub use speed::{Speed, Watch};
pub use spread::Spread;
