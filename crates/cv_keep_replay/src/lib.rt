//! Goes on from the events that a file keeps: they are submitted again to a hub that has applied none. Which records are good is
//! defined in `specs/Good.antt`.
//!
//! ```text
//! let journal = Journal::open(&mut disk)?;
//! let resumed = replay(rt, alloc, &journal, &mut disk, &mut hub, &mut seats, &mut desks[0])?;
//! println!(rt; "{} events, generation {}", resumed.events, resumed.generation)?;
//! ```
#![tactic(auto)]

mod counts;
mod error;
mod laws;
mod limits;
mod ready;
mod record;
mod resumed;
mod start;
mod submit;

pub use error::ReplayError;
pub use laws::good_laws;
pub use limits::MAX_WORKERS;
pub use resumed::Resumed;
pub use start::replay;
