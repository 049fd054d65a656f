//! Serves requests as `cv_serve` does, from the events on that a file keeps. The record of a round is appended to the file before the lines
//! of the round are written. `specs/Start.antt` says how such a service starts, `specs/Rounds.antt` what it keeps, and `specs/Ends.antt`
//! what each of its ends says.
//!
//! ```text
//! let ended = serve_kept(rt, alloc, &mut input, &mut output, &mut disk, &mut desks, workers);
//! ```
#![tactic(auto)]

mod end;
mod lines;
mod rounds;
mod service;
mod start;
mod stop;

pub use cv_serve::ServeEnd;
pub use end::KeptEnd;
pub use service::serve_kept;
