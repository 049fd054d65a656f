//! The service: it reads requests, carries them out in rounds, and writes a transcript of what it did. `cv_serve_round` runs a round, in
//! threads over the hub of `cv_hub`, and writes its lines as soon as it ends, before a further line is taken. Which transcripts are legal
//! is defined in `cv_serve_legal`, and `specs/Served.antt` says what was read, written and counted at each end of a service. `serve_from`
//! goes on over a hub that has applied some events, and a `Keeper` keeps each round before its lines are written: `specs/Kept.antt` says
//! which rounds were kept at each end.
//!
//! ```text
//! match serve(rt, alloc, &mut input, &mut output, &mut desks, 4) {
//!     ServeEnd::Done => finish(),
//!     end => explain(end),
//! }
//! ```
#![tactic(auto)]

mod end;
mod service;

pub use cv_serve_dealing::{KeepNothing, Keeper};
pub use end::ServeEnd;
pub use service::{serve, serve_from};
