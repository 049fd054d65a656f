//! The rounds of a service over a hub of `cv_hub`: it takes lines into the round that has begun, carries out each round that ends, eight
//! lanes and the workers concurrently, has a keeper keep it, writes the round's lines, and lets the keeper do what follows them.
//! `specs/Round.antt` says what a round leaves of the desks and of the seats; its entries are a legal round of `cv_serve_legal`.
//! `specs/Done.antt` says what a service did, and what it leaves that stops because a round was not kept, its output was not written, or
//! memory ran out. Where nothing follows the lines of a round, `specs/Stops.antt` says so by lines and entries, and `specs/Kept.antt` adds
//! which rounds were kept.
//!
//! ```text
//! let core = new_core(alloc)?;
//! let mut service = started::<D, L, W>(rt, alloc, blank, core, desks.len())?;
//! let mut round = Round::new(alloc);
//! let taken = take_line(rt, alloc, &mut service, desks, output, keeper, disk, &mut round, number, text);
//! let end = end_input(rt, alloc, &mut service, desks, output, keeper, disk, round);
//! service.end(rt);
//! ```
#![tactic(auto)]

mod begun;
mod keeping;
mod print;
mod round;
mod rounds;
mod start;
mod whole;

pub use begun::Round;
pub use cv_core::Core;
pub use cv_hub::{Blank, Identity};
pub use keeping::RoundKeeper;
pub use rounds::{end_input, take_line};
pub use start::{Service, new_core, started};
