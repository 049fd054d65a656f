//! Work at the places of slices, by threads that run concurrently: of a team, whose places have a seat and a part, and of a crew, whose
//! places have a number, a hand, a seat and a desk. What is done at one place is up to an implementation of the traits.
//!
//! ```text
//! run_sides(rt, &team, &crew, parts, hands, seats, desks)?;
//! ```
#![tactic(auto)]

mod crew;
mod sides;
mod team;

pub use crew::Crew;
pub use sides::run_sides;
pub use team::Team;
