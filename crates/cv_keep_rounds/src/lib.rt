//! Keeps each round of a service by one record of a journal, before the lines of the round are written. Which record that is, is
//! defined in `specs/Rounds.antt`.
//!
//! ```text
//! let mut keeper = KeepRounds::new(Journal::open(&mut disk)?);
//! let mut noted = Vec::new(alloc);
//! keeper.note(alloc, &mut noted, 1, b"{\"do\":\"register\"}")?;
//! keeper.keep(alloc, &mut disk, noted.as_slice(), entries.as_slice())?;
//! ```
#![tactic(auto)]

mod bytes;
mod ending;
mod keeper;
mod lookup;

pub use keeper::KeepRounds;
