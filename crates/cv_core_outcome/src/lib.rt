//! The outcome of an image: all that a report of it is read from, so that reports are read without matching. It is made from
//! the facts of the image's layers, their stated seals and the feeds, and an update of the feeds matches again, of the packages
//! that it keeps, those alone that have a touched key.
//!
//! ```text
//! match outcome_of(alloc, &facts, &feeds, &layers, &seals, &mut steps)? {
//!     Outcome::Pending(layer) => wait_for(layer),
//!     Outcome::Bad(fault) => refuse(fault.value()),
//!     Outcome::Good { findings, .. } => report(findings.seq()),
//! }
//! ```
#![tactic(auto)]

mod findings;
mod gather;
mod image;
mod laws;
mod matching;
mod outcome;
mod rematch;

pub use findings::Findings;
pub use image::outcome_of;
pub use laws::{fact_laws, image_laws, pending_laws, update_laws};
pub use outcome::Outcome;
pub use rematch::Rematch;
