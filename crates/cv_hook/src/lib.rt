//! Says which notifications are offered to a hook, in which order, and until when: the trait of a hook, one in memory, and the
//! outbox that knows what was taken.
//!
//! ```text
//! let mut outbox = Outbox::new();
//! outbox.begin_round();
//! while let Some(number) = outbox.due(heads) {
//!     let outcome = match hook.offer(number, rows_of(number)) {
//!         Ok(Took::Taken) => Outcome::Taken,
//!         Ok(Took::Refused) => Outcome::Refused,
//!         Err(HookFault::Failed) => Outcome::Fault,
//!         Err(HookFault::NoMemory) => return Err(NoMemory),
//!     };
//!     outbox.note(number, outcome);
//! }
//! ```
#![tactic(auto)]

mod fault;
mod hook;
mod laws;
mod mem;
mod offer;
mod outbox;
mod took;

pub use fault::HookFault;
pub use hook::Hook;
pub use laws::attempt_laws;
pub use mem::MemHook;
pub use offer::{HookLine, Offer};
pub use outbox::Outbox;
pub use took::{Outcome, Took};
