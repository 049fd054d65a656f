//! Jobs for up to eight threads. A fill deals the jobs below a number to its hands, each of which has a deque. A hand
//! takes the jobs of its own deque, and then those of the others. At the end the hands are gathered, which gives the
//! list of jobs that each took. `specs/Jobs.antt` and `specs/Hands.antt` define the words of the contracts.
//!
//! ```text
//! let mut hands = fill(alloc, 3, 2)?;
//! while let Some(job) = hands[1].next(&rt) {
//!     run(job);
//! }
//! let taken = gather(hands);
//! ```
//!
//! After its jobs a deque holds marks, of which each hand takes at most one. A hand that took a mark knows that no job is in
//! the deque, and that none will be. So `next` gives None only once the hand has a mark of each deque.
#![tactic(auto)]

mod account;
mod filling;
mod hand;
mod laws;
mod queue_owners;
mod seat;
mod taken;
mod task;

pub use filling::fill;
pub use hand::Hand;
pub use laws::{hand_laws, weight_laws};
pub use taken::{Taken, gather};
