//! Lanes of events that look random: seats of a hub submit them or view the hub meanwhile, each in a thread of its own, and take and see
//! events. A core of its own applies a list of such events again.
//!
//! ```text
//! let (seats, work) = worked(rt, &hub, &Task { alloc, submitters: 8 }, seats)?;
//! let entries = taken(rt, &mut hub, seats.as_mut_slice(), 8)?;
//! let shown = replayed::<Brand>(alloc, Blank::new(1), entries)?;
//! ```
#![tactic(auto)]

mod draws;
mod events;
mod lanes;
mod meeting;
mod receipts;
mod replay;
mod seats;
mod shown;
mod views;

pub use cv_core::{By, Core, EventEntry, Reply};
pub use draws::hash;
pub use events::event;
pub use lanes::{LINES, Task, Work, worked};
pub use meeting::met;
pub use receipts::lanes_with_entries;
pub use replay::{new_core, replayed, seats_with_right_views};
pub use seats::{entered, learned, taken};
pub use shown::shown_to_first;
pub use test_data::SampleDesk;
pub use views::Viewed;
