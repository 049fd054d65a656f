//! A core that threads share. A hub keeps the core and the one list of its events behind a lock, and publishes a board after each of
//! them: seats submit events, and each receipt, note, view and taken entry speaks of a beginning of that list, as `specs/Events.antt`
//! and `specs/Seats.antt` of `cv_hub_seats` say.
//!
//! ```text
//! let (mut hub, mut seats) = Hub::<D, L>::start(rt, alloc, Blank::new(2), core, 2)?;
//! if let Ok(receipt) = hub.submit(rt, alloc, &mut seats[0], By::Worker(0), Event::Claim(layer, 0)) {
//!     seats[1].learn(receipt.note);
//! }
//! let entries = hub.take_events(rt, &mut seats);
//! hub.end(rt, seats);
//! ```
#![tactic(auto)]

mod events;
mod hold;
mod hub;
mod locked;
mod posting;
mod prepared;

pub use cv_hub_seats::{Blank, Identity, Note, Seat, Submission, View};
pub use hub::Hub;
pub use locked::Receipt;
