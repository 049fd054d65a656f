//! What those who share a core hold of the one list of its events, and of the boards that are published after them: beginnings of the
//! list, notes of them, seats, whose receipts a ledger counts, and views of the boards. `specs/Events.antt`, `specs/Posts.antt` and
//! `specs/Seats.antt` say what the list, the boards and the seats are.
//!
//! ```text
//! let Parts { head, front, book, share } = Blank::new(2).open::<D, L>();
//! let mut seats = fresh_seats(rt, alloc, &front, share, 2, &writer)?;
//! seats[1].learn(note);
//! match seat.view() {
//!     Ok(view) => seat = answered(view),
//!     Err(back) => seat = back,
//! }
//! ```
#![tactic(auto)]

mod audit;
mod blank;
mod book;
mod door;
mod identity;
mod note;
mod post;
mod prefix;
mod seat;
mod seats;
mod submission;
mod telling;
mod view;

pub use audit::{counted, empty_share};
pub use blank::{Blank, Parts};
pub use book::SubmittedEvent;
pub use identity::Identity;
pub use note::Note;
pub use post::{Post, PostReader, PostReading, PostWriter, Rises, Sees};
pub use prefix::{ListLength, Prefix};
pub use seat::Seat;
pub use seats::{fresh_seats, have_seen};
pub use submission::Submission;
pub use telling::told;
pub use view::View;
