//! The definition of the service: a machine with a state, the events that change it with their replies, and the reads with
//! their answers. It has no algorithm: `specs/` says what the machine is, and the core of the service is proved to be it.
//! `specs/State.antt` says what the machine holds, `specs/Step.antt` what each event does, `specs/Rows.antt` which rows an
//! update notifies of, and `specs/Answer.antt` what a read is answered.
//!
//! ```text
//! step trees state (Claim layer worker) ≡ (the next state, the reply)
//! ```
#![tactic(auto)]

mod event;
mod image;
mod laws;
mod limits;
mod status;

pub use event::MachineEvent;
pub use image::Image;
pub use laws::{
    board_law, entered_law, feed_laws, generation_law, notification_laws, scan_law, step_laws,
    waiting_law,
};
pub use limits::{Limits, MAX_FEEDS, MAX_IMAGES};
pub use status::Status;
