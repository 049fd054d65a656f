//! The plain records of the service: the reply to an event, an applied event and a read with its answer, as the transcript
//! has them.
//!
//! ```text
//! let entry = EventEntry { number: 1, by: By::Worker(0), act: Act::Claim(layer), reply: Reply::Claimed };
//! ```
#![tactic(auto)]

mod event;
mod read;
mod reply;

pub use event::{Act, By, EventEntry};
pub use read::{Answer, NoticeHead, PageOutcome, ReadEntry, ReportOutcome};
pub use reply::{Replied, Reply};
