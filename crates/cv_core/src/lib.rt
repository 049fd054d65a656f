//! The core of the service: the machine of `cv_core_machine` with its events, plans, reports, notifications and boards. An event makes a
//! new core and leaves the old one as it was, so that one that runs out of memory, or is cancelled, changes nothing.
//!
//! ```text
//! let mut core = Core::<D>::new(alloc, Limits { images: MAX_IMAGES, feeds: MAX_FEEDS })?;
//! let reply = core.apply(alloc, Event::Register(manifest), &mut steps)?;
//! match core.report(&image) {
//!     Ok(report) => print(report.findings),
//!     Err(ReportRefusal::Pending(layer)) => wait_for(layer),
//!     Err(refusal) => refuse(refusal),
//! }
//! ```
#![tactic(auto)]

mod ack;
mod apply;
mod board;
mod event;
mod images;
mod layers;
mod machine;
mod parts;
mod patch;
mod plan;
mod reads;
mod report;
mod update;

pub use board::Board;
pub use cv_core_machine::{Limits, MAX_FEEDS, MAX_IMAGES};
pub use cv_core_records::{
    Act, Answer, By, EventEntry, NoticeHead, PageOutcome, ReadEntry, Reply, ReportOutcome,
};
pub use cv_notice::{Notices, Page, PageError};
pub use event::Event;
pub use machine::Core;
pub use plan::Planned;
pub use report::{Report, ReportRefusal};
