//! A core over layers that letters name: it does the events of the plain machine, and writes the reply to each and what it leaves.
mod layers;
mod replies;
mod show;
mod step;

pub use replies::report_step;
pub use show::{show_heads, show_page, show_queued, show_report};
pub use step::{Service, restart};
