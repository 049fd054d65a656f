//! The notifications that wait to be acknowledged, and their rows by pages.
//!
//! ```text
//! let mut notices = Notices::new(alloc);
//! notices.add(alloc, 1, rows)?;
//! let page = notices.page(1, 100, 1)?;
//! notices.ack(1)?;
//! ```
#![tactic(auto)]

mod error;
mod notices;
mod pages;

pub use cv_core_records::NoticeHead;
pub use error::{NoNotification, PageError};
pub use notices::Notices;
pub use pages::{Page, page_laws};
