use thiserror::Error;

/// No notification has the number, as it was never added or is acknowledged.
#[derive(Clone, Copy, Debug, PartialEq, Eq, Error)]
#[error("there is no notification of this number")]
pub struct NoNotification;

/// Why there is no page.
#[derive(Clone, Copy, Debug, PartialEq, Eq, Error)]
pub enum PageError {
    /// No notification has the number.
    #[error("there is no notification of this number")]
    NoNotification,
    /// The number of the page is above the number of pages, which is this.
    #[error("the notification has {pages} pages")]
    NoPage { pages: u64 },
}
