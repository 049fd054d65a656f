use cv_base::{Digest, Finding, Row, Seq};
use cv_overlay::ImageFault;

/// A notification as a list shows it: its number, and how many rows it has.
#[derive(Clone, Copy, Debug, PartialEq, Eq)]
pub struct NoticeHead {
    pub number: u64,
    pub rows: u64,
}

/// What a report says of an image.
#[derive(Debug, PartialEq, Eq, Drop)]
pub enum ReportOutcome {
    /// The findings with the feeds as they are in this generation.
    Good {
        generation: u64,
        findings: Seq<Finding>,
    },
    /// The first layer of the image that is not indexed.
    Pending(Digest),
    /// Why the image is bad.
    BadImage(ImageFault),
    /// No image of this hash is registered.
    NotRegistered,
}

/// A page of a notification. Pages are numbered from 1.
#[derive(Debug, PartialEq, Eq, Drop)]
pub enum PageOutcome {
    /// The number of pages, and the rows of this one.
    Rows { pages: u64, rows: Seq<Row> },
    /// No notification has this number.
    NoNotification,
    /// There are only this number of pages.
    NoPage { pages: u64 },
}

/// The query of a read with its answer, or that memory ran out.
#[derive(Debug, PartialEq, Eq, Drop)]
pub enum Answer {
    Report {
        image: Digest,
        outcome: ReportOutcome,
    },
    Page {
        number: u64,
        size: u32,
        page: u64,
        outcome: PageOutcome,
    },
    /// All notifications, in ascending order of their numbers.
    List(Seq<NoticeHead>),
    /// The request, of whatever kind, ran out of memory and changed nothing.
    NoMemory,
}

/// A line of a lane without an event: a read with its answer, or a request that ran out of memory. It stands after the first
/// `front` events.
#[derive(Debug, PartialEq, Eq, Drop)]
pub struct ReadEntry {
    pub front: u64,
    pub lane: u8,
    pub line: u64,
    pub answer: Answer,
}
