use cv_base::{Advisory, Digest, Manifest, Seq, Text};

/// An action that a client requests.
#[derive(Debug, PartialEq, Eq, Drop)]
pub enum Act {
    /// To register an image.
    Register(Manifest),
    /// To drop the image of this hash.
    DropImage(Digest),
    /// To replace all records of a feed.
    Update {
        feed: Text,
        records: Seq<Advisory>,
    },
    /// To change a feed that has this generation: the records whose ids are in `remove` or among the new records go, and the new
    /// records come.
    Patch {
        feed: Text,
        base: u64,
        records: Seq<Advisory>,
        remove: Seq<Text>,
    },
    /// To report the findings of the image of this hash.
    Report(Digest),
    /// To show a page of a notification: its number, the rows of a page, and the page, numbered from 1.
    Page {
        number: u64,
        size: u32,
        page: u64,
    },
    /// To list the notifications.
    List,
    /// To acknowledge the notification of this number.
    Ack(u64),
}

/// A request, and the lane that it belongs to.
#[derive(Debug, PartialEq, Eq, Drop)]
pub struct Request {
    pub lane: u8,
    pub act: Act,
}
