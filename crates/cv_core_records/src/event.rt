use crate::reply::Reply;
use cv_base::{Digest, Text};

/// Who submits an event: a line of a lane, or a worker. Lines are numbered from 1, lanes and workers from 0.
#[derive(Clone, Copy, Debug, PartialEq, Eq)]
pub enum By {
    Lane { lane: u8, line: u64 },
    Worker(u32),
}

/// What an event is about: an image by its hash, a layer by its digest, a feed by its name, a notification by its number.
#[derive(Debug, PartialEq, Eq, Drop)]
pub enum Act {
    Register(Digest),
    DropImage(Digest),
    Claim(Digest),
    Indexed(Digest),
    Fault(Digest),
    Memory(Digest),
    Update(Text),
    Patch(Text),
    Ack(u64),
}

/// An event that was applied, with the machine's reply. Events are numbered from 1.
#[derive(Debug, PartialEq, Eq, Drop)]
pub struct EventEntry {
    pub number: u64,
    pub by: By,
    pub act: Act,
    pub reply: Reply,
}
