use cv_base::{Digest, Seq};

/// The byte before the fields of a request line.
pub(crate) const BY_LINE: u8 = 0;

/// The byte before the fields of a worker.
pub(crate) const BY_WORKER: u8 = 1;

/// What a worker did with a layer.
#[derive(Clone, Copy, Debug, PartialEq, Eq)]
pub enum WorkKind {
    Claim,
    Indexed,
    Fault,
    Memory,
}

/// Who submitted an event, and what the event is: a request line of a lane, or what a worker did with a layer.
#[derive(Debug, PartialEq, Eq, Drop)]
pub enum KeptBy {
    Line {
        lane: u8,
        line: u64,
        text: Seq<u8>,
    },
    Work {
        worker: u32,
        kind: WorkKind,
        layer: Digest,
    },
}

/// An event of a round as the file keeps it. Events are numbered from 1.
#[derive(Debug, PartialEq, Eq, Drop)]
pub struct KeptEvent {
    pub number: u64,
    pub by: KeptBy,
}
