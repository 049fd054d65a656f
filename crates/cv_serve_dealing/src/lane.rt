use cv_core_records::ReadEntry;
use cv_serve_legal::Requested;

/// A lane of a round: its number, its requests, and the reads that answered some of them.
#[derive(Drop)]
pub struct Lane {
    pub number: u8,
    pub requested: Vec<Requested>,
    pub reads: Vec<ReadEntry>,
}
