use cv_seq::Seq;

/// A call of a disk in memory, with whether it was done.
#[derive(Debug, Drop)]
pub enum Call {
    /// The length or some bytes were asked for.
    Look(bool),
    /// These bytes were to be written at this place.
    Write(u64, Seq<u8>, bool),
    /// The file was to be cut to this length.
    Cut(u64, bool),
    Sync(bool),
}
