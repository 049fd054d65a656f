use cv_serve::ServeEnd;

/// How a kept service ended.
#[derive(Clone, Copy, Debug, PartialEq, Eq)]
pub enum KeptEnd {
    /// As a service does. Writing may have failed, or memory run out, before the line that says after how many events it goes on.
    Served(ServeEnd),
    /// The first desk failed at a layer of the kept events.
    DeskFault,
    /// The file could not be read or written. The record of the last round may be in it or not, and its lines were not written.
    KeepFault,
    /// A record of the file is not good; the line that says which one was written.
    BadKeep,
    /// The file would pass 2^40 bytes with the record of the last round, whose lines were not written.
    KeepFull,
}
