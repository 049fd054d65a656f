use cv_base::{Advisory, Digest, Manifest, Seq, Text};

/// An event with all that the machine needs of it: a whole manifest, a feed with its records, a layer with the worker. It is
/// used in contracts only.
#[derive(Debug, PartialEq, Eq, Drop)]
pub enum MachineEvent {
    /// Registers the image of this manifest.
    Register(Manifest),
    /// Drops the image of this hash.
    DropImage(Digest),
    /// A worker claims the layer of this digest.
    Claim(Digest, u32),
    /// A worker has indexed a layer.
    Indexed(Digest, u32),
    /// A worker could not read a layer and gives it back.
    Fault(Digest, u32),
    /// A worker gives a layer back because memory ran out.
    Memory(Digest, u32),
    /// Gives the feed of this name these records in place of those that it had.
    Update(Text, Seq<Advisory>),
    /// Patches the feed of this name, of which the client knows this generation: it gets these records, each in place of one
    /// of the same id, and the records of these ids go.
    Patch(Text, u64, Seq<Advisory>, Seq<Text>),
    /// Acknowledges the notification of this number.
    Ack(u64),
}
