/// A layer, by its letter, and a worker.
#[derive(Clone, Copy)]
pub struct Work {
    pub layer: u8,
    pub worker: u32,
}

/// A patch of a feed, on a generation of it: records enter, and others go.
#[derive(Clone, Copy)]
pub struct Patch {
    pub feed: &'static str,
    pub base: u64,
    /// The number of the records that enter.
    pub code: u32,
    /// The records of this number go, whatever it says of them.
    pub gone: u32,
}

/// An event by letters. Layers may have blanks between them, and so may the signs of their seals: `.` if none is stated, `=` if it is
/// that of the layer, and `!` if it is the seal of zeros. Layers that have no sign have no stated seal.
#[derive(Clone, Copy)]
pub enum Step<'a> {
    Register {
        image: u8,
        layers: &'a [u8],
        seals: &'a [u8],
    },
    DropImage(u8),
    Claim(Work),
    Indexed(Work),
    Fault(Work),
    Memory(Work),
    /// A feed has the records of this number.
    Update {
        feed: &'static str,
        code: u32,
    },
    Patch(Patch),
    Ack(u64),
}
