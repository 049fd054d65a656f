/// A fixed version by its place in a record: the affected entry, its range and the event of the range, each from 0.
#[derive(Clone, Copy, Debug, PartialEq, Eq)]
pub struct FixedAt {
    pub entry: u64,
    pub range: u64,
    pub turn: u64,
}

/// Whether a record affects a package, and if so where it names a fixed version.
#[derive(Clone, Copy, Debug, PartialEq, Eq)]
pub enum Hit {
    No,
    Yes { fixed: Option<FixedAt> },
}
