/// What is done about a layer: it waits for a worker, it is the worker's of this index, or its facts are known.
#[derive(Clone, Copy, Debug, PartialEq, Eq)]
pub enum Status {
    Queued,
    Claimed(u32),
    Indexed,
}
