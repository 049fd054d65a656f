/// Where a service goes on: after how many events, and in which generation.
#[derive(Clone, Copy, Debug, PartialEq, Eq)]
pub struct Resumed {
    pub events: u64,
    pub generation: u64,
}
