use crate::task::Owner;
use cv_seq::Seq;

/// What the first hand keeps for the end: the owners of all deques, and an empty list with room for the lists of all hands.
#[derive(Drop)]
pub struct QueueOwners {
    pub owners: Vec<Owner>,
    pub lists: Vec<Seq<u32>>,
}
