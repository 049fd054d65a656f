use crate::took::Outcome;
use cv_base::{Row, Seq};

/// A notification that was offered to a hook, with its rows, and how the offer ended.
#[derive(Debug, Drop)]
pub struct Offer {
    pub number: u64,
    pub rows: Seq<Row>,
    pub outcome: Outcome,
}

/// How the offer of the notification of this number ended.
#[derive(Clone, Copy, Debug, PartialEq, Eq)]
pub struct HookLine {
    pub number: u64,
    pub outcome: Outcome,
}
