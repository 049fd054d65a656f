/// What a hook answers to an offer.
#[derive(Clone, Copy, Debug, PartialEq, Eq)]
pub enum Took {
    /// It has the notification now.
    Taken,
    /// It does not take the notification now.
    Refused,
}

/// How an offer ended.
#[derive(Clone, Copy, Debug, PartialEq, Eq)]
pub enum Outcome {
    /// The hook has the notification now.
    Taken,
    /// The hook does not take the notification now.
    Refused,
    /// The hook failed.
    Fault,
}
