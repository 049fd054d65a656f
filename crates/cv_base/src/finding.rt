use crate::digest::Digest;
use crate::package::Package;
use cv_seq::Text;

/// An advisory of a feed affects a package. `fixed` is the version that has the fix, where one is named.
#[derive(Clone, Debug, PartialEq, Eq, Drop)]
pub struct Finding {
    pub package: Package,
    pub feed: Text,
    pub advisory: Text,
    pub fixed: Option<Text>,
}

/// Why a notification has a row.
#[derive(Clone, Copy, Debug, PartialEq, Eq)]
pub enum Reason {
    Added,
    Removed,
    Changed,
}

/// A row of a notification: what changed for an image.
#[derive(Clone, Debug, PartialEq, Eq, Drop)]
pub struct Row {
    pub image: Digest,
    pub reason: Reason,
    pub finding: Finding,
}
