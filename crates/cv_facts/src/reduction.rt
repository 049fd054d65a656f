use cv_base::{Digest, RelPath, Seq};
use cv_overlay::TreeFault;
use cv_packages::FileFound;

/// What is kept of a layer whose tree is good. Each list is in the order of paths.
#[derive(Debug, PartialEq, Eq, Drop)]
pub struct Reduction {
    /// The targets of the whiteouts: they hide what lower layers have there and below.
    pub whiteouts: Seq<RelPath>,
    /// The directories of the opaque marks: they hide all that lower layers have below them.
    pub opaques: Seq<RelPath>,
    /// The plain entries that are no directories: they replace what lower layers have there and below.
    pub covers: Seq<RelPath>,
    /// The plain directories at the places of package files: each replaces a lower file at its path.
    pub place_dirs: Seq<RelPath>,
    /// The plain files at the places of package files, with what they have.
    pub files: Seq<FileFound>,
    /// The seal of the tree.
    pub seal: Digest,
}

/// What is known of a layer: that there is none, that its tree is bad, or its reduction.
#[derive(Debug, PartialEq, Eq, Drop)]
pub enum Shape {
    NoLayer,
    BadTree(TreeFault),
    Reduced(Reduction),
}
