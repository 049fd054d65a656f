use crate::digest::Digest;
use cv_seq::Seq;

/// An image: its digest and those of its layers, the base first. A layer may occur more than once. For each layer a seal may be
/// stated, which is a sum of this project's own over the layer's unpacked tree.
#[derive(Clone, Debug, PartialEq, Eq, Drop)]
pub struct Manifest {
    pub hash: Digest,
    pub layers: Seq<Digest>,
    /// The stated seal of each layer, or none. There are as many as layers.
    pub seals: Seq<Option<Digest>>,
}
