use cv_base::{Digest, Seq};

/// What is kept of a registered image: its layers, the base first, and for each of them the seal that its manifest stated, or none.
#[derive(Clone, Debug, PartialEq, Eq, Drop)]
pub struct Image {
    pub layers: Seq<Digest>,
    pub seals: Seq<Option<Digest>>,
}
