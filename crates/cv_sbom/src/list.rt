use cv_base::{Digest, Package, Seq};

/// A component list, as it was read. `image` is the image that it names, if it names one. `packages` are sorted by their fields,
/// each once. `skipped` is how many components are no packages of this project's profile.
#[derive(Debug, PartialEq, Eq, Drop)]
pub struct ComponentList {
    pub image: Option<Digest>,
    pub packages: Seq<Package>,
    pub skipped: u64,
}
