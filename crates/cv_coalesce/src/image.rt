use cv_base::{Package, Seq};
use cv_overlay::ImageFault;

/// The packages of an image, or why it has none.
#[derive(Debug, PartialEq, Eq, Drop)]
pub enum ImagePackages {
    /// The packages of the image's package files, in the order of their paths.
    Good(Seq<Package>),
    Bad(ImageFault),
}
