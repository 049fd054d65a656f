ghost use Rattle.std.specs.Prelude.{◌≡◌};
ghost use Rattle.cv_scan.specs.Faults.{layer_error, overlay_error, packages_error};
ghost use Rattle.cv_scan.specs.declared.layer_error.ImageError.TheVariants as error;

use cv_base::{Digest, NoMemory};
use cv_desk::DeskFault;
use cv_overlay::{ImageFault, OverlayError};
use cv_packages::PackagesError;
use thiserror::Error;

/// Why the scan of an image has no findings.
#[derive(Debug, PartialEq, Eq, Drop, Error)]
pub enum ImageError {
    #[error("the image is bad: {0}")]
    Bad(ImageFault),
    /// The desk failed at this layer.
    #[error("a layer could not be read")]
    Desk(Digest),
    #[error("out of memory")]
    NoMemory,
}

/// A refused package file makes the image bad.
impl From<PackagesError> for ImageError {
    ghost from_gives = { λ e out. out ≡ packages_error e };

    fn from(error: PackagesError) -> ImageError {
        match error {
            PackagesError::Refused(fault) => ImageError::Bad(ImageFault::from(fault)),
            PackagesError::NoMemory => ImageError::NoMemory,
        }
    }
}

impl From<NoMemory> for ImageError {
    ghost from_gives = { λ _ e. e ≡ error.NoMemory };

    fn from(_error: NoMemory) -> ImageError {
        ImageError::NoMemory
    }
}

impl ImageError {
    /// Why the layer of this index, from 0, was not laid.
    pub fn of_overlay(index: u32, error: OverlayError) -> ImageError
        ensures { result ≡ overlay_error index error }
    {
        match error {
            OverlayError::BadTree(fault) => ImageError::Bad(ImageFault::BadTree(index, fault)),
            OverlayError::NoMemory => ImageError::NoMemory,
        }
    }

    /// Why this layer was not read.
    pub fn of_desk(layer: &Digest, fault: DeskFault) -> ImageError
        ensures { result ≡ layer_error layer.now fault }
    {
        match fault {
            DeskFault::Failed => ImageError::Desk(*layer),
            DeskFault::NoMemory => ImageError::NoMemory,
        }
    }
}
