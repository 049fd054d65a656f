ghost use Rattle.std.specs.Prelude.{◌≡◌};
ghost use Rattle.cv_overlay.specs.declared.fault.OverlayError.TheVariants as error;

use cv_base::{Digest, NoMemory, RelPath, What};
use std::alloc::AllocError;
use thiserror::Error;

/// The first fault of a tree, with the index of the entry, from 0.
#[derive(Clone, Copy, Debug, PartialEq, Eq, Error)]
pub enum TreeFault {
    #[error("entry {0} does not stand after all entries before it")]
    Unsorted(u32),
    #[error("the parent of entry {0} does not stand before it as a directory")]
    NoParent(u32),
    #[error("entry {0} is a bad mark")]
    BadMark(u32),
    #[error("a layer has at most 1,000,000 entries")]
    TooMany,
}

/// Why an image has no packages. A layer is named by its index, from 0, the base first.
#[derive(Debug, PartialEq, Eq, Drop, Error)]
pub enum ImageFault {
    #[error("layer {0} is not there")]
    NoLayer(u32),
    #[error("the tree of layer {0} is not good: {1}")]
    BadTree(u32, TreeFault),
    /// The tree of a layer has another seal than the manifest states.
    #[error("the tree of layer {layer} has the seal {found:?}, and {stated:?} is stated")]
    BadSeal {
        layer: u32,
        stated: Digest,
        found: Digest,
    },
    /// A line of a package file is bad. Lines are numbered from 1.
    #[error("{path:?}, line {line}: {what:?}")]
    BadFile {
        path: RelPath,
        line: u64,
        what: What,
    },
    /// A package file has more bytes than a package file may have.
    #[error("{path:?} is too large")]
    TooLarge {
        path: RelPath,
    },
}

/// Why a tree was not laid.
#[derive(Clone, Copy, Debug, PartialEq, Eq, Error)]
pub enum OverlayError {
    #[error("the tree is not good: {0}")]
    BadTree(TreeFault),
    #[error("out of memory")]
    NoMemory,
}

/// A copy is equal to its source.
impl Clone for ImageFault {
    ghost is_clone = { λ x y. y ≡ x };

    fn clone(&self) -> Result<ImageFault, AllocError> {
        match self {
            ImageFault::NoLayer(layer) => Ok(ImageFault::NoLayer(*layer)),
            ImageFault::BadTree(layer, fault) => Ok(ImageFault::BadTree(*layer, *fault)),
            ImageFault::BadSeal {
                layer,
                stated,
                found,
            } => Ok(ImageFault::BadSeal {
                layer: *layer,
                stated: *stated,
                found: *found,
            }),
            ImageFault::BadFile { path, line, what } => Ok(ImageFault::BadFile {
                path: path.clone()?,
                line: *line,
                what: *what,
            }),
            ImageFault::TooLarge { path } => Ok(ImageFault::TooLarge {
                path: path.clone()?,
            }),
        }
    }
}

impl From<NoMemory> for OverlayError {
    ghost from_gives = { λ _ e. e ≡ error.NoMemory };

    fn from(_error: NoMemory) -> OverlayError {
        OverlayError::NoMemory
    }
}
