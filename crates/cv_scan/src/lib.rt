//! The definition of a scan and its plain form, which loads the layers of an image, lays them, reads all its packages and matches them
//! with all records; and the reader that reads each distinct layer once, into what a [`LayerReader`] makes of it.
//!
//! ```text
//! let findings = scan_image(alloc, desk, manifest.layers.as_slice(), &feed, advisories)?;
//! ```
#![tactic(auto)]

mod distinct;
mod error;
mod laws;
mod layer_error;
mod loader;
mod reader;
mod scan;

pub use cv_match_feed::find_all;
pub use distinct::distinct_layers;
pub use error::ScanError;
pub use laws::root_laws;
pub use layer_error::ImageError;
pub use reader::{LayerReader, read_layers};
pub use scan::{scan_image, scan_root};
