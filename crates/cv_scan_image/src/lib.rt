//! The packages of an image by the reductions of its layers, and its scan with advisories: each distinct layer is indexed once, the
//! packages of the image are found from what was indexed, and a scan matches them with all records. The root of the image is not made.
//!
//! ```text
//! let findings = scan_layers(alloc, desk, manifest.layers.as_slice(), manifest.seals.as_slice(), &feed, advisories)?;
//! ```
#![tactic(auto)]

mod indexer;
mod packages;
mod places;
mod scan;

pub use cv_scan::ImageError;
pub use packages::list_packages;
pub use scan::scan_layers;
