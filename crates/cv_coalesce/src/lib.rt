//! Finds the packages of an image from the reductions of its layers. The root of the image is not made, and no package file is
//! copied.
//!
//! ```text
//! match coalesce(alloc, &facts, &[0, 1])? {
//!     ImagePackages::Good(packages) => report(packages),
//!     ImagePackages::Bad(fault) => refuse(fault),
//! }
//! ```
#![tactic(auto)]

mod coalescer;
mod gather;
mod image;
mod merge;
mod search;
mod shapes;
mod visible;

pub use coalescer::coalesce;
pub use cv_overlay::ImageFault;
pub use image::ImagePackages;
