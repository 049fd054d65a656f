//! Generated data for the benchmarks and for the programs that test the gate: records, packages, images, layers and a desk over
//! them, and what the programs of the benchmarks share besides.
//!
//! ```text
//! let records = FeedRecords { count: 100, every: 10, affecting: 2 };
//! let advisories = records.at_revision(alloc, 1)?;
//! let facts = image_facts(alloc, last_layer(0))?;
//! ```
#![tactic(auto)]

mod arguments;
mod clock;
mod desk;
mod facts;
mod feed;
mod flaw;
mod images;
mod installed;
mod layers;
mod lines;
mod rows;

pub use arguments::number;
pub use clock::{nanoseconds, processor_time};
pub use desk::{SampleDesk, SampleEntry, SampleLayer};
pub use facts::{facts_of, facts_of_rows};
pub use feed::FeedRecords;
pub use flaw::{Flaw, advisory};
pub use images::{hash, last_layer, manifest, manifest_over, unsealed};
pub use installed::{Installed, debian_package, package};
pub use layers::image_facts;
pub use lines::{finding_lines, finding_text, numbered, package_lines};
