//! Reads records of the OSV schema from JSON values, owned or borrowed, into advisories, and lists of records into advisories with
//! distinct ids.
//!
//! ```text
//! let value = Value::from_str(alloc, text)?;
//! let records = read_records(alloc, &value)?;
//! assert_eq!(records.as_slice()[0].id.as_str(), "DSA-5417-1");
//! ```
#![tactic(auto)]

mod error;
mod json;
mod node;
mod part;
mod range;
mod record;
mod record_error;
mod record_list;
mod records;

pub use error::OsvError;
pub use node::{NewTexts, Node, Texts};
pub use record::{RecordRead, read_advisory, read_node};
pub use record_error::{AdvisoryError, RecordWhat};
pub use record_list::RecordList;
pub use records::read_records;
