//! Writes the entries of a transcript as lines of JSON: refused lines, events and reads, each with a tag that is read back
//! from it; and the order of the entries of a round.
//!
//! ```text
//! {"at":2,"event":"claim","layer":"sha256:aa..","reply":"claimed","worker":0}
//! ```
#![tactic(auto)]

mod entry;
mod event;
mod read;
mod rows;
mod tag;

pub use cv_scan_output::{
    Object, bad_image_line, bad_value, desk_fault_line, findings_value, good_line, line_of,
    no_manifest_line, refusal_line,
};
pub use entry::{Entry, entry_line};
pub use event::reply_name;
pub use rows::rows_value;
pub use tag::tag_laws;
