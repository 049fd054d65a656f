//! What images of layers that have letters contain, and what the records of feeds find in them, on plain lists: nothing is kept, and
//! each question looks at all packages and all records anew.
mod changes;
mod contents;
mod lines;
mod records;

pub use changes::{Change, Feed, changes_of};
pub use contents::{Contents, Fault, contents_of, fault_of};
pub use lines::{Found, Lines};
pub use records::{CODES, FEEDS, advisories, code_of, feed_of, ids_of, patched};
