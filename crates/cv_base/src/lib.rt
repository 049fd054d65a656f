//! The plain data of cvwatch: digests, trees, packages, advisories and findings, over the paths of `cv_path`; and items put in order.
//!
//! ```text
//! let path = RelPath::read(alloc, "var/lib/dpkg/status")?;
//! assert_eq!(place(&path), Some(Place::Status));
//! ```
#![tactic(auto)]

mod advisory;
mod ascii;
mod digest;
mod fault;
mod finding;
mod limits;
mod manifest;
mod package;
mod sorting;
mod steps;
mod tree;

pub use advisory::{Advisory, Affected, Range, RangeKind, Turn};
pub use ascii::{are_printing, printing_text};
pub use cv_path::{
    MAX_PATH_LEN, PathError, Place, RelPath, begins_with_blank, cut_at, goes_on, is_blank,
    is_dropped, is_same_name, is_special, next_line, path_laws, place, trim_end, trim_front,
    trim_line,
};
pub use cv_seq::{NoMemory, Seq, Text};
pub use digest::{BadDigest, Digest, digest_round_trip};
pub use fault::{FileBad, ReadBad, What};
pub use finding::{Finding, Reason, Row};
pub use limits::{MAX_ADVISORIES, MAX_ENTRIES, MAX_LAYERS, PACKAGE_FILE_LIMIT};
pub use manifest::Manifest;
pub use package::{Package, PackageKind, PackageName};
pub use sorting::in_order;
pub use steps::Steps;
pub use tree::{Content, Kind, ListEntry, Node, Tree, TreeEntry};
