//! Texts of a layer: lines cut at a byte, and paths with the package files among them.
//!
//! ```text
//! let path = RelPath::read(alloc, "var/lib/dpkg/status")?;
//! assert_eq!(place(&path), Some(Place::Status));
//! ```
#![tactic(auto)]

mod limits;
mod package_files;
mod path;
mod path_text;
mod places;
mod text;

pub use limits::MAX_PATH_LEN;
pub use package_files::place;
pub use path::{PathError, RelPath, path_laws};
pub use path_text::{goes_on, is_special};
pub use places::Place;
pub use text::{
    begins_with_blank, cut_at, is_blank, is_dropped, is_same_name, next_line, trim_end, trim_front,
    trim_line,
};
