//! Writes the answer of a scan, and that a line of the input is refused and why, each as a line of JSON.
//!
//! ```text
//! {"findings":[],"image":"sha256:11..","reply":"good"}
//! {"line":2,"refused":"bad_json"}
//! ```
#![tactic(auto)]

mod bad;
mod finding;
mod line;
mod names;
mod object;
mod refusal;
mod scan;

pub use bad::{bad_image_line, bad_value};
pub use finding::{finding_value, findings_value, kind_text};
pub use line::{ended, json_of, line_of};
pub use object::Object;
pub use refusal::{no_manifest_line, refusal_line, refusal_value, refused_line};
pub use scan::{desk_fault_line, good_line};
