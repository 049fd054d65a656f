//! Writes the lines of the commands on lists of components: why a line of their input is refused, and what a scan of a list finds.
//!
//! ```text
//! {"line":1,"refused":"bad_list","what":"bad_format"}
//! {"findings":[],"image":null,"reply":"good","skipped":1}
//! ```
#![tactic(auto)]

mod good;
mod refusal;

pub use good::list_good_line;
pub use refusal::{fault_line, none_line};
