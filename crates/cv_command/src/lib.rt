//! The commands that wait for nobody, `scan`, `sbom`, `scan-list` and `order`: what each prints, and the exit status. And the law of
//! component lists: what `sbom` writes of an image, with records after it, gives `scan-list` the findings that `scan` has of the image
//! and the records.
//!
//! ```text
//! let status = order_command(alloc, &arguments, &mut output);
//! ```
#![tactic(auto)]

mod command;
mod error;
mod laws;
mod list;
mod order;
mod printing;
mod sbom;
mod scanning;
mod status;
mod usage;

pub use command::scan_command;
pub use laws::list_law;
pub use list::list_scan_command;
pub use order::order_command;
pub use printing::print;
pub use sbom::sbom_command;
pub use status::Status;
pub use usage::print_usage;
