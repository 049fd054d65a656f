//! The machine of `cv_core_machine` on plain lists, which looks at all packages and all records anew for each report, and generated
//! events. `test_checks` compares what it writes with what a core does.
//!
//! ```text
//! let step = Draws::new(seed).step(&machine);
//! machine.report_step(alloc, step, &mut wanted)?;
//! ```
#![tactic(auto)]

mod findings;
mod machine;

pub use findings::{Feed, Found, Lines, advisories, code_of, feed_of, ids_of};
pub use machine::{Draws, IMAGES, Machine, Patch, Step, Work};
