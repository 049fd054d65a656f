//! The machine of `cv_core_machine` as it is defined, on plain lists: it does events by letters, and writes the reply to each and what it
//! leaves. It keeps no findings: each report looks at all packages of the image with all records anew.
mod draws;
mod letters;
mod plain;
mod step;
mod table;

pub use draws::Draws;
pub use letters::IMAGES;
pub use plain::Machine;
pub use step::{Patch, Step, Work};
