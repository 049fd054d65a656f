//! The basic types of cvwatch, which every other crate may use: a list, a text, the push of what may be absent, and the
//! error for running out of memory. `specs/Cause.antt` defines the count of faults that justifies an answer about a failure.
//!
//! ```text
//! let names: Seq<Text> = Seq::of(vec![in alloc; Text::of(alloc, "curl")?]?);
//! let copy = names.as_slice()[0].clone()?;
//! ```
#![tactic(auto)]

mod memory;
mod push;
mod seq;
mod text;

pub use memory::NoMemory;
pub use push::push_some;
pub use seq::Seq;
pub use text::Text;
