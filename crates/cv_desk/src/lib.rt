//! Where layers come from: listings and reads of the trees that a desk's type names.
//!
//! ```text
//! let mut desk = TableDesk::<Sample>::new();
//! let tree = load(alloc, &mut desk, &digest)?;
//! ```
#![tactic(auto)]

mod desk;
mod loading;
mod table;

pub use desk::{Desk, DeskFault, FileRead, ReadResult};
pub use loading::load;
pub use table::{Table, TableDesk, TableEntry};
