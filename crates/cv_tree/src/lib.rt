//! Ordered maps whose versions share what they have in common: a change makes a new map and leaves the old one as it was, and takes time
//! and memory for one path alone. Contracts see a map as its entries in ascending order of the keys; `specs/Entries.antt` defines their
//! words. Below the maps are AVL trees of nodes that may have several owners.
//!
//! ```text
//! let one = Tree::new().set(alloc, 7, Shared::of(alloc, "a")?)?;
//! let two = one.set(alloc, 9, Shared::of(alloc, "b")?)?;
//! assert!(one.get(&9).is_none() && two.get(&9).is_some());
//! ```
#![tactic(auto)]

mod branch;
mod change;
mod laws;
mod rebuild;
mod remake;
mod rotations;
mod search;
mod share;
mod tree;

pub use branch::Branch;
pub use laws::{change_laws, value_laws};
pub use remake::Remake;
pub use share::{Share, Shared};
pub use tree::Tree;
