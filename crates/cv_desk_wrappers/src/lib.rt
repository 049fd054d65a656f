//! Wrappers around a desk, for tests: one whose calls fail by a list, and a pair whose listings wait for each other.
//!
//! ```text
//! let mut desk = Faulty::new(TableDesk::<Sample>::new(), Seq::of(vec![in alloc; 2]?));
//! let (first, second) = GateDesk::pair(alloc, TableDesk::<Sample>::new(), TableDesk::<Sample>::new(), 1, 2)?;
//! ```
#![tactic(auto)]

mod faulty;
mod gate;

pub use faulty::Faulty;
pub use gate::GateDesk;
