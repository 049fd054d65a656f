//! Which images are registered, and which of their layers wait for a worker, are claimed by one, or are indexed. An event makes
//! a new registry that shares the rest with the old one, which stays as it was. `specs/Registrations.antt` says what a registry
//! is, and each event is proved to be that of the machine in `cv_core_machine`.
//!
//! ```text
//! let (registry, reply) = Registry::new(4096).register(alloc, &manifest)?;
//! let (registry, reply) = registry.claim(alloc, &layer, worker)?;
//! ```
#![tactic(auto)]

mod images;
mod layer_status;
mod layer_table;
mod layers;
mod parts;
mod registry;
mod table;
mod users;

pub use registry::Registry;
