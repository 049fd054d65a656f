//! The images of a service with their layers and the feeds, and what is known of them: the facts of the indexed layers, and the outcome
//! of each image, which is kept, so that a report is read without matching. An event makes a new inventory that shares the rest with the
//! old one, which stays as it was. `specs/Holdings.antt` says what an inventory holds, `specs/Knowledge.antt` what is known, and each
//! event is proved to be that of the machine in `cv_core_machine`. An update or a patch of a feed finds the images that it may
//! concern by the names of packages that their layers have, and looks at no other.
//!
//! ```text
//! let (inventory, reply) = inventory.register(alloc, &manifest, &mut steps)?;
//! let (inventory, reply) = inventory.claim(alloc, &layer, worker)?;
//! let (inventory, reply) = inventory.index(alloc, facts, worker, &mut steps)?;
//! let (inventory, rows) = inventory.update(alloc, feed, records, &mut steps)?;
//! ```
#![tactic(auto)]

mod facts;
mod images;
mod inventory;
mod knowledge;
mod known_images;
mod known_layers;
mod known_update;
mod layers;
mod named;
mod parts;
mod patch;
mod reads;
mod renew;
mod replies;
mod update;

pub use inventory::Inventory;
pub use knowledge::Outcomes;
