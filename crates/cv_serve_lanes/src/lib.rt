//! What the lanes and the workers of a round do, each at its seat of a hub. A lane carries out its requests in their order: an event goes
//! to the hub, and a report, a page or a list is read from a view that the seat enters, which waits for no event. A worker takes jobs with
//! its hand, claims the layer of each, and if the claim is granted, indexes the layer from its desk and says what became of it.
//!
//! ```text
//! refresh(rt, hub, seats);
//! LaneTeam { rt, hub }.run(seat, lane)?;
//! WorkerCrew { rt, alloc, hub, queue }.run(worker, hand, seat, desk)?;
//! ```
#![tactic(auto)]

mod index;
mod lanes;
mod learning;
mod reads;
mod request;
mod viewing;
mod worker;
mod workers;

pub use cv_hub::{Hub, Identity, Seat};
pub use lanes::LaneTeam;
pub use learning::refresh;
pub use workers::WorkerCrew;
