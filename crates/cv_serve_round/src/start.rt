ghost use Rattle.std.specs.Prelude.{◌≡◌, [], ◌+◌, ◌≤◌, IfOk};
ghost use Rattle.cv_core_machine.specs.declared.limits.TheConstants.{MAX_FEEDS, MAX_IMAGES};
ghost use Rattle.cv_core.specs.Core.{opened};
ghost use Rattle.cv_hub.specs.Seats.{AreFresh};
ghost use Rattle.cv_serve_round.specs.Round.{AreRoundSeats};

use cv_base::NoMemory;
use cv_core::{Core, Limits, MAX_FEEDS, MAX_IMAGES};
use cv_desk::Desk;
use cv_hub::{Blank, Hub, Identity, Seat};
use cv_request::MAX_LANES;
use std::alloc::Global;
use std::sync::Wait;

/// The core that the lanes and the workers of a service share, and a seat of each of them. Who starts one ends it.
pub struct Service<D: Desk, L: Identity> {
    pub hub: Hub<D, L>,
    pub seats: Vec<Seat<D, L>>,
}

impl<D: Desk + Drop, L: Identity> Service<D, L> {
    /// Ends the service.
    pub fn end<W: Wait>(self, rt: &W) {
        let Service { hub, seats } = self;
        hub.end(rt, seats);
    }
}

/// A service that has applied no event, with this number of workers.
pub fn started<D: Desk + Drop, L: Identity, W: Wait>(
    rt: &W,
    alloc: Global,
    blank: Blank,
    core: Core<D>,
    workers: usize,
) -> Result<Service<D, L>, NoMemory>
    requires name { blank.name ≡ L.name }
    requires parts { (blank.parts ≡ L.parts) × (L.parts ≡ 8 + workers) }
    requires book { blank.book ≡ L.book }
    requires core { core ≡ opened L.limits }
    requires workers { workers ≤ 8 }
    ensures hub { IfOk result (λ service. service.hub ≡ []) }
    ensures seats { IfOk result (λ service. AreRoundSeats L.parts workers [] service.seats.items) }
    ensures fresh { IfOk result (λ service. AreFresh 0 service.seats.items) }
{
    let count = u32::from(MAX_LANES) + workers as u32;
    let (hub, seats) = Hub::<D, L>::start(rt, alloc, blank, core, count)?;
    Ok(Service { hub, seats })
}

/// A core that has applied no event, with the limits of a service.
pub fn new_core<D: Desk + Drop>(alloc: Global) -> Result<Core<D>, NoMemory>
    ensures { IfOk result (λ core. core ≡ opened (record { images = MAX_IMAGES; feeds = MAX_FEEDS })) }
{
    let limits = Limits {
        images: MAX_IMAGES,
        feeds: MAX_FEEDS,
    };
    Core::new(alloc, limits)
}
