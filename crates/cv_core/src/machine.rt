ghost use Rattle.std.specs.Prelude.{◌≡◌, ◌≤◌, IfOk};
ghost use Rattle.cv_core_inventory.specs.Holdings.{holding};
ghost use Rattle.cv_core_machine.specs.Layers.{queued};
ghost use Rattle.cv_core_machine.specs.State.{feed_generation};
ghost use Rattle.cv_core_machine.specs.declared.limits.TheConstants.{MAX_FEEDS, MAX_IMAGES};
ghost use Rattle.cv_core.specs.Core.{IsRegular, opened};

use cv_base::{Digest, NoMemory, Seq, Text};
use cv_core_inventory::Inventory;
use cv_core_machine::Limits;
use cv_desk::Desk;
use cv_notice::Notices;
use cv_tree::{Shared, Tree};
use std::alloc::Global;
use std::marker::Model;

/// For each feed the generation of its last update or patch.
pub(crate) type Generations = Tree<Text, u64>;

/// The machine of the service. Contracts see its state, and how many events it replied to. The outcome of each image is kept, so
/// that reports are read without matching.
pub struct Core<D: Desk> {
    pub(crate) inventory: Inventory<D>,
    pub(crate) notices: Shared<Notices>,
    pub(crate) since: Generations,
    pub(crate) generation: u64,
    pub(crate) count: u64,
}

/// Written out, so that the crates above call it, and do not prove anew how each part is dropped.
impl<D: Desk + Drop> Drop for Core<D> {
    fn drop(self) {
        let Core {
            inventory: _,
            notices: _,
            since: _,
            generation: _,
            count: _,
        } = self;
    }
}

impl<D: Desk> Model for Core<D> {
    ghost use Rattle.cv_core.specs.Core.{CoreView, IsRegular};
    ghost use Rattle.cv_core.specs.code.Parts.{core_of};

    ghost Value = { CoreView };

    ghost view = { λ m. core_of m.inventory m.notices m.since m.generation m.count };

    ghost invariant = { λ m. IsRegular (core_of m.inventory m.notices m.since m.generation m.count) };
}

impl<D: Desk + Drop> Core<D> {
    /// The core before all events. There may be as many images and feeds as the limits say.
    pub fn new(alloc: Global, limits: Limits) -> Result<Core<D>, NoMemory>
        requires images { (1 ≤ limits.images) × (limits.images ≤ MAX_IMAGES) }
        requires feeds { (1 ≤ limits.feeds) × (limits.feeds ≤ MAX_FEEDS) }
        ensures { IfOk result (λ core. core ≡ opened limits) }
    {
        let notices = Shared::of(alloc, Notices::new(alloc))?;
        let inventory = Inventory::new(alloc, limits)?;
        Ok(Core::of(inventory, notices, Tree::new(), 0, 0))
    }

    /// How many events it replied to. It takes no memory.
    pub fn count(&self) -> u64
        ensures { result ≡ self.now.count }
    {
        self.count
    }

    /// The generation of the last update or patch, or 0. It takes no memory.
    pub fn generation(&self) -> u64
        ensures { result ≡ self.now.state.generation }
    {
        self.generation
    }

    /// The generation of the last update or patch of a feed, or 0 if there is no such feed. It takes no memory.
    pub(crate) fn generation_of(&self, feed: &Text) -> u64
        ensures { result ≡ feed_generation self.now.state feed.now }
    {
        match self.since.get(feed) {
            Some(generation) => *generation,
            None => 0,
        }
    }

    /// The images, layers and feeds. It takes no memory.
    pub(crate) fn inventory(&self) -> &Inventory<D>
        ensures { holding self.now.state result.now ≡ self.now.state }
    {
        &self.inventory
    }

    /// The notifications that are not acknowledged. It takes no memory.
    pub fn notices(&self) -> &Notices
        ensures { result.now ≡ self.now.state.notifications }
    {
        self.notices.value()
    }

    /// The notifications, as they are shared. It takes no memory.
    pub(crate) fn shared_notices(&self) -> &Shared<Notices>
        ensures { result.now ≡ self.now.state.notifications }
    {
        &self.notices
    }

    /// The layers that wait for a worker, in ascending order.
    pub fn queued(&self, alloc: Global) -> Result<Seq<Digest>, NoMemory>
        ensures { IfOk result (λ layers. layers ≡ queued self.now.state.layers) }
    {
        Ok(Seq::of(self.inventory.queued(alloc)?))
    }

    /// The state is consistent. For proofs: it has no effect at run time.
    pub fn regular_law(&self)
        ensures { IsRegular self.now }
    {
        let _inventory = &self.inventory;
    }
}
