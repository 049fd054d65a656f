ghost use Rattle.std.specs.Prelude.{◌≡◌, ◌^◌, ◌<◌, IfOk};
ghost use Rattle.cv_core_inventory.specs.Holdings.{holding};
ghost use Rattle.cv_core.specs.Core.{IsRegular, counted};
ghost use Rattle.cv_core.specs.code.Parts.{core_of};

use crate::machine::{Core, Generations};
use cv_core_inventory::Inventory;
use cv_core_records::{Replied, Reply};
use cv_desk::Desk;
use cv_notice::Notices;
use cv_tree::{Share, Shared};

impl<D: Desk + Drop> Core<D> {
    /// A core of these parts.
    pub(crate) fn of(
        inventory: Inventory<D>,
        notices: Shared<Notices>,
        since: Generations,
        generation: u64,
        count: u64,
    ) -> Core<D>
        requires { IsRegular (core_of inventory notices since generation count) }
        ensures { result ≡ core_of inventory notices since generation count }
    {
        Core {
            inventory,
            notices,
            since,
            generation,
            count,
        }
    }

    /// The core after an event that changes nothing, with its reply.
    pub(crate) fn unchanged(&self, reply: Reply) -> Replied<Core<D>>
        requires room { self.now.count < 2 ^ 63 }
        ensures { IfOk result (λ after. after ≡ counted self.now (self.now.state, reply)) }
    {
        self.with_inventory(self.inventory.share()?, reply)
    }

    /// The core after an event that leaves this inventory, with its reply.
    pub(crate) fn with_inventory(&self, inventory: Inventory<D>, reply: Reply) -> Replied<Core<D>>
        requires room { self.now.count < 2 ^ 63 }
        ensures { IfOk result (λ after. after ≡ counted self.now (holding self.now.state inventory, reply)) }
    {
        inventory.regular_law();
        let notices = self.notices.share()?;
        let since = self.since.share()?;
        let core = Core::of(inventory, notices, since, self.generation, self.count + 1);
        Ok((core, reply))
    }
}
