ghost use Rattle.std.specs.Prelude.{◌≡◌, ◌^◌, ◌<◌, IfOk};
ghost use Rattle.cv_core_machine.specs.Step.{ack};
ghost use Rattle.cv_core.specs.Core.{IsRegular, counted};

use crate::machine::Core;
use cv_core_records::{Replied, Reply};
use cv_desk::Desk;
use cv_notice::{NoNotification, Notices};
use cv_tree::{Share, Shared};
use std::alloc::Global;

impl<D: Desk + Drop> Core<D> {
    pub(crate) fn ack(&self, alloc: Global, number: u64) -> Replied<Core<D>>
        requires room { self.now.count < 2 ^ 63 }
        ensures { IfOk result (λ after. after ≡ counted self.now (ack self.now.state number)) }
    {
        self.regular_law();
        let mut notices = self.notices.value().copy()?;
        match notices.ack(number) {
            Err(NoNotification) => self.unchanged(Reply::NoNotification),
            Ok(()) => self.with_notices(alloc, notices, Reply::Acked),
        }
    }

    /// The core after an event that leaves these notifications, with its reply.
    fn with_notices(&self, alloc: Global, notices: Notices, reply: Reply) -> Replied<Core<D>>
        requires room { self.now.count < 2 ^ 63 }
        requires regular { IsRegular (record self.now { state = record self.now.state { notifications = notices } }) }
        ensures { IfOk result (λ after. after ≡ counted self.now (record self.now.state { notifications = notices }, reply)) }
    {
        let inventory = self.inventory.share()?;
        let since = self.since.share()?;
        let notices = Shared::of(alloc, notices)?;
        let core = Core::of(inventory, notices, since, self.generation, self.count + 1);
        Ok((core, reply))
    }
}
