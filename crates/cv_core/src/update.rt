ghost use Rattle.std.specs.Prelude.{◌≡◌, ◌+◌, ◌^◌, ◌<◌, All, IfOk};
ghost use Rattle.std.specs.Map.{keys_of};
ghost use Rattle.cv_core_inventory.specs.Holdings.{holding};
ghost use Rattle.cv_core_machine.specs.Matching.{IsStepCount};
ghost use Rattle.cv_core_machine.specs.Scans.{StatesEveryLayer, trees_of};
ghost use Rattle.cv_core_machine.specs.Step.{notified, update, updated};
ghost use Rattle.cv_core_machine.specs.declared.event.MachineEvent.{MachineEvent};
ghost use Rattle.cv_core.specs.Core.{IsUpdated, counted};

use crate::machine::Core;
use cv_advdb::AdvError;
use cv_base::{Advisory, NoMemory, Row, Seq, Steps, Text};
use cv_core_inventory::Inventory;
use cv_core_records::{Replied, Reply};
use cv_desk::Desk;
use cv_notice::Notices;
use cv_tree::{Share, Shared};
use std::alloc::Global;
use std::sync::ledger::Ledger;

impl<D: Desk + Drop> Core<D> {
    pub(crate) fn update<L: Ledger>(
        &self,
        alloc: Global,
        feed: Text,
        records: Seq<Advisory>,
        steps: &mut Steps<L>,
    ) -> Replied<Core<D>>
        requires room { self.now.count < 2 ^ 63 }
        ensures stepped { StatesEveryLayer D.tree → IfOk result (λ after. after ≡ counted self.now (update (trees_of D.tree) self.now.state feed records)) }
        ensures known { IfOk result (λ after. IsUpdated self.now (MachineEvent.Update feed records) after) }
        ensures count { IfOk result (λ after. after.0.count ≡ self.now.count + 1) }
        ensures tries { StatesEveryLayer D.tree → IsStepCount (trees_of D.tree) self.now.state (MachineEvent.Update feed records) steps.old steps.new }
    {
        let name = feed.share()?;
        match self.inventory.update(alloc, feed, records, steps) {
            Ok((inventory, rows)) => self.updated(alloc, name, inventory, rows),
            Err(AdvError::TooManyFeeds) => self.unchanged(Reply::TooManyFeeds),
            Err(AdvError::NoMemory) => Err(NoMemory),
        }
    }

    /// The core after an update or a patch of a feed that leaves this inventory and has these rows.
    pub(crate) fn updated(
        &self,
        alloc: Global,
        feed: Text,
        inventory: Inventory<D>,
        rows: Seq<Row>,
    ) -> Replied<Core<D>>
        requires room { self.now.count < 2 ^ 63 }
        ensures { IfOk result (λ after. after ≡ counted self.now (updated (holding self.now.state inventory) feed inventory.feeds rows)) }
    {
        self.regular_law();
        inventory.regular_law();
        let generation = self.generation + 1;
        let reply = Reply::Updated {
            generation,
            rows: rows.as_slice().len() as u64,
        };
        let since = self.since.set(alloc, feed, generation)?;
        let notices = self.notified(alloc, generation, rows)?;
        let core = Core::of(inventory, notices, since, generation, self.count + 1);
        Ok((core, reply))
    }

    /// The notifications with one more of this number, if it has rows.
    fn notified(
        &self,
        alloc: Global,
        number: u64,
        rows: Seq<Row>,
    ) -> Result<Shared<Notices>, NoMemory>
        requires above { All (λ other. other < number) (keys_of self.now.state.notifications) }
        ensures { IfOk result (λ notices. notices ≡ notified self.now.state.notifications number rows) }
    {
        if rows.as_slice().is_empty() {
            return self.notices.share();
        }
        let mut notices = self.notices.value().copy()?;
        notices.add(alloc, number, rows)?;
        Shared::of(alloc, notices)
    }
}
