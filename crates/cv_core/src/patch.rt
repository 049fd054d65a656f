ghost use Rattle.std.specs.Prelude.{◌≡◌, ◌+◌, ◌^◌, ◌<◌, true, IfOk};
ghost use Rattle.cv_advdb.specs.Feeds.{has_feed};
ghost use Rattle.cv_core_machine.specs.Matching.{IsStepCount};
ghost use Rattle.cv_core_machine.specs.Scans.{StatesEveryLayer, trees_of};
ghost use Rattle.cv_core_machine.specs.State.{feed_generation};
ghost use Rattle.cv_core_machine.specs.Step.{patch};
ghost use Rattle.cv_core_machine.specs.declared.event.MachineEvent.{MachineEvent};
ghost use Rattle.cv_core.specs.Core.{IsUpdated, counted};

use crate::machine::Core;
use cv_advdb::PatchError;
use cv_base::{Advisory, NoMemory, Seq, Steps, Text};
use cv_core_records::{Replied, Reply};
use cv_desk::Desk;
use std::alloc::Global;
use std::sync::ledger::Ledger;

impl<D: Desk + Drop> Core<D> {
    /// The core after a patch of a feed of which the client knows this generation. A feed that does not stand, and one that has
    /// another generation, is found in time logarithmic in the number of feeds.
    pub(crate) fn patch<L: Ledger>(
        &self,
        alloc: Global,
        feed: Text,
        base: u64,
        records: Seq<Advisory>,
        remove: &[Text],
        steps: &mut Steps<L>,
    ) -> Replied<Core<D>>
        requires room { self.now.count < 2 ^ 63 }
        ensures stepped { StatesEveryLayer D.tree → IfOk result (λ after. after ≡ counted self.now (patch (trees_of D.tree) self.now.state feed base records remove.now)) }
        ensures known { IfOk result (λ after. IsUpdated self.now (MachineEvent.Patch feed base records remove.now) after) }
        ensures count { IfOk result (λ after. after.0.count ≡ self.now.count + 1) }
        ensures tries { StatesEveryLayer D.tree → IsStepCount (trees_of D.tree) self.now.state (MachineEvent.Patch feed base records remove.now) steps.old steps.new }
    {
        if !self.inventory().has_feed(&feed) {
            return self.unchanged(Reply::NoFeed);
        }
        let kept = self.generation_of(&feed);
        if base != kept {
            return self.unchanged(Reply::StaleBase { kept });
        }
        self.patched(alloc, feed, records, remove, steps)
    }

    /// The core after a patch of a feed that stands, on the generation of that feed.
    fn patched<L: Ledger>(
        &self,
        alloc: Global,
        feed: Text,
        records: Seq<Advisory>,
        remove: &[Text],
        steps: &mut Steps<L>,
    ) -> Replied<Core<D>>
        requires room { self.now.count < 2 ^ 63 }
        requires stands { has_feed feed self.now.state.feeds ≡ true }
        ensures stepped { StatesEveryLayer D.tree → IfOk result (λ after. after ≡ counted self.now (patch (trees_of D.tree) self.now.state feed (feed_generation self.now.state feed) records remove.now)) }
        ensures known { IfOk result (λ after. IsUpdated self.now (MachineEvent.Patch feed (feed_generation self.now.state feed) records remove.now) after) }
        ensures count { IfOk result (λ after. after.0.count ≡ self.now.count + 1) }
        ensures tries { StatesEveryLayer D.tree → IsStepCount (trees_of D.tree) self.now.state (MachineEvent.Patch feed (feed_generation self.now.state feed) records remove.now) steps.old steps.new }
    {
        match self.inventory.patch(alloc, &feed, records, remove, steps) {
            Ok((inventory, rows)) => self.updated(alloc, feed, inventory, rows),
            Err(PatchError::NoFeed) => self.unchanged(Reply::NoFeed),
            Err(PatchError::TooManyRecords { would }) => {
                self.unchanged(Reply::TooManyRecords { would })
            }
            Err(PatchError::NoMemory) => Err(NoMemory),
        }
    }
}
