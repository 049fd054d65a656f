ghost use Rattle.std.specs.Prelude.{◌≡◌, ◌+◌, ◌^◌, ◌<◌, true, false, IfOk, OnErr};
ghost use Rattle.cv_core_machine.specs.Matching.{IsStepCount};
ghost use Rattle.cv_core_machine.specs.Scans.{StatesEveryLayer, Trees, trees_of};
ghost use Rattle.cv_core_machine.specs.Step.{step};
ghost use Rattle.cv_core.specs.Core.{IsSound, IsUpdated, act_of, counted, is_update};

use crate::event::Event;
use crate::machine::Core;
use cv_base::{NoMemory, Steps};
use cv_core_records::Reply;
use cv_desk::Desk;
use std::alloc::Global;
use std::sync::ledger::Ledger;

impl<D: Desk + Drop> Core<D> {
    /// Applies an event, and gives the reply. If memory runs out, the event is consumed and the core is as it was. Which rows an update
    /// or a patch notifies of is stated if the type of the desks says of each layer what it has; all else does not depend on that.
    pub fn apply<L: Ledger>(
        &mut self,
        alloc: Global,
        event: Event<D>,
        steps: &mut Steps<L>,
    ) -> Result<Reply, NoMemory>
        requires room { self.old.count < 2 ^ 63 }
        requires sound { IsSound (act_of event) }
        ensures stepped { StatesEveryLayer D.tree → IfOk result (λ reply. (self.new, reply) ≡ counted self.old (step (trees_of D.tree) self.old.state (act_of event))) }
        ensures others { (trees : Trees) → is_update (act_of event) ≡ false → IfOk result (λ reply. (self.new, reply) ≡ counted self.old (step trees self.old.state (act_of event))) }
        ensures update { is_update (act_of event) ≡ true → IfOk result (λ reply. IsUpdated self.old (act_of event) (self.new, reply)) }
        ensures count { IfOk result (λ _. self.new.count ≡ self.old.count + 1) }
        ensures tries { StatesEveryLayer D.tree → IsStepCount (trees_of D.tree) self.old.state (act_of event) steps.old steps.new }
        ensures err { OnErr result (self.new ≡ self.old) }
    {
        let (core, reply) = event.after(alloc, self, steps)?;
        *self = core;
        Ok(reply)
    }
}
