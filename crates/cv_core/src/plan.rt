ghost use Rattle.std.specs.Prelude.{◌≡◌, ◌+◌, ◌^◌, ◌<◌, true, false, IfOk, IfErr};
ghost use Rattle.cv_core_machine.specs.Board.{board_of};
ghost use Rattle.cv_core_machine.specs.Matching.{IsStepCount};
ghost use Rattle.cv_core_machine.specs.Scans.{StatesEveryLayer, Trees, trees_of};
ghost use Rattle.cv_core_machine.specs.Step.{step};
ghost use Rattle.cv_core.specs.Boards.{ShowsWaiting};
ghost use Rattle.cv_core.specs.Core.{IsSound, IsUpdated, act_of, counted, is_update};
ghost use Rattle.cv_core.specs.Planned.{plan_of};

use crate::board::Board;
use crate::event::Event;
use crate::machine::Core;
use cv_base::{NoMemory, Steps};
use cv_core_records::Reply;
use cv_desk::Desk;
use std::alloc::Global;
use std::marker::Model;
use std::sync::ledger::Ledger;

/// An event that took all the memory that it needs, and that may still be cancelled. Contracts see the core before it, the core
/// after it, and the reply.
pub struct Planned<D: Desk> {
    before: Core<D>,
    after: Core<D>,
    reply: Reply,
}

/// Written out, so that the crates above call it, and do not prove anew how each part is dropped.
impl<D: Desk + Drop> Drop for Planned<D> {
    fn drop(self) {
        let Planned {
            before: _,
            after: _,
            reply: _,
        } = self;
    }
}

impl<D: Desk> Model for Planned<D> {
    ghost use Rattle.cv_core.specs.Planned.{PlannedView};

    ghost Value = { PlannedView };

    ghost view = { λ p. record { before = p.before; after = p.after; reply = p.reply } };
}

impl<D: Desk + Drop> Core<D> {
    /// Plans an event: it takes all the memory of the event, and counts its steps. If memory runs out, the event is consumed and the
    /// core comes back as it was.
    pub fn plan<L: Ledger>(
        self,
        alloc: Global,
        event: Event<D>,
        steps: &mut Steps<L>,
    ) -> Result<Planned<D>, (Core<D>, NoMemory)>
        requires room { self.count < 2 ^ 63 }
        requires sound { IsSound (act_of event) }
        ensures stepped { StatesEveryLayer D.tree → IfOk result (λ planned. planned ≡ plan_of self (counted self (step (trees_of D.tree) self.state (act_of event)))) }
        ensures others { (trees : Trees) → is_update (act_of event) ≡ false → IfOk result (λ planned. planned ≡ plan_of self (counted self (step trees self.state (act_of event)))) }
        ensures update { is_update (act_of event) ≡ true → IfOk result (λ planned. IsUpdated self (act_of event) (planned.after, planned.reply)) }
        ensures count { IfOk result (λ planned. planned.after.count ≡ self.count + 1) }
        ensures tries { StatesEveryLayer D.tree → IsStepCount (trees_of D.tree) self.state (act_of event) steps.old steps.new }
        ensures before { IfOk result (λ planned. planned.before ≡ self) }
        ensures err { IfErr result (λ refused. refused.0 ≡ self) }
    {
        match event.after(alloc, &self, steps) {
            Ok((core, reply)) => Ok(Planned {
                before: self,
                after: core,
                reply,
            }),
            Err(NoMemory) => Err((self, NoMemory)),
        }
    }
}

impl<D: Desk + Drop> Planned<D> {
    /// The core after the event, with the reply. It takes no memory.
    pub fn commit(self) -> (Core<D>, Reply)
        ensures { result ≡ (self.after, self.reply) }
    {
        let Planned {
            before: _,
            after,
            reply,
        } = self;
        (after, reply)
    }

    /// The core as it was before the event. It takes no memory.
    pub fn cancel(self) -> Core<D>
        ensures { result ≡ self.before }
    {
        let Planned {
            before: core,
            after: _,
            reply: _,
        } = self;
        core
    }

    /// The reply that `commit` gives. It takes no memory.
    pub fn reply(&self) -> &Reply
        ensures { result.now ≡ self.now.reply }
    {
        &self.reply
    }

    /// The board of the core after the event.
    pub fn board(&self) -> Result<Board, NoMemory>
        ensures waiting { IfOk result (λ board. ShowsWaiting self.now.after.state board) }
        ensures board { StatesEveryLayer D.tree → IfOk result (λ board. board ≡ board_of (trees_of D.tree) self.now.after.state) }
    {
        self.after.board()
    }
}
