ghost use Rattle.std.specs.Prelude.{◌≡◌, ◌+◌, ◌^◌, ◌<◌, false, IfErr, IfOk};
ghost use Rattle.cv_core_machine.specs.Scans.{StatesEveryLayer, trees_of};
ghost use Rattle.cv_core_machine.specs.Step.{step};
ghost use Rattle.cv_core.specs.Core.{IsSound, act_of, counted};
ghost use Rattle.cv_core.specs.Planned.{plan_of};
ghost use Rattle.cv_hub.specs.code.Locked.{IsEventPrepared};

use cv_base::{NoMemory, Steps};
use cv_core::{Board, Core, Event, Planned};
use cv_core_records::{Act, Reply};
use cv_desk::Desk;
use std::alloc::Global;
use std::marker::Brand;
use std::snapshot::Snapshot;
use std::sync::ledger::{Blank, Ledger};

/// An event that took all the memory that its submission needs.
#[derive(Drop)]
pub struct PreparedEvent<D: Desk> {
    pub planned: Planned<D>,
    pub board: Board,
    pub event: Snapshot<Event<D>>,
    pub name: Act,
    pub reply: Reply,
}

impl<D: Desk + Drop> PreparedEvent<D> {
    /// Plans an event for a core. If memory runs out, the event is consumed and the core comes back as it was.
    pub fn of(
        alloc: Global,
        core: Core<D>,
        event: Event<D>,
    ) -> Result<PreparedEvent<D>, (Core<D>, NoMemory)>
        requires room { core.count < 2 ^ 63 }
        requires sound { IsSound (act_of event) }
        ensures prepared { IfOk result (λ prepared. IsEventPrepared D.tree core (act_of event) prepared.planned prepared.board prepared.name prepared.reply) }
        ensures event { IfOk result (λ prepared. prepared.event.value ≡ event) }
        ensures err { IfErr result (λ refused. refused.0 ≡ core) }
    {
        let Ok(name) = event.name() else {
            return Err((core, NoMemory));
        };
        let snapshot = Snapshot::of(&event);
        let planned = plan_counted::<D, Brand>(alloc, Blank::new(1), core, event)?;
        let Ok(board) = planned.board() else {
            return Err((planned.cancel(), NoMemory));
        };
        let Ok(reply) = planned.reply().clone() else {
            return Err((planned.cancel(), NoMemory));
        };
        Ok(PreparedEvent {
            planned,
            board,
            event: snapshot,
            name,
            reply,
        })
    }
}

/// Plans an event with a count of steps of its own.
fn plan_counted<D: Desk + Drop, S: Ledger>(
    alloc: Global,
    blank: Blank,
    core: Core<D>,
    event: Event<D>,
) -> Result<Planned<D>, (Core<D>, NoMemory)>
    requires name { blank.name ≡ S.name }
    requires parts { blank.parts ≡ S.parts }
    requires has_parts { 0 < S.parts }
    requires room { core.count < 2 ^ 63 }
    requires sound { IsSound (act_of event) }
    ensures stepped { StatesEveryLayer D.tree → IfOk result (λ planned. planned ≡ plan_of core (counted core (step (trees_of D.tree) core.state (act_of event)))) }
    ensures count { IfOk result (λ planned. planned.after.count ≡ core.count + 1) }
    ensures before { IfOk result (λ planned. planned.before ≡ core) }
    ensures err { IfErr result (λ refused. refused.0 ≡ core) }
{
    let mut steps = Steps::<S>::open(blank);
    core.plan(alloc, event, &mut steps)
}
