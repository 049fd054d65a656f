ghost use Rattle.std.specs.Prelude.{◌≡◌, ◌+◌, ◌<◌, ◌^◌};
ghost use Rattle.cv_core_machine.specs.History.{act_name};
ghost use Rattle.cv_serve_lanes.specs.Core.{act_of};
ghost use Rattle.cv_serve_lanes.specs.Counts.{RoseBy};
ghost use Rattle.cv_serve_lanes.specs.code.Worker.{EndsWork, fault_of};

use cv_base::Digest;
use cv_core::Event;
use cv_desk::Desk;
use cv_facts::{IndexError, index_layer};
use std::alloc::Global;

/// Indexes a layer that a worker claimed, and gives the event that says what became of it.
pub fn index<D: Desk>(alloc: Global, desk: &mut D, layer: Digest, worker: u32) -> Event<D>
    requires room { D.listings desk.old < 2 ^ 63 + 2 ^ 62 }
    ensures ends { EndsWork worker layer (act_of result) }
    ensures listed { D.listings desk.new ≡ D.listings desk.old + 1 }
    ensures failed { RoseBy (fault_of (act_name (act_of result))) (D.faults desk.old) (D.faults desk.new) }
{
    match index_layer(alloc, desk, layer) {
        Ok(facts) => Event::Indexed(facts, worker),
        Err(IndexError::DeskFault) => Event::Fault(layer, worker),
        Err(IndexError::NoMemory) => Event::Memory(layer, worker),
    }
}
