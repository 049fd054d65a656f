ghost use Rattle.std.specs.Prelude.{◌≡◌, ◌≤◌, ℕ, List, [], ◌∷◌, length, IfOk, OnOk};
ghost use Rattle.cv_core_records.specs.declared.event.Act.TheVariants as name;
ghost use Rattle.cv_serve_legal.specs.Parts.{is_grant};
ghost use Rattle.cv_serve_lanes.specs.Core.{IsSound, act_of};
ghost use Rattle.cv_serve_lanes.specs.Counts.{failures};
ghost use Rattle.cv_serve_lanes.specs.code.Worker.{Claimed, HandDid, HasRoom, IsHandPrepared, Settled, WorkerDid};

use crate::index::index;
use cv_base::{Digest, NoMemory};
use cv_core::Event;
use cv_core_records::{By, Reply};
use cv_desk::Desk;
use cv_hub::{Hub, Identity, Seat};
use cv_pool::Hand;
use std::alloc::Global;
use std::sync::Wait;

/// A worker takes jobs until there are none: each is the place of a layer in the queue. It claims the layer, and if that is granted,
/// indexes it and says what became of it. Whatever comes, no count of its desk falls.
pub fn run_worker<D: Desk + Drop, L: Identity, W: Wait>(
    rt: &W,
    alloc: Global,
    hub: &Hub<D, L>,
    worker: u32,
    queue: &[Digest],
    hand: &mut Hand,
    seat: &mut Seat<D, L>,
    desk: &mut D,
) -> Result<(), NoMemory>
    requires hand { IsHandPrepared (length queue.now) hand.old }
    requires desk { HasRoom D.listings seat.old desk.old }
    ensures did { OnOk result (HandDid D.listings D.faults queue.now worker hand.old hand.new seat.old seat.new desk.old desk.new) }
    ensures listed { D.listings desk.old ≤ D.listings desk.new }
    ensures failed { failures D.faults desk.old ≤ failures D.faults desk.new }
{
    for _ in rt.forever() {
        let Some(job) = hand.next(rt) else {
            return Ok(());
        };
        let layer = queue[job as usize];
        run_job(rt, alloc, hub, worker, layer, seat, desk)?;
    }
    unreachable!()
}

/// A worker claims a layer, and if that is granted, indexes it and says what became of it. It says that its desk failed only if the
/// desk counted a failure in this very job. Whatever comes, no count of the desk falls.
fn run_job<D: Desk + Drop, L: Identity, W: Wait>(
    rt: &W,
    alloc: Global,
    hub: &Hub<D, L>,
    worker: u32,
    layer: Digest,
    seat: &mut Seat<D, L>,
    desk: &mut D,
) -> Result<(), NoMemory>
    requires desk { HasRoom D.listings seat.old desk.old }
    ensures did { OnOk result (WorkerDid worker (layer ∷ []) seat.old (D.listings desk.old) (D.faults desk.old) seat.new (D.listings desk.new) (D.faults desk.new)) }
    ensures room { OnOk result (HasRoom D.listings seat.new desk.new) }
    ensures listed { D.listings desk.old ≤ D.listings desk.new }
    ensures failed { failures D.faults desk.old ≤ failures D.faults desk.new }
{
    let granted = claim(rt, alloc, hub, worker, layer, seat)?;
    if !granted {
        return Ok(());
    }
    let event = index(alloc, desk, layer, worker);
    settle(rt, alloc, hub, worker, event, seat)
}

/// A worker claims a layer, and learns whether the claim is granted.
fn claim<D: Desk + Drop, L: Identity, W: Wait>(
    rt: &W,
    alloc: Global,
    hub: &Hub<D, L>,
    worker: u32,
    layer: Digest,
    seat: &mut Seat<D, L>,
) -> Result<bool, NoMemory>
    ensures claimed { IfOk result (λ granted. Claimed worker layer granted seat.old seat.new) }
{
    let claim = Event::Claim(layer, worker);
    let receipt = hub.submit(rt, alloc, seat, By::Worker(worker), claim)?;
    Ok(is_claimed(&receipt.reply))
}

/// A worker says what became of a layer that it claimed.
fn settle<D: Desk + Drop, L: Identity, W: Wait>(
    rt: &W,
    alloc: Global,
    hub: &Hub<D, L>,
    worker: u32,
    event: Event<D>,
    seat: &mut Seat<D, L>,
) -> Result<(), NoMemory>
    requires sound { IsSound (act_of event) }
    ensures settled { OnOk result (Settled worker (act_of event) seat.old seat.new) }
{
    hub.submit(rt, alloc, seat, By::Worker(worker), event)?;
    Ok(())
}

/// Whether a claim was granted.
fn is_claimed(reply: &Reply) -> bool
    ensures { (layer : List ℕ) → result ≡ is_grant (name.Claim layer) reply.now }
{
    matches!(reply, Reply::Claimed)
}
