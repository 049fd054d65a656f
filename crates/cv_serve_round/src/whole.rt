ghost use Rattle.std.specs.Prelude.{ℕ, ◌+◌, ◌≤◌, ◌^◌, List, length, IfOk, OnOk};
ghost use Rattle.std.specs.List.{AllByRecursion, AllZip};
ghost use Rattle.cv_core_machine.specs.Scans.{StatesEveryLayer, trees_of};
ghost use Rattle.cv_base.specs.Lines.{Line};
ghost use Rattle.cv_serve_legal.specs.Round.{IsLegalRound};
ghost use Rattle.cv_serve_legal.specs.ParsedLine.{IsTaken};
ghost use Rattle.cv_serve_legal.specs.Served.{LinesAscend};
ghost use Rattle.cv_pool.specs.Hands.{IsNewFill};
ghost use Rattle.cv_serve_crew.specs.code.Team.{AreLater};
ghost use Rattle.cv_serve_dealing.specs.Sound.{IsSoundRequest, IsSoundTaken};
ghost use Rattle.cv_serve_round.specs.Round.{AreRoundSeats, DesksCounted, failures, moment_of};
ghost use Rattle.cv_serve_round.specs.code.Ran.{RoundRan};

use crate::round::run_all;
use cv_base::{Digest, NoMemory, Seq};
use cv_core_records::EventEntry;
use cv_desk::Desk;
use cv_pool::{Hand, fill, gather, hand_laws};
use cv_serve_dealing::{Lane, divide, joined, lanes_of, merge, reads_of};
use cv_serve_lanes::{Hub, Identity, Seat, refresh};
use cv_serve_legal::{ParsedLine, Requested};
use cv_transcript::Entry;
use std::alloc::Global;
use std::sync::Wait;
use std::thread::Threads;

/// Runs a round: the lanes concurrently, each with its requests in order, and with them the workers, each with a desk of its
/// own, which index the layers that were queued as the round began. The entries are those of the refused lines, and then the events and
/// the reads in the transcript's order. If memory runs out, a part of the round may be carried out, and no further round may be run. No
/// count of a desk falls, whatever comes.
#[tactic(auto, using(cv_serve_crew::proofs::Later::later_same))]
pub fn run_round<D: Desk + Drop + Send + Sync, L: Identity + Send + Sync, W: Threads + Wait + Sync>(
    rt: &W,
    alloc: Global,
    hub: &mut Hub<D, L>,
    seats: &mut [Seat<D, L>],
    desks: &mut [D],
    taken: Vec<ParsedLine>,
) -> Result<Vec<Entry>, NoMemory>
    requires workers { (1 ≤ length desks.old) × (length desks.old ≤ 8) }
    requires seats { AreRoundSeats L.parts (length desks.old) hub.old seats.old }
    requires sound { AllByRecursion IsSoundTaken taken.items }
    requires room { AllByRecursion (λ desk. D.listings desk ≤ 2 ^ 62 + length hub.old) desks.old }
    ensures legal { StatesEveryLayer D.tree → (lines : List Line) (last : ℕ) → AllZip IsTaken lines taken.items → LinesAscend lines last
        → IfOk result (λ entries. IsLegalRound (trees_of D.tree) (length desks.old) (moment_of (trees_of D.tree) L.limits hub.old) lines entries.items (moment_of (trees_of D.tree) L.limits hub.new)) }
    ensures desks { IfOk result (λ entries. DesksCounted D.listings D.faults 0 desks.old desks.new entries.items) }
    ensures seats { OnOk result (AreRoundSeats L.parts (length desks.new) hub.new seats.new) }
    ensures room { OnOk result (AllByRecursion (λ desk. D.listings desk ≤ 2 ^ 62 + length hub.new) desks.new) }
    ensures listed { AreLater D.listings desks.old desks.new }
    ensures failed { AreLater (failures D.faults) desks.old desks.new }
{
    let queue = hub.queued(rt, alloc)?;
    let (refused, requested) = divide(alloc, taken)?;
    let (events, lanes) = run_parts(rt, alloc, hub, queue.as_slice(), requested, seats, desks)?;
    let reads = reads_of(alloc, lanes)?;
    let others = merge(alloc, Seq::of(events), reads)?;
    joined(refused, others.into_vec())
}

/// Runs the lanes of some requests beside the workers, and takes the events.
#[tactic(auto, using(cv_serve_crew::proofs::Later::later_same))]
fn run_parts<D: Desk + Drop + Send + Sync, L: Identity + Send + Sync, W: Threads + Wait + Sync>(
    rt: &W,
    alloc: Global,
    hub: &mut Hub<D, L>,
    queue: &[Digest],
    requested: Vec<Requested>,
    seats: &mut [Seat<D, L>],
    desks: &mut [D],
) -> Result<(Vec<EventEntry>, Vec<Lane>), NoMemory>
    requires workers { (1 ≤ length desks.old) × (length desks.old ≤ 8) }
    requires seats { AreRoundSeats L.parts (length desks.old) hub.old seats.old }
    requires sound { AllByRecursion IsSoundRequest requested.items }
    requires room { AllByRecursion (λ desk. D.listings desk ≤ 2 ^ 62 + length hub.old) desks.old }
    ensures ran { IfOk result (λ ran. RoundRan D.tree L.limits D.listings D.faults hub.old hub.new requested.items queue.now desks.old desks.new ran.0.items ran.1.items) }
    ensures seats { OnOk result (AreRoundSeats L.parts (length desks.new) hub.new seats.new) }
    ensures room { OnOk result (AllByRecursion (λ desk. D.listings desk ≤ 2 ^ 62 + length hub.new) desks.new) }
    ensures listed { AreLater D.listings desks.old desks.new }
    ensures failed { AreLater (failures D.faults) desks.old desks.new }
{
    let mut lanes = lanes_of(alloc, requested)?;
    let mut hands = hands_of(alloc, queue.len(), desks.len())?;
    refresh(rt, hub, seats);
    run_all(
        rt,
        alloc,
        hub,
        queue,
        lanes.as_mut_slice(),
        hands.as_mut_slice(),
        seats,
        desks,
    )?;
    hand_laws();
    let _took = gather(hands);
    let events = hub.take_events(rt, seats);
    Ok((events, lanes))
}

/// A hand of each worker, for this number of jobs.
fn hands_of(alloc: Global, jobs: usize, workers: usize) -> Result<Vec<Hand>, NoMemory>
    requires { (1 ≤ workers) × (workers ≤ 8) }
    ensures { IfOk result (λ hands. IsNewFill jobs workers hands.items) }
{
    let Ok(jobs) = u32::try_from(jobs) else {
        return Err(NoMemory);
    };
    fill(alloc, jobs, workers as u32)
}
