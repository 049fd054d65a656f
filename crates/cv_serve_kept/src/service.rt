ghost use Rattle.std.specs.Prelude.{◌≡◌, ◌⊎◌, [], ◌+◌, ◌<◌, ◌≤◌, ◌^◌, drop, false, length, option_map, take, true, All};
ghost use Rattle.std.specs.List.{AllByRecursion};
ghost use Rattle.cv_seq.specs.Cause.{Rose};
ghost use Rattle.cv_core.specs.Core.{opened};
ghost use Rattle.cv_core_machine.specs.Scans.{StatesEveryLayer};
ghost use Rattle.cv_keep.specs.Journal.{Belongs};
ghost use Rattle.cv_keep.specs.Records.{records};
ghost use Rattle.cv_hub.specs.Seats.{AreFresh};
ghost use Rattle.cv_serve_round.specs.Round.{AreRoundSeats};
ghost use Rattle.cv_serve_kept.specs.Ends.{FirstRose, KeptEnds, ReadsInput, ReportsBadKeep};
ghost use Rattle.cv_serve_kept.specs.Start.{service_limits};
ghost use Rattle.cv_serve_kept.specs.code.Stops.{end_of};

use crate::end::KeptEnd;
use crate::rounds::serve_rounds;
use crate::start::resume;
use crate::stop::{Stop, end_of};
use cv_desk::Desk;
use cv_io::{Sink, Source};
use cv_keep::{Disk, Journal};
use cv_request::MAX_LANES;
use cv_serve::ServeEnd;
use cv_serve_round::{Blank, Core, Identity, Service, new_core, started};
use std::alloc::Global;
use std::marker::Brand;
use std::sync::Wait;
use std::thread::Threads;

/// Serves the requests of the input to its end, in rounds, after the events that the file of this disk keeps, and keeps each round. The
/// workers index layers: the first one with the first desk, and so on. The layers of the kept events are listed by the first desk. The
/// other desks are not used. It waits for its threads.
pub fn serve_kept<
    S: Source,
    K: Sink,
    J: Disk,
    D: Desk + Drop + Send + Sync,
    W: Threads + Wait + Sync,
>(
    rt: &W,
    alloc: Global,
    input: &mut S,
    output: &mut K,
    disk: &mut J,
    desks: &mut Vec<D>,
    workers: u32,
) -> KeptEnd
    requires at_least_one_worker { 1 ≤ workers }
    requires at_most_one_for_each_desk { workers ≤ length desks.old.items }
    requires at_most_8_desks { length desks.old.items ≤ 8 }
    requires room { All (λ desk. D.listings desk < 2 ^ 62) desks.old.items }
    ensures outcome { KeptEnds D.tree workers D.listings D.faults
        (record { remaining = S.remaining input.old; written = K.contents output.old; kept = option_map records (J.contents disk.old); desks = take workers desks.old.items })
        (record { remaining = S.remaining input.new; written = K.contents output.new; kept = option_map records (J.contents disk.new); desks = take workers desks.new.items })
        result }
    ensures reads { ReadsInput (S.remaining input.old) (S.remaining input.new) result }
    ensures others { drop workers desks.new.items ≡ drop workers desks.old.items }
    ensures count { length desks.new.items ≡ length desks.old.items }
    ensures read_fault { result ≡ KeptEnd.Served ServeEnd.ReadFault → Rose (S.faults input.old) (S.faults input.new) }
    ensures write_fault { result ≡ KeptEnd.Served ServeEnd.WriteFault → Rose (K.faults output.old) (K.faults output.new) }
    ensures keep_fault { result ≡ KeptEnd.KeepFault → Rose (J.faults disk.old) (J.faults disk.new) }
    ensures desk_fault { result ≡ KeptEnd.DeskFault → FirstRose D.faults (take workers desks.old.items) (take workers desks.new.items) }
    ensures bad_keep { StatesEveryLayer D.tree → ReportsBadKeep D.tree (option_map records (J.contents disk.old))
        (Rose (K.faults output.old) (K.faults output.new) ⊎ Rose (J.faults disk.old) (J.faults disk.new) ⊎ FirstRose D.faults (take workers desks.old.items) (take workers desks.new.items))
        (result ≡ KeptEnd.BadKeep) (result ≡ KeptEnd.Served ServeEnd.NoMemory) }
{
    let (mine, _others) = desks.as_mut_slice().split_at_mut(workers as usize);
    end_of(serve_over(rt, alloc, input, output, disk, mine))
}

/// Serves with one worker for each desk.
fn serve_over<S: Source, K: Sink, J: Disk, D: Desk + Drop + Send + Sync, W: Threads + Wait + Sync>(
    rt: &W,
    alloc: Global,
    input: &mut S,
    output: &mut K,
    disk: &mut J,
    desks: &mut [D],
) -> Result<ServeEnd, Stop>
    requires workers { (1 ≤ length desks.old) × (length desks.old ≤ 8) }
    requires room { AllByRecursion (λ desk. D.listings desk < 2 ^ 62) desks.old }
    ensures outcome { KeptEnds D.tree (length desks.old) D.listings D.faults
        (record { remaining = S.remaining input.old; written = K.contents output.old; kept = option_map records (J.contents disk.old); desks = desks.old })
        (record { remaining = S.remaining input.new; written = K.contents output.new; kept = option_map records (J.contents disk.new); desks = desks.new })
        (end_of result) }
    ensures reads { ReadsInput (S.remaining input.old) (S.remaining input.new) (end_of result) }
    ensures read_fault { end_of result ≡ KeptEnd.Served ServeEnd.ReadFault → Rose (S.faults input.old) (S.faults input.new) }
    ensures write_fault { end_of result ≡ KeptEnd.Served ServeEnd.WriteFault → Rose (K.faults output.old) (K.faults output.new) }
    ensures keep_fault { end_of result ≡ KeptEnd.KeepFault → Rose (J.faults disk.old) (J.faults disk.new) }
    ensures desk_fault { end_of result ≡ KeptEnd.DeskFault → FirstRose D.faults desks.old desks.new }
{
    let journal = Journal::open(disk)?;
    let core = new_core(alloc)?;
    let blank = Blank::new(u64::from(MAX_LANES) + desks.len() as u64);
    serve_with::<S, K, J, D, Brand, W>(rt, alloc, blank, core, journal, input, output, disk, desks)
}

/// Serves with a hub of its own.
fn serve_with<
    S: Source,
    K: Sink,
    J: Disk,
    D: Desk + Drop + Send + Sync,
    L: Identity + Send + Sync,
    W: Threads + Wait + Sync,
>(
    rt: &W,
    alloc: Global,
    blank: Blank,
    core: Core<D>,
    journal: Journal,
    input: &mut S,
    output: &mut K,
    disk: &mut J,
    desks: &mut [D],
) -> Result<ServeEnd, Stop>
    requires name { blank.name ≡ L.name }
    requires parts { (blank.parts ≡ L.parts) × (L.parts ≡ 8 + length desks.old) }
    requires book { blank.book ≡ L.book }
    requires limits { L.limits ≡ service_limits }
    requires core { core ≡ opened L.limits }
    requires sound { journal.failed ≡ false }
    requires belongs { Belongs J.contents J.moment J.may_leave journal disk.old }
    requires workers { (1 ≤ length desks.old) × (length desks.old ≤ 8) }
    requires room { AllByRecursion (λ desk. D.listings desk < 2 ^ 62) desks.old }
    ensures outcome { KeptEnds D.tree (length desks.old) D.listings D.faults
        (record { remaining = S.remaining input.old; written = K.contents output.old; kept = option_map records (J.contents disk.old); desks = desks.old })
        (record { remaining = S.remaining input.new; written = K.contents output.new; kept = option_map records (J.contents disk.new); desks = desks.new })
        (end_of result) }
    ensures reads { ReadsInput (S.remaining input.old) (S.remaining input.new) (end_of result) }
    ensures read_fault { end_of result ≡ KeptEnd.Served ServeEnd.ReadFault → Rose (S.faults input.old) (S.faults input.new) }
    ensures write_fault { end_of result ≡ KeptEnd.Served ServeEnd.WriteFault → Rose (K.faults output.old) (K.faults output.new) }
    ensures keep_fault { end_of result ≡ KeptEnd.KeepFault → Rose (J.faults disk.old) (J.faults disk.new) }
    ensures desk_fault { end_of result ≡ KeptEnd.DeskFault → FirstRose D.faults desks.old desks.new }
{
    let mut service = started::<D, L, W>(rt, alloc, blank, core, desks.len())?;
    let end = serve_by(rt, alloc, &mut service, journal, input, output, disk, desks);
    service.end(rt);
    end
}

/// Serves with a hub that has applied no event.
fn serve_by<
    S: Source,
    K: Sink,
    J: Disk,
    D: Desk + Drop + Send + Sync,
    L: Identity + Send + Sync,
    W: Threads + Wait + Sync,
>(
    rt: &W,
    alloc: Global,
    service: &mut Service<D, L>,
    journal: Journal,
    input: &mut S,
    output: &mut K,
    disk: &mut J,
    desks: &mut [D],
) -> Result<ServeEnd, Stop>
    requires limits { L.limits ≡ service_limits }
    requires hub { service.old.hub ≡ [] }
    requires seats { AreRoundSeats L.parts (length desks.old) [] service.old.seats.items }
    requires fresh { AreFresh 0 service.old.seats.items }
    requires sound { journal.failed ≡ false }
    requires belongs { Belongs J.contents J.moment J.may_leave journal disk.old }
    requires workers { (1 ≤ length desks.old) × (length desks.old ≤ 8) }
    requires room { AllByRecursion (λ desk. D.listings desk < 2 ^ 62) desks.old }
    ensures outcome { KeptEnds D.tree (length desks.old) D.listings D.faults
        (record { remaining = S.remaining input.old; written = K.contents output.old; kept = option_map records (J.contents disk.old); desks = desks.old })
        (record { remaining = S.remaining input.new; written = K.contents output.new; kept = option_map records (J.contents disk.new); desks = desks.new })
        (end_of result) }
    ensures reads { ReadsInput (S.remaining input.old) (S.remaining input.new) (end_of result) }
    ensures read_fault { end_of result ≡ KeptEnd.Served ServeEnd.ReadFault → Rose (S.faults input.old) (S.faults input.new) }
    ensures write_fault { end_of result ≡ KeptEnd.Served ServeEnd.WriteFault → Rose (K.faults output.old) (K.faults output.new) }
    ensures keep_fault { end_of result ≡ KeptEnd.KeepFault → Rose (J.faults disk.old) (J.faults disk.new) }
    ensures desk_fault { end_of result ≡ KeptEnd.DeskFault → FirstRose D.faults desks.old desks.new }
{
    resume(rt, alloc, service, &journal, output, disk, desks)?;
    serve_rounds(rt, alloc, service, journal, input, output, disk, desks)
}
