ghost use Rattle.std.specs.List.{AllByRecursion};
ghost use Rattle.std.specs.Prelude.{if◌then◌else◌, ◌+◌, ◌<◌, ◌^◌, ◌≡◌, [], IfErr, IfOk, List, OnErr, OnOk, length, map, string_bytes, true, ℕ};
ghost use Rattle.cv_base.specs.Texts.{is_cons, is_nil};
ghost use Rattle.cv_hub.specs.Events.{state_of};
ghost use Rattle.cv_io.specs.Fault.{is_write_fault};
ghost use Rattle.cv_serve_crew.specs.code.Team.{AreLater};
ghost use Rattle.cv_serve_legal.specs.Replay.{Moment};
ghost use Rattle.cv_serve_legal.specs.Rounds.{Cut, cut_line, end_round, round_limits};
ghost use Rattle.cv_serve_legal.specs.Served.{Served};
ghost use Rattle.cv_serve_legal.specs.ParsedLine.{IsTaken};
ghost use Rattle.cv_core_machine.specs.Layers.{queued};
ghost use Rattle.cv_core_machine.specs.Scans.{StatesEveryLayer, trees_of};
ghost use Rattle.cv_serve_round.specs.Round.{IsSoundTaken, failures, moment_of};
ghost use Rattle.cv_seq.specs.Cause.{CausedBy};
ghost use Rattle.cv_serve_round.specs.Begun.{IsPrepared, line_at, no_lines};
ghost use Rattle.cv_serve_legal.specs.Whole.{WholeRound};
ghost use Rattle.cv_serve_round.specs.Done.{FurtherDone, StopsAtEndDone, StopsDone, ToEndDone};
ghost use Rattle.cv_serve_round.specs.code.LineParts.{LastRun, LegalTexts, RoundRun, RoundStops};

use crate::begun::Round;
use crate::keeping::RoundKeeper;
use crate::print::{lines_of, write_lines};
use crate::start::Service;
use crate::whole::run_round;
use cv_base::NoMemory;
use cv_desk::Desk;
use cv_hub::{Hub, Identity};
use cv_io::{Sink, WriteError};
use cv_osv_text::read_request;
use cv_serve_legal::ParsedLine;
use cv_transcript::Entry;
use std::alloc::Global;
use std::sync::Wait;
use std::thread::Threads;

/// Takes a line of the input. An empty one ends the round that has begun; any other line is added to it. If it would make the
/// round too long, that round is run first; a full round is run at once.
pub fn take_line<
    K: Sink,
    P: RoundKeeper,
    D: Desk + Drop + Send + Sync,
    L: Identity + Send + Sync,
    W: Threads + Wait + Sync,
>(
    rt: &W,
    alloc: Global,
    service: &mut Service<D, L>,
    desks: &mut [D],
    output: &mut K,
    keeper: &mut P,
    disk: &mut P::Disk,
    round: &mut Round,
    number: u64,
    text: &[u8],
) -> Result<(), WriteError>
    requires prepared { IsPrepared D.listings L.parts service.old.hub service.old.seats.items desks.old }
    requires ready { P.is_ready (keeper.old, disk.old) }
    requires fits { length text.now < 2 ^ 32 }
    ensures further { (workers : ℕ) → length desks.old ≡ workers → (start : Moment) (cut : Cut) (last : ℕ) (earlier : List WholeRound) → number ≡ last + 1
        → P.notes round.old.noted cut.begun
        → Served (StatesEveryLayer D.tree) (trees_of D.tree) workers start cut last round.old.taken round.old.bytes earlier (moment_of (trees_of D.tree) L.limits service.old.hub)
        → OnOk result (FurtherDone (StatesEveryLayer D.tree) (trees_of D.tree) workers start D.listings D.faults (P.ends D.tree) (cut_line round_limits cut (line_at number text.now)) number round.new.taken round.new.bytes (P.notes round.new.noted) earlier (moment_of (trees_of D.tree) L.limits service.old.hub) (moment_of (trees_of D.tree) L.limits service.new.hub)
        desks.old desks.new ((keeper.old, disk.old), K.contents output.old) ((keeper.new, disk.new), K.contents output.new)) }
    ensures stops { (workers : ℕ) → length desks.old ≡ workers → (start : Moment) (cut : Cut) (last : ℕ) (earlier : List WholeRound) → number ≡ last + 1
        → P.notes round.old.noted cut.begun
        → Served (StatesEveryLayer D.tree) (trees_of D.tree) workers start cut last round.old.taken round.old.bytes earlier (moment_of (trees_of D.tree) L.limits service.old.hub)
        → IfErr result (λ error. StopsDone (StatesEveryLayer D.tree) (trees_of D.tree) workers D.listings D.faults (P.ends D.tree) (P.may_stop D.tree) (cut_line round_limits cut (line_at number text.now)).rounds earlier (moment_of (trees_of D.tree) L.limits service.old.hub)
        desks.old desks.new ((keeper.old, disk.old), K.contents output.old) ((keeper.new, disk.new), K.contents output.new) error) }
    ensures prepared { OnOk result (IsPrepared D.listings L.parts service.new.hub service.new.seats.items desks.new) }
    ensures ready { OnOk result (P.is_ready (keeper.new, disk.new)) }
    ensures cause { CausedBy (K.faults output.old) (K.faults output.new) (is_write_fault result) }
{
    if is_blank(text) {
        return write_round(rt, alloc, service, desks, output, keeper, disk, round);
    }
    let bytes = text.len();
    let long = round.is_too_long(bytes);
    end_if(rt, alloc, service, desks, output, keeper, disk, round, long)?;
    round.note(alloc, keeper, number, text)?;
    round.put(take(alloc, number, text), bytes)?;
    let full = round.is_full();
    end_if(rt, alloc, service, desks, output, keeper, disk, round, full)
}

/// Whether a line is empty.
fn is_blank(text: &[u8]) -> bool
    ensures { result ≡ is_nil text.now }
{
    text.is_empty()
}

/// What becomes of the line of this number.
fn take(alloc: Global, number: u64, text: &[u8]) -> ParsedLine
    ensures taken { IsTaken (line_at number text.now) result }
    ensures sound { IsSoundTaken result }
{
    ParsedLine {
        line: number,
        answer: read_request(alloc, text),
    }
}

/// Runs the round that has begun, if it ends here.
fn end_if<
    K: Sink,
    P: RoundKeeper,
    D: Desk + Drop + Send + Sync,
    L: Identity + Send + Sync,
    W: Threads + Wait + Sync,
>(
    rt: &W,
    alloc: Global,
    service: &mut Service<D, L>,
    desks: &mut [D],
    output: &mut K,
    keeper: &mut P,
    disk: &mut P::Disk,
    round: &mut Round,
    ends: bool,
) -> Result<(), WriteError>
    requires prepared { IsPrepared D.listings L.parts service.old.hub service.old.seats.items desks.old }
    requires ready { P.is_ready (keeper.old, disk.old) }
    ensures further { (workers : ℕ) → length desks.old ≡ workers → (start : Moment) (cut : Cut) (last : ℕ) (earlier : List WholeRound)
        → P.notes round.old.noted cut.begun
        → Served (StatesEveryLayer D.tree) (trees_of D.tree) workers start cut last round.old.taken round.old.bytes earlier (moment_of (trees_of D.tree) L.limits service.old.hub)
        → OnOk result (FurtherDone (StatesEveryLayer D.tree) (trees_of D.tree) workers start D.listings D.faults (P.ends D.tree) (if ends then end_round cut else cut) last round.new.taken round.new.bytes (P.notes round.new.noted) earlier (moment_of (trees_of D.tree) L.limits service.old.hub) (moment_of (trees_of D.tree) L.limits service.new.hub)
        desks.old desks.new ((keeper.old, disk.old), K.contents output.old) ((keeper.new, disk.new), K.contents output.new)) }
    ensures stops { (workers : ℕ) → length desks.old ≡ workers → (start : Moment) (cut : Cut) (last : ℕ) (earlier : List WholeRound)
        → P.notes round.old.noted cut.begun
        → Served (StatesEveryLayer D.tree) (trees_of D.tree) workers start cut last round.old.taken round.old.bytes earlier (moment_of (trees_of D.tree) L.limits service.old.hub)
        → IfErr result (λ error. StopsDone (StatesEveryLayer D.tree) (trees_of D.tree) workers D.listings D.faults (P.ends D.tree) (P.may_stop D.tree) (end_round cut).rounds earlier (moment_of (trees_of D.tree) L.limits service.old.hub)
        desks.old desks.new ((keeper.old, disk.old), K.contents output.old) ((keeper.new, disk.new), K.contents output.new) error) }
    ensures ended { OnErr result (ends ≡ true) }
    ensures begun { OnOk result (round.new ≡ (if ends then no_lines else round.old)) }
    ensures prepared { OnOk result (IsPrepared D.listings L.parts service.new.hub service.new.seats.items desks.new) }
    ensures ready { OnOk result (P.is_ready (keeper.new, disk.new)) }
    ensures cause { CausedBy (K.faults output.old) (K.faults output.new) (is_write_fault result) }
{
    if ends {
        return write_round(rt, alloc, service, desks, output, keeper, disk, round);
    }
    Ok(())
}

/// Runs the round that has begun, keeps it, writes its lines, and does what follows them. The next round has no lines yet.
fn write_round<
    K: Sink,
    P: RoundKeeper,
    D: Desk + Drop + Send + Sync,
    L: Identity + Send + Sync,
    W: Threads + Wait + Sync,
>(
    rt: &W,
    alloc: Global,
    service: &mut Service<D, L>,
    desks: &mut [D],
    output: &mut K,
    keeper: &mut P,
    disk: &mut P::Disk,
    round: &mut Round,
) -> Result<(), WriteError>
    requires prepared { IsPrepared D.listings L.parts service.old.hub service.old.seats.items desks.old }
    requires ready { P.is_ready (keeper.old, disk.old) }
    ensures ran { (workers : ℕ) → length desks.old ≡ workers
        → OnOk result (RoundRun (StatesEveryLayer D.tree) (trees_of D.tree) workers D.listings D.faults (P.notes round.old.noted) (P.ends D.tree) round.old.taken (moment_of (trees_of D.tree) L.limits service.old.hub) (moment_of (trees_of D.tree) L.limits service.new.hub)
        desks.old desks.new ((keeper.old, disk.old), K.contents output.old) ((keeper.new, disk.new), K.contents output.new)) }
    ensures stops { (workers : ℕ) → length desks.old ≡ workers
        → IfErr result (λ error. RoundStops (StatesEveryLayer D.tree) (trees_of D.tree) workers D.listings D.faults (P.notes round.old.noted) (P.may_stop D.tree) round.old.taken (moment_of (trees_of D.tree) L.limits service.old.hub)
        desks.old desks.new ((keeper.old, disk.old), K.contents output.old) ((keeper.new, disk.new), K.contents output.new) error) }
    ensures begins { round.new ≡ no_lines }
    ensures prepared { OnOk result (IsPrepared D.listings L.parts service.new.hub service.new.seats.items desks.new) }
    ensures ready { OnOk result (P.is_ready (keeper.new, disk.new)) }
    ensures cause { CausedBy (K.faults output.old) (K.faults output.new) (is_write_fault result) }
{
    let (taken, noted) = round.take_all(alloc);
    let (entries, lines) = round_lines(rt, alloc, service, desks, taken)?;
    keeper.keep(alloc, disk, noted.as_slice(), entries.as_slice())?;
    write_lines(output, lines.as_slice())?;
    keeper.end_round(rt, alloc, service, disk, output)
}

/// The entries of a round that is carried out, and their lines. No count of a desk falls, whatever comes.
fn round_lines<D: Desk + Drop + Send + Sync, L: Identity + Send + Sync, W: Threads + Wait + Sync>(
    rt: &W,
    alloc: Global,
    service: &mut Service<D, L>,
    desks: &mut [D],
    taken: Vec<ParsedLine>,
) -> Result<(Vec<Entry>, Vec<String>), NoMemory>
    requires sound { AllByRecursion IsSoundTaken taken.items }
    requires prepared { IsPrepared D.listings L.parts service.old.hub service.old.seats.items desks.old }
    ensures legal { (workers : ℕ) → length desks.old ≡ workers
        → IfOk result (λ ran. LegalTexts (StatesEveryLayer D.tree) (trees_of D.tree) workers D.listings D.faults taken.items (moment_of (trees_of D.tree) L.limits service.old.hub) desks.old ran.0.items (map (λ text. string_bytes text) ran.1.items)
        (moment_of (trees_of D.tree) L.limits service.new.hub) desks.new) }
    ensures listed { AreLater D.listings desks.old desks.new }
    ensures failed { AreLater (failures D.faults) desks.old desks.new }
    ensures prepared { OnOk result (IsPrepared D.listings L.parts service.new.hub service.new.seats.items desks.new) }
{
    let seats = service.seats.as_mut_slice();
    let entries = run_round(rt, alloc, &mut service.hub, seats, desks, taken)?;
    let lines = lines_of(alloc, entries.as_slice())?;
    Ok((entries, lines))
}

/// Ends the input. The round that has begun is run, if it has a line, and then one more without requests, if a layer is queued. After an
/// `Err` no further round is run.
pub fn end_input<
    K: Sink,
    P: RoundKeeper,
    D: Desk + Drop + Send + Sync,
    L: Identity + Send + Sync,
    W: Threads + Wait + Sync,
>(
    rt: &W,
    alloc: Global,
    service: &mut Service<D, L>,
    desks: &mut [D],
    output: &mut K,
    keeper: &mut P,
    disk: &mut P::Disk,
    mut round: Round,
) -> Result<(), WriteError>
    requires prepared { IsPrepared D.listings L.parts service.old.hub service.old.seats.items desks.old }
    requires ready { P.is_ready (keeper.old, disk.old) }
    ensures legal { (workers : ℕ) → length desks.old ≡ workers → (start : Moment) (cut : Cut) (last : ℕ) (earlier : List WholeRound)
        → P.notes round.noted cut.begun
        → Served (StatesEveryLayer D.tree) (trees_of D.tree) workers start cut last round.taken round.bytes earlier (moment_of (trees_of D.tree) L.limits service.old.hub)
        → OnOk result (ToEndDone (StatesEveryLayer D.tree) (trees_of D.tree) workers start D.listings D.faults (P.ends D.tree) cut earlier (moment_of (trees_of D.tree) L.limits service.old.hub) (moment_of (trees_of D.tree) L.limits service.new.hub)
        desks.old desks.new ((keeper.old, disk.old), K.contents output.old) ((keeper.new, disk.new), K.contents output.new)) }
    ensures stops { (workers : ℕ) → length desks.old ≡ workers → (start : Moment) (cut : Cut) (last : ℕ) (earlier : List WholeRound)
        → P.notes round.noted cut.begun
        → Served (StatesEveryLayer D.tree) (trees_of D.tree) workers start cut last round.taken round.bytes earlier (moment_of (trees_of D.tree) L.limits service.old.hub)
        → IfErr result (StopsAtEndDone (StatesEveryLayer D.tree) (trees_of D.tree) workers D.listings D.faults (P.ends D.tree) (P.may_stop D.tree) cut earlier (moment_of (trees_of D.tree) L.limits service.old.hub)
        desks.old desks.new ((keeper.old, disk.old), K.contents output.old) ((keeper.new, disk.new), K.contents output.new)) }
    ensures cause { CausedBy (K.faults output.old) (K.faults output.new) (is_write_fault result) }
{
    let begun = round.has_lines();
    end_if(
        rt, alloc, service, desks, output, keeper, disk, &mut round, begun,
    )?;
    end_queued(rt, alloc, service, desks, output, keeper, disk)
}

/// Runs one more round without requests, if a layer is queued.
fn end_queued<
    K: Sink,
    P: RoundKeeper,
    D: Desk + Drop + Send + Sync,
    L: Identity + Send + Sync,
    W: Threads + Wait + Sync,
>(
    rt: &W,
    alloc: Global,
    service: &mut Service<D, L>,
    desks: &mut [D],
    output: &mut K,
    keeper: &mut P,
    disk: &mut P::Disk,
) -> Result<(), WriteError>
    requires prepared { IsPrepared D.listings L.parts service.old.hub service.old.seats.items desks.old }
    requires ready { P.is_ready (keeper.old, disk.old) }
    ensures further { (workers : ℕ) → length desks.old ≡ workers
        → OnOk result (LastRun (StatesEveryLayer D.tree) (trees_of D.tree) workers D.listings D.faults (P.ends D.tree) (moment_of (trees_of D.tree) L.limits service.old.hub) (moment_of (trees_of D.tree) L.limits service.new.hub)
        desks.old desks.new ((keeper.old, disk.old), K.contents output.old) ((keeper.new, disk.new), K.contents output.new)) }
    ensures stops { (workers : ℕ) → length desks.old ≡ workers
        → IfErr result (λ error. RoundStops (StatesEveryLayer D.tree) (trees_of D.tree) workers D.listings D.faults (P.notes []) (P.may_stop D.tree) [] (moment_of (trees_of D.tree) L.limits service.old.hub)
        desks.old desks.new ((keeper.old, disk.old), K.contents output.old) ((keeper.new, disk.new), K.contents output.new) error) }
    ensures cause { CausedBy (K.faults output.old) (K.faults output.new) (is_write_fault result) }
{
    if !is_some_queued(rt, alloc, &service.hub)? {
        return Ok(());
    }
    let mut none = Round::new(alloc);
    write_round(rt, alloc, service, desks, output, keeper, disk, &mut none)
}

/// Whether a layer is queued.
fn is_some_queued<D: Desk + Drop, L: Identity, W: Wait>(
    rt: &W,
    alloc: Global,
    hub: &Hub<D, L>,
) -> Result<bool, NoMemory>
    ensures { StatesEveryLayer D.tree → IfOk result (λ found. found ≡ is_cons (queued (state_of (trees_of D.tree) L.limits hub.now).layers)) }
{
    let layers = hub.queued(rt, alloc)?;
    Ok(!layers.as_slice().is_empty())
}
