ghost use Rattle.std.specs.Prelude.{◌≡◌, ℕ, List, [], ◌+◌, ◌<◌, ◌≤◌, ◌^◌, drop, false, length, take, All, IfSome, IsErrOf, OnOk};
ghost use Rattle.std.specs.Io.KnownBytes.{IsAtEnd};
ghost use Rattle.std.specs.List.{AllByRecursion};
ghost use Rattle.cv_seq.specs.Cause.{CausedBy, Rose};
ghost use Rattle.cv_core_machine.specs.Scans.{StatesEveryLayer, trees_of};
ghost use Rattle.cv_core_machine.specs.declared.limits.TheConstants.{MAX_FEEDS, MAX_IMAGES};
ghost use Rattle.cv_io.specs.Reader.{reading, room_of};
ghost use Rattle.cv_io.specs.declared.line.LineError.TheVariants as line;
ghost use Rattle.cv_scan_input.specs.Taken.{IsTaken, IsTakenWithin};
ghost use Rattle.cv_scan_input.specs.code.TakenParts.{IsTakenFrom, IsTakenTo};
ghost use Rattle.cv_serve_legal.specs.Replay.{Moment};
ghost use Rattle.cv_serve_round.specs.Core.{opened};
ghost use Rattle.cv_serve_round.specs.Round.{moment_of};
ghost use Rattle.cv_serve.specs.code.Ends.{end_of, is_read_stop, is_write_stop};
ghost use Rattle.cv_serve.specs.Served.{FitsInput, IsServed, TakesUpTo, Wrote};
ghost use Rattle.cv_serve.specs.Done.{IsServedDone, WroteDone};
ghost use Rattle.cv_serve_round.specs.Begun.{IsPrepared};
ghost use Rattle.cv_serve.specs.code.Reading.{Done, HasReadAll, StopsLines};
ghost use Rattle.cv_serve.specs.declared.end.Stop.TheVariants as stop;

use crate::end::{ServeEnd, Stop, end_of};
use cv_desk::Desk;
use cv_io::{Line, LineReader, Sink, Source};
use cv_request::MAX_LANES;
use cv_scan_input::{MAX_INPUT, MAX_LINE};
use cv_serve_dealing::KeepNothing;
use cv_serve_legal::completeness_laws;
use cv_serve_round::{
    Blank, Core, Identity, Round, RoundKeeper, Service, end_input, new_core, started, take_line,
};
use std::alloc::Global;
use std::marker::Brand;
use std::sync::Wait;
use std::thread::Threads;

/// Serves the requests of the input to its end, in rounds, and writes the transcript. The workers index layers: the first one with the
/// first desk, and so on. The other desks are not used. It waits for its threads.
pub fn serve<S: Source, K: Sink, D: Desk + Drop + Send + Sync, W: Threads + Wait + Sync>(
    rt: &W,
    alloc: Global,
    input: &mut S,
    output: &mut K,
    desks: &mut Vec<D>,
    workers: u32,
) -> ServeEnd
    requires at_least_one_worker { 1 ≤ workers }
    requires at_most_one_for_each_desk { workers ≤ length desks.old.items }
    requires at_most_8_desks { length desks.old.items ≤ 8 }
    requires room { All (λ desk. D.listings desk < 2 ^ 62) desks.old.items }
    ensures done { StatesEveryLayer D.tree → result ≡ ServeEnd.Done → IfSome (S.remaining input.old) (λ bytes.
        IsServed (trees_of D.tree) workers D.listings D.faults bytes (K.contents output.old) (K.contents output.new) (take workers desks.old.items) (take workers desks.new.items)) }
    ensures ended { result ≡ ServeEnd.Done → IsAtEnd (S.remaining input.new) }
    ensures input { FitsInput (S.remaining input.old) result }
    ensures front { TakesUpTo (S.remaining input.old) (S.remaining input.new) result }
    ensures wrote { Wrote (StatesEveryLayer D.tree) (trees_of D.tree) workers D.listings D.faults (S.remaining input.old) (S.remaining input.new)
        (K.contents output.old) (K.contents output.new) (take workers desks.old.items) (take workers desks.new.items) result }
    ensures limit { IsTakenWithin (2 ^ 36) (S.remaining input.old) (S.remaining input.new) }
    ensures taken { result ≡ ServeEnd.InputTooLong → IsTaken (2 ^ 36) (S.remaining input.old) (S.remaining input.new) }
    ensures others { drop workers desks.new.items ≡ drop workers desks.old.items }
    ensures count { length desks.new.items ≡ length desks.old.items }
    ensures read_fault { result ≡ ServeEnd.ReadFault → Rose (S.faults input.old) (S.faults input.new) }
    ensures write_fault { result ≡ ServeEnd.WriteFault → Rose (K.faults output.old) (K.faults output.new) }
{
    let (mine, _others) = desks.as_mut_slice().split_at_mut(workers as usize);
    end_of(serve_over(rt, alloc, input, output, mine))
}

/// Serves with one worker for each desk.
fn serve_over<S: Source, K: Sink, D: Desk + Drop + Send + Sync, W: Threads + Wait + Sync>(
    rt: &W,
    alloc: Global,
    input: &mut S,
    output: &mut K,
    desks: &mut [D],
) -> Result<(), Stop>
    requires workers { (1 ≤ length desks.old) × (length desks.old ≤ 8) }
    requires room { AllByRecursion (λ desk. D.listings desk ≤ 2 ^ 62) desks.old }
    ensures done { StatesEveryLayer D.tree → OnOk result (IfSome (S.remaining input.old) (λ bytes.
        IsServed (trees_of D.tree) (length desks.old) D.listings D.faults bytes (K.contents output.old) (K.contents output.new) desks.old desks.new)) }
    ensures ended { OnOk result (IsAtEnd (S.remaining input.new)) }
    ensures input { FitsInput (S.remaining input.old) (end_of result) }
    ensures front { TakesUpTo (S.remaining input.old) (S.remaining input.new) (end_of result) }
    ensures wrote { Wrote (StatesEveryLayer D.tree) (trees_of D.tree) (length desks.old) D.listings D.faults (S.remaining input.old) (S.remaining input.new)
        (K.contents output.old) (K.contents output.new) desks.old desks.new (end_of result) }
    ensures limit { IsTakenWithin (2 ^ 36) (S.remaining input.old) (S.remaining input.new) }
    ensures taken { IsErrOf result (stop.Input line.InputTooLong) → IsTaken (2 ^ 36) (S.remaining input.old) (S.remaining input.new) }
    ensures read_cause { CausedBy (S.faults input.old) (S.faults input.new) (is_read_stop result) }
    ensures write_cause { CausedBy (K.faults output.old) (K.faults output.new) (is_write_stop result) }
{
    let core = new_core(alloc)?;
    let blank = Blank::new(u64::from(MAX_LANES) + desks.len() as u64);
    serve_with::<S, K, D, Brand, W>(rt, alloc, blank, core, input, output, desks)
}

/// Serves with a hub of its own.
fn serve_with<
    S: Source,
    K: Sink,
    D: Desk + Drop + Send + Sync,
    L: Identity + Send + Sync,
    W: Threads + Wait + Sync,
>(
    rt: &W,
    alloc: Global,
    blank: Blank,
    core: Core<D>,
    input: &mut S,
    output: &mut K,
    desks: &mut [D],
) -> Result<(), Stop>
    requires name { blank.name ≡ L.name }
    requires parts { (blank.parts ≡ L.parts) × (L.parts ≡ 8 + length desks.old) }
    requires book { blank.book ≡ L.book }
    requires limits { L.limits ≡ record { images = MAX_IMAGES; feeds = MAX_FEEDS } }
    requires core { core ≡ opened L.limits }
    requires workers { (1 ≤ length desks.old) × (length desks.old ≤ 8) }
    requires room { AllByRecursion (λ desk. D.listings desk ≤ 2 ^ 62) desks.old }
    ensures done { StatesEveryLayer D.tree → OnOk result (IfSome (S.remaining input.old) (λ bytes.
        IsServed (trees_of D.tree) (length desks.old) D.listings D.faults bytes (K.contents output.old) (K.contents output.new) desks.old desks.new)) }
    ensures ended { OnOk result (IsAtEnd (S.remaining input.new)) }
    ensures input { FitsInput (S.remaining input.old) (end_of result) }
    ensures front { TakesUpTo (S.remaining input.old) (S.remaining input.new) (end_of result) }
    ensures wrote { Wrote (StatesEveryLayer D.tree) (trees_of D.tree) (length desks.old) D.listings D.faults (S.remaining input.old) (S.remaining input.new)
        (K.contents output.old) (K.contents output.new) desks.old desks.new (end_of result) }
    ensures limit { IsTakenWithin (2 ^ 36) (S.remaining input.old) (S.remaining input.new) }
    ensures taken { IsErrOf result (stop.Input line.InputTooLong) → IsTaken (2 ^ 36) (S.remaining input.old) (S.remaining input.new) }
    ensures read_cause { CausedBy (S.faults input.old) (S.faults input.new) (is_read_stop result) }
    ensures write_cause { CausedBy (K.faults output.old) (K.faults output.new) (is_write_stop result) }
{
    completeness_laws();
    let mut service = started::<D, L, W>(rt, alloc, blank, core, desks.len())?;
    let end = serve_by(
        rt,
        alloc,
        &mut service,
        desks,
        input,
        output,
        &mut KeepNothing,
        &mut (),
    );
    service.end(rt);
    end
}

/// Serves with a hub that has applied some events, keeps each round before its lines are written, and does what follows them. Each
/// desk has a worker. It waits for its threads.
pub fn serve_from<
    S: Source,
    K: Sink,
    P: RoundKeeper,
    D: Desk + Drop + Send + Sync,
    L: Identity + Send + Sync,
    W: Threads + Wait + Sync,
>(
    rt: &W,
    alloc: Global,
    service: &mut Service<D, L>,
    desks: &mut [D],
    input: &mut S,
    output: &mut K,
    keeper: &mut P,
    disk: &mut P::Disk,
) -> ServeEnd
    requires prepared { IsPrepared D.listings L.parts service.old.hub service.old.seats.items desks.old }
    requires ready { P.is_ready (keeper.old, disk.old) }
    ensures done { StatesEveryLayer D.tree → (start : Moment) → moment_of (trees_of D.tree) L.limits service.old.hub ≡ start → result ≡ ServeEnd.Done → IfSome (S.remaining input.old) (λ bytes.
        IsServedDone (StatesEveryLayer D.tree) (trees_of D.tree) (length desks.old) start D.listings D.faults (P.ends D.tree) bytes
        desks.old desks.new ((keeper.old, disk.old), K.contents output.old) ((keeper.new, disk.new), K.contents output.new)) }
    ensures ended { result ≡ ServeEnd.Done → IsAtEnd (S.remaining input.new) }
    ensures input { FitsInput (S.remaining input.old) result }
    ensures front { TakesUpTo (S.remaining input.old) (S.remaining input.new) result }
    ensures wrote { (start : Moment) → moment_of (trees_of D.tree) L.limits service.old.hub ≡ start
        → WroteDone (StatesEveryLayer D.tree) (trees_of D.tree) (length desks.old) start D.listings D.faults (P.ends D.tree) (P.may_stop D.tree) (S.remaining input.old) (S.remaining input.new)
        desks.old desks.new ((keeper.old, disk.old), K.contents output.old) ((keeper.new, disk.new), K.contents output.new) result }
    ensures limit { IsTakenWithin (2 ^ 36) (S.remaining input.old) (S.remaining input.new) }
    ensures taken { result ≡ ServeEnd.InputTooLong → IsTaken (2 ^ 36) (S.remaining input.old) (S.remaining input.new) }
    ensures read_fault { result ≡ ServeEnd.ReadFault → Rose (S.faults input.old) (S.faults input.new) }
    ensures write_fault { result ≡ ServeEnd.WriteFault → Rose (K.faults output.old) (K.faults output.new) }
{
    end_of(serve_by(rt, alloc, service, desks, input, output, keeper, disk))
}

/// Serves with a hub that has applied some events.
fn serve_by<
    S: Source,
    K: Sink,
    P: RoundKeeper,
    D: Desk + Drop + Send + Sync,
    L: Identity + Send + Sync,
    W: Threads + Wait + Sync,
>(
    rt: &W,
    alloc: Global,
    service: &mut Service<D, L>,
    desks: &mut [D],
    input: &mut S,
    output: &mut K,
    keeper: &mut P,
    disk: &mut P::Disk,
) -> Result<(), Stop>
    requires prepared { IsPrepared D.listings L.parts service.old.hub service.old.seats.items desks.old }
    requires ready { P.is_ready (keeper.old, disk.old) }
    ensures done { StatesEveryLayer D.tree → (start : Moment) → moment_of (trees_of D.tree) L.limits service.old.hub ≡ start → OnOk result (IfSome (S.remaining input.old) (λ bytes.
        IsServedDone (StatesEveryLayer D.tree) (trees_of D.tree) (length desks.old) start D.listings D.faults (P.ends D.tree) bytes
        desks.old desks.new ((keeper.old, disk.old), K.contents output.old) ((keeper.new, disk.new), K.contents output.new))) }
    ensures ended { OnOk result (IsAtEnd (S.remaining input.new)) }
    ensures input { FitsInput (S.remaining input.old) (end_of result) }
    ensures front { TakesUpTo (S.remaining input.old) (S.remaining input.new) (end_of result) }
    ensures wrote { (start : Moment) → moment_of (trees_of D.tree) L.limits service.old.hub ≡ start
        → WroteDone (StatesEveryLayer D.tree) (trees_of D.tree) (length desks.old) start D.listings D.faults (P.ends D.tree) (P.may_stop D.tree) (S.remaining input.old) (S.remaining input.new)
        desks.old desks.new ((keeper.old, disk.old), K.contents output.old) ((keeper.new, disk.new), K.contents output.new) (end_of result) }
    ensures limit { IsTakenWithin (2 ^ 36) (S.remaining input.old) (S.remaining input.new) }
    ensures taken { IsErrOf result (stop.Input line.InputTooLong) → IsTaken (2 ^ 36) (S.remaining input.old) (S.remaining input.new) }
    ensures read_cause { CausedBy (S.faults input.old) (S.faults input.new) (is_read_stop result) }
    ensures write_cause { CausedBy (K.faults output.old) (K.faults output.new) (is_write_stop result) }
{
    let mut reader = LineReader::new(alloc, MAX_LINE, MAX_INPUT)?;
    let mut round = Round::new(alloc);
    let lines = &mut reader;
    read_lines(
        rt, alloc, service, desks, input, output, keeper, disk, lines, &mut round,
    )?;
    Ok(end_input(rt, alloc, service, desks, output, keeper, disk, round)?)
}

/// Reads all lines, and runs each round that ends before the end of the input.
fn read_lines<
    S: Source,
    K: Sink,
    P: RoundKeeper,
    D: Desk + Drop + Send + Sync,
    L: Identity + Send + Sync,
    W: Threads + Wait + Sync,
>(
    rt: &W,
    alloc: Global,
    service: &mut Service<D, L>,
    desks: &mut [D],
    input: &mut S,
    output: &mut K,
    keeper: &mut P,
    disk: &mut P::Disk,
    reader: &mut LineReader,
    round: &mut Round,
) -> Result<(), Stop>
    requires not_spent { reader.old.spent ≡ false }
    requires begins { reader.old.ended ≡ false }
    requires input { room_of reader.old ≤ 2 ^ 36 }
    requires limits { (reader.old.max_line ≡ 67108864) × (reader.old.max_input ≡ 2 ^ 36) }
    requires fresh { (reader.old.held ≡ []) × (reader.old.taken ≡ 0) }
    requires prepared { IsPrepared D.listings L.parts service.old.hub service.old.seats.items desks.old }
    requires ready { P.is_ready (keeper.old, disk.old) }
    ensures lines { OnOk result ((texts : List (List ℕ)) × HasReadAll (reading reader.old (S.remaining input.old)) texts
        × ((workers : ℕ) → length desks.old ≡ workers → (start : Moment)
        → Done (StatesEveryLayer D.tree) (trees_of D.tree) workers start D.listings D.faults (P.ends D.tree) [] round.old.taken round.old.bytes (P.notes round.old.noted) (moment_of (trees_of D.tree) L.limits service.old.hub) desks.old desks.old ((keeper.old, disk.old), K.contents output.old) ((keeper.old, disk.old), K.contents output.old)
        → Done (StatesEveryLayer D.tree) (trees_of D.tree) workers start D.listings D.faults (P.ends D.tree) texts round.new.taken round.new.bytes (P.notes round.new.noted) (moment_of (trees_of D.tree) L.limits service.new.hub) desks.old desks.new ((keeper.old, disk.old), K.contents output.old) ((keeper.new, disk.new), K.contents output.new))) }
    ensures stops { IfSome (reading reader.old (S.remaining input.old)) (λ whole. StopsLines whole.stop result) }
    ensures front { TakesUpTo (S.remaining input.old) (S.remaining input.new) (end_of result) }
    ensures wrote { (workers : ℕ) → length desks.old ≡ workers → (start : Moment)
        → Done (StatesEveryLayer D.tree) (trees_of D.tree) workers start D.listings D.faults (P.ends D.tree) [] round.old.taken round.old.bytes (P.notes round.old.noted) (moment_of (trees_of D.tree) L.limits service.old.hub) desks.old desks.old ((keeper.old, disk.old), K.contents output.old) ((keeper.old, disk.old), K.contents output.old)
        → WroteDone (StatesEveryLayer D.tree) (trees_of D.tree) workers start D.listings D.faults (P.ends D.tree) (P.may_stop D.tree) (S.remaining input.old) (S.remaining input.new)
        desks.old desks.new ((keeper.old, disk.old), K.contents output.old) ((keeper.new, disk.new), K.contents output.new) (end_of result) }
    ensures limit { IsTakenFrom reader.old.taken (S.remaining input.old) (S.remaining input.new) }
    ensures taken { IsErrOf result (stop.Input line.InputTooLong) → IsTakenTo reader.old.taken (2 ^ 36) (S.remaining input.old) (S.remaining input.new) }
    ensures ended { OnOk result (IsAtEnd (S.remaining input.new)) }
    ensures prepared { OnOk result (IsPrepared D.listings L.parts service.new.hub service.new.seats.items desks.new) }
    ensures ready { OnOk result (P.is_ready (keeper.new, disk.new)) }
    ensures read_cause { CausedBy (S.faults input.old) (S.faults input.new) (is_read_stop result) }
    ensures write_cause { CausedBy (K.faults output.old) (K.faults output.new) (is_write_stop result) }
{
    let mut number: u64 = 0;
    while let Line::Text(text) = reader.next(alloc, input)? {
        number += 1;
        take_line(
            rt,
            alloc,
            service,
            desks,
            output,
            keeper,
            disk,
            round,
            number,
            text.as_slice(),
        )?;
    }
    Ok(())
}
