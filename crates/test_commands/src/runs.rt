ghost use Rattle.std.specs.Prelude.{◌<◌, ◌≤◌, ◌^◌, length, All};

use crate::compare::is_ended;
use crate::layers::Layers;
use crate::streams::{CALM, Outside, arguments_of, listed, sink_of, source_of};
use cv_base::NoMemory;
use cv_desk::{Desk, TableDesk};
use cv_desk_drill::HostileDesk;
use cv_desk_wrappers::{Faulty, GateDesk};
use cv_hook::MemHook;
use cv_io::MemSink;
use cv_keep::MemDisk;
use cv_run::{Status, run, run_all, run_kept};
use std::alloc::Global;
use std::sync::Wait;
use std::thread::Threads;

/// Runs the program over one desk. Whether it ends so and prints this text, in which names in brackets stand for texts.
pub fn runs_to<R: Threads + Wait + Sync>(
    rt: &R,
    alloc: Global,
    arguments: &[&str],
    input: &str,
    outside: &Outside,
    (status, text): (Status, &str),
) -> Result<bool, NoMemory> {
    let ended = run_once(rt, alloc, arguments, input, outside)?;
    is_ended(alloc, &ended, status, text)
}

/// Runs the program over two desks, each of which waits at each listing until this number of them has begun. Returns how it ended, what
/// it printed, and whether each desk listed a layer and saw that number.
pub fn run_by_two<R: Threads + Wait + Sync>(
    rt: &R,
    alloc: Global,
    arguments: &[&str],
    input: &str,
    goal: u64,
) -> Result<((Status, MemSink), bool), NoMemory> {
    let (first, second) = GateDesk::pair(
        alloc,
        TableDesk::<Layers>::new(),
        TableDesk::<Layers>::new(),
        goal,
        goal,
    )?;
    let mut desks = vec![in alloc; first, second]?;
    let ended = run_over(rt, alloc, arguments, input, &CALM, &mut desks, None)?;
    Ok((ended, desks.iter().all(GateDesk::passed)))
}

/// Runs the program over the desk of hostile sizes. Whether it ends so and prints this text, in which names in brackets stand for texts.
pub fn hostile_runs_to<R: Threads + Wait + Sync>(
    rt: &R,
    alloc: Global,
    arguments: &[&str],
    input: &str,
    (status, text): (Status, &str),
) -> Result<bool, NoMemory> {
    let mut desks = vec![in alloc; HostileDesk::new()]?;
    let ended = run_over(rt, alloc, arguments, input, &CALM, &mut desks, None)?;
    is_ended(alloc, &ended, status, text)
}

/// Runs the program over one desk. Returns how it ended, and what it printed.
fn run_once<R: Threads + Wait + Sync>(
    rt: &R,
    alloc: Global,
    arguments: &[&str],
    input: &str,
    outside: &Outside,
) -> Result<(Status, MemSink), NoMemory> {
    let desk = Faulty::new(TableDesk::<Layers>::new(), listed(alloc, outside.desk)?);
    let mut desks = vec![in alloc; desk]?;
    run_over(rt, alloc, arguments, input, outside, &mut desks, None)
}

/// Runs the program over one desk and a disk. Returns how it ended, and what it printed.
pub fn run_on<R: Threads + Wait + Sync>(
    rt: &R,
    alloc: Global,
    arguments: &[&str],
    input: &str,
    disk: &mut MemDisk,
) -> Result<(Status, MemSink), NoMemory> {
    let mut desks = vec![in alloc; TableDesk::<Layers>::new()]?;
    run_over(rt, alloc, arguments, input, &CALM, &mut desks, Some(disk))
}

/// Runs the program over these desks, and over a disk if there is one.
fn run_over<R: Threads + Wait + Sync, D: Desk + Drop + Send + Sync>(
    rt: &R,
    alloc: Global,
    arguments: &[&str],
    input: &str,
    outside: &Outside,
    desks: &mut Vec<D>,
    disk: Option<&mut MemDisk>,
) -> Result<(Status, MemSink), NoMemory>
    requires has_desks { 1 ≤ length desks.old.items }
    requires at_most_8_desks { length desks.old.items ≤ 8 }
    requires room { All (λ desk. D.listings desk < 2 ^ 62) desks.old.items }
{
    let arguments = arguments_of(alloc, arguments)?;
    let mut source = source_of(alloc, input, outside)?;
    let mut sink = sink_of(alloc, outside)?;
    let arguments = arguments.as_slice();
    let status = match disk {
        None => run(rt, alloc, arguments, &mut source, &mut sink, desks),
        Some(disk) => run_kept(rt, alloc, arguments, &mut source, &mut sink, desks, disk),
    };
    Ok((status, sink))
}

/// Runs the program over one desk, a disk and a hook. Returns how it ended, and what it printed.
pub fn run_before<R: Threads + Wait + Sync>(
    rt: &R,
    alloc: Global,
    arguments: &[&str],
    input: &str,
    disk: &mut MemDisk,
    hook: &mut MemHook,
) -> Result<(Status, MemSink), NoMemory> {
    let mut desks = vec![in alloc; TableDesk::<Layers>::new()]?;
    let arguments = arguments_of(alloc, arguments)?;
    let mut source = source_of(alloc, input, &CALM)?;
    let mut sink = sink_of(alloc, &CALM)?;
    let status = run_all(
        rt,
        alloc,
        arguments.as_slice(),
        &mut source,
        &mut sink,
        &mut desks,
        disk,
        hook,
    );
    Ok((status, sink))
}
