ghost use Rattle.std.specs.Prelude.{◌≡◌, ◌^◌, ◌<◌, ◌≤◌, length, option_map, All};
ghost use Rattle.cv_command_arguments.specs.Simple.{texts_of};
ghost use Rattle.cv_seq.specs.Cause.{Rose};
ghost use Rattle.cv_keep.specs.Records.{records};
ghost use Rattle.cv_run.specs.Keep.{CompletesKept, KeepEnds, KeepsServing, ReportsBadRecord, RunKeptEnds, keep_count, kept_status};
ghost use Rattle.cv_run.specs.Run.{Completes, FirstRose};

use crate::commands::run;
use crate::service::{asked_workers, status_of};
use cv_base::NoMemory;
use cv_command::{Status, print_usage};
use cv_desk::Desk;
use cv_io::{Sink, Source};
use cv_keep::Disk;
use cv_serve_kept::{KeptEnd, serve_kept};
use std::alloc::Global;
use std::sync::Wait;
use std::thread::Threads;

/// Runs the command that the arguments name: `keep`, or one of those of `run`, which does not use the disk.
pub fn run_kept<
    S: Source,
    K: Sink,
    D: Desk + Drop + Send + Sync,
    J: Disk,
    W: Threads + Wait + Sync,
>(
    rt: &W,
    alloc: Global,
    arguments: &[String],
    input: &mut S,
    output: &mut K,
    desks: &mut Vec<D>,
    disk: &mut J,
) -> Status
    requires has_desks { 1 ≤ length desks.old.items }
    requires at_most_8_desks { length desks.old.items ≤ 8 }
    requires room { All (λ desk. D.listings desk < 2 ^ 62) desks.old.items }
    ensures outcome { RunKeptEnds D.tree S.remaining D.listings D.faults J.contents (texts_of arguments.now)
        (record { input = input.old; written = K.contents output.old; desks = desks.old.items })
        (record { input = input.new; written = K.contents output.new; desks = desks.new.items })
        disk.old disk.new result }
    ensures read_fault { result ≡ Status.ReadFault → Rose (S.faults input.old) (S.faults input.new) }
    ensures write_fault { result ≡ Status.WriteFault → Rose (K.faults output.old) (K.faults output.new) }
    ensures desk_fault { result ≡ Status.DeskFault → FirstRose D.faults desks.old.items desks.new.items }
    ensures keep_fault { result ≡ Status.KeepFault → Rose (J.faults disk.old) (J.faults disk.new) }
    ensures completes { Completes (texts_of arguments.now) (length desks.old.items) (S.remaining input.old)
        (S.faults input.old) (S.faults input.new) (K.faults output.old) (K.faults output.new) result }
    ensures completes_kept { CompletesKept (texts_of arguments.now) (length desks.old.items) (S.remaining input.old)
        (S.faults input.old) (S.faults input.new) (K.faults output.old) (K.faults output.new) (J.faults disk.old) (J.faults disk.new)
        (FirstRose D.faults desks.old.items desks.new.items) result }
    ensures bad_keep { ReportsBadRecord (texts_of arguments.now) (length desks.old.items) D.tree (option_map records (J.contents disk.old))
        (K.faults output.old) (K.faults output.new) (J.faults disk.old) (J.faults disk.new) (FirstRose D.faults desks.old.items desks.new.items) result }
{
    match arguments {
        [name, options @ ..] if name.as_str() == "keep" => {
            keep_command(rt, alloc, options, input, output, desks, disk)
        }
        _ => run(rt, alloc, arguments, input, output, desks),
    }
}

/// Serves from the kept events on. The arguments are those of `serve`.
fn keep_command<
    S: Source,
    K: Sink,
    D: Desk + Drop + Send + Sync,
    J: Disk,
    W: Threads + Wait + Sync,
>(
    rt: &W,
    alloc: Global,
    options: &[String],
    input: &mut S,
    output: &mut K,
    desks: &mut Vec<D>,
    disk: &mut J,
) -> Status
    requires has_desks { 1 ≤ length desks.old.items }
    requires at_most_8_desks { length desks.old.items ≤ 8 }
    requires room { All (λ desk. D.listings desk < 2 ^ 62) desks.old.items }
    ensures outcome { KeepEnds D.tree S.remaining D.listings D.faults J.contents (keep_count (texts_of options.now) (length desks.old.items))
        (record { input = input.old; written = K.contents output.old; desks = desks.old.items })
        (record { input = input.new; written = K.contents output.new; desks = desks.new.items })
        disk.old disk.new result }
    ensures read_fault { result ≡ Status.ReadFault → Rose (S.faults input.old) (S.faults input.new) }
    ensures write_fault { result ≡ Status.WriteFault → Rose (K.faults output.old) (K.faults output.new) }
    ensures desk_fault { result ≡ Status.DeskFault → FirstRose D.faults desks.old.items desks.new.items }
    ensures keep_fault { result ≡ Status.KeepFault → Rose (J.faults disk.old) (J.faults disk.new) }
{
    match asked_workers(alloc, options, desks.len()) {
        Ok(Some(workers)) => keep_by(rt, alloc, workers, input, output, desks, disk),
        Ok(None) => print_usage(output),
        Err(NoMemory) => Status::NoMemory,
    }
}

/// Serves from the kept events on, with this number of workers.
fn keep_by<S: Source, K: Sink, D: Desk + Drop + Send + Sync, J: Disk, W: Threads + Wait + Sync>(
    rt: &W,
    alloc: Global,
    workers: u32,
    input: &mut S,
    output: &mut K,
    desks: &mut Vec<D>,
    disk: &mut J,
) -> Status
    requires at_least_one_worker { 1 ≤ workers }
    requires at_most_one_for_each_desk { workers ≤ length desks.old.items }
    requires at_most_8_desks { length desks.old.items ≤ 8 }
    requires room { All (λ desk. D.listings desk < 2 ^ 62) desks.old.items }
    ensures outcome { KeepsServing D.tree S.remaining D.listings D.faults J.contents workers
        (record { input = input.old; written = K.contents output.old; desks = desks.old.items })
        (record { input = input.new; written = K.contents output.new; desks = desks.new.items })
        disk.old disk.new result }
    ensures read_fault { result ≡ Status.ReadFault → Rose (S.faults input.old) (S.faults input.new) }
    ensures write_fault { result ≡ Status.WriteFault → Rose (K.faults output.old) (K.faults output.new) }
    ensures desk_fault { result ≡ Status.DeskFault → FirstRose D.faults desks.old.items desks.new.items }
    ensures keep_fault { result ≡ Status.KeepFault → Rose (J.faults disk.old) (J.faults disk.new) }
{
    kept_status(serve_kept(rt, alloc, input, output, disk, desks, workers))
}

/// The status of the end of a kept service.
fn kept_status(end: KeptEnd) -> Status
    ensures { result ≡ kept_status end }
{
    match end {
        KeptEnd::Served(end) => status_of(end),
        KeptEnd::DeskFault => Status::DeskFault,
        KeptEnd::KeepFault => Status::KeepFault,
        KeptEnd::BadKeep => Status::BadKeep,
        KeptEnd::KeepFull => Status::KeepFull,
    }
}
