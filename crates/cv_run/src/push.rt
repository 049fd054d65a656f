ghost use Rattle.std.specs.Prelude.{◌≡◌, ◌^◌, ◌<◌, ◌≤◌, length, option_map, All};
ghost use Rattle.cv_command_arguments.specs.Simple.{texts_of};
ghost use Rattle.cv_keep.specs.Records.{records};
ghost use Rattle.cv_seq.specs.Cause.{Rose};
ghost use Rattle.cv_run.specs.Keep.{CompletesKept, ReportsBadRecord, keep_count};
ghost use Rattle.cv_run.specs.Push.{CompletesPushed, PushCommandEnds, PushesServing, RunAllEnds};
ghost use Rattle.cv_run.specs.Run.{Completes, FirstRose};

use crate::keep::run_kept;
use crate::service::{asked_workers, status_of};
use cv_base::NoMemory;
use cv_command::{Status, print_usage};
use cv_desk::Desk;
use cv_hook::Hook;
use cv_io::{Sink, Source};
use cv_keep::Disk;
use cv_serve_pushed::serve_pushed;
use std::alloc::Global;
use std::sync::Wait;
use std::thread::Threads;

/// Runs the command that the arguments name: `push`, or one of those of `run_kept`, which does not use the hook.
pub fn run_all<
    S: Source,
    K: Sink,
    D: Desk + Drop + Send + Sync,
    J: Disk,
    H: Hook,
    W: Threads + Wait + Sync,
>(
    rt: &W,
    alloc: Global,
    arguments: &[String],
    input: &mut S,
    output: &mut K,
    desks: &mut Vec<D>,
    disk: &mut J,
    hook: &mut H,
) -> Status
    requires has_desks { 1 ≤ length desks.old.items }
    requires at_most_8_desks { length desks.old.items ≤ 8 }
    requires room { All (λ desk. D.listings desk < 2 ^ 62) desks.old.items }
    ensures outcome { RunAllEnds D.tree S.remaining D.listings D.faults J.contents H.offers H.faults (texts_of arguments.now)
        (record { input = input.old; written = K.contents output.old; desks = desks.old.items })
        (record { input = input.new; written = K.contents output.new; desks = desks.new.items })
        disk.old disk.new hook.old hook.new result }
    ensures read_fault { result ≡ Status.ReadFault → Rose (S.faults input.old) (S.faults input.new) }
    ensures write_fault { result ≡ Status.WriteFault → Rose (K.faults output.old) (K.faults output.new) }
    ensures desk_fault { result ≡ Status.DeskFault → FirstRose D.faults desks.old.items desks.new.items }
    ensures keep_fault { result ≡ Status.KeepFault → Rose (J.faults disk.old) (J.faults disk.new) }
    ensures completes { Completes (texts_of arguments.now) (length desks.old.items) (S.remaining input.old)
        (S.faults input.old) (S.faults input.new) (K.faults output.old) (K.faults output.new) result }
    ensures completes_kept { CompletesKept (texts_of arguments.now) (length desks.old.items) (S.remaining input.old)
        (S.faults input.old) (S.faults input.new) (K.faults output.old) (K.faults output.new) (J.faults disk.old) (J.faults disk.new)
        (FirstRose D.faults desks.old.items desks.new.items) result }
    ensures bad_keep { ReportsBadRecord (texts_of arguments.now) (length desks.old.items) D.tree (option_map records (J.contents disk.old))
        (K.faults output.old) (K.faults output.new) (J.faults disk.old) (J.faults disk.new) (FirstRose D.faults desks.old.items desks.new.items) result }
    ensures completes_pushed { CompletesPushed (texts_of arguments.now) (length desks.old.items) (S.remaining input.old)
        (S.faults input.old) (S.faults input.new) (K.faults output.old) (K.faults output.new) result }
{
    match arguments {
        [name, options @ ..] if name.as_str() == "push" => {
            push_command(rt, alloc, options, input, output, desks, hook)
        }
        _ => run_kept(rt, alloc, arguments, input, output, desks, disk),
    }
}

/// Serves, and hands the notifications to the hook. The arguments are those of `serve`.
fn push_command<
    S: Source,
    K: Sink,
    D: Desk + Drop + Send + Sync,
    H: Hook,
    W: Threads + Wait + Sync,
>(
    rt: &W,
    alloc: Global,
    options: &[String],
    input: &mut S,
    output: &mut K,
    desks: &mut Vec<D>,
    hook: &mut H,
) -> Status
    requires has_desks { 1 ≤ length desks.old.items }
    requires at_most_8_desks { length desks.old.items ≤ 8 }
    requires room { All (λ desk. D.listings desk < 2 ^ 62) desks.old.items }
    ensures outcome { PushCommandEnds D.tree S.remaining D.listings D.faults H.offers H.faults (keep_count (texts_of options.now) (length desks.old.items))
        (record { input = input.old; written = K.contents output.old; desks = desks.old.items })
        (record { input = input.new; written = K.contents output.new; desks = desks.new.items })
        hook.old hook.new result }
    ensures read_fault { result ≡ Status.ReadFault → Rose (S.faults input.old) (S.faults input.new) }
    ensures write_fault { result ≡ Status.WriteFault → Rose (K.faults output.old) (K.faults output.new) }
{
    match asked_workers(alloc, options, desks.len()) {
        Ok(Some(workers)) => push_by(rt, alloc, workers, input, output, desks, hook),
        Ok(None) => print_usage(output),
        Err(NoMemory) => Status::NoMemory,
    }
}

/// Serves with this number of workers.
fn push_by<S: Source, K: Sink, D: Desk + Drop + Send + Sync, H: Hook, W: Threads + Wait + Sync>(
    rt: &W,
    alloc: Global,
    workers: u32,
    input: &mut S,
    output: &mut K,
    desks: &mut Vec<D>,
    hook: &mut H,
) -> Status
    requires at_least_one_worker { 1 ≤ workers }
    requires at_most_one_for_each_desk { workers ≤ length desks.old.items }
    requires at_most_8_desks { length desks.old.items ≤ 8 }
    requires room { All (λ desk. D.listings desk < 2 ^ 62) desks.old.items }
    ensures outcome { PushesServing D.tree S.remaining D.listings D.faults H.offers H.faults workers
        (record { input = input.old; written = K.contents output.old; desks = desks.old.items })
        (record { input = input.new; written = K.contents output.new; desks = desks.new.items })
        hook.old hook.new result }
    ensures read_fault { result ≡ Status.ReadFault → Rose (S.faults input.old) (S.faults input.new) }
    ensures write_fault { result ≡ Status.WriteFault → Rose (K.faults output.old) (K.faults output.new) }
{
    status_of(serve_pushed(rt, alloc, input, output, hook, desks, workers))
}
