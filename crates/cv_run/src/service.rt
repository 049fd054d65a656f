ghost use Rattle.std.specs.Prelude.{◌≡◌, ◌^◌, ◌<◌, ◌≤◌, length, All, IfOk, IfSome};
ghost use Rattle.cv_command_arguments.specs.Simple.{texts_of};
ghost use Rattle.cv_seq.specs.Cause.{Rose};
ghost use Rattle.cv_run.specs.Keep.{keep_count};
ghost use Rattle.cv_run.specs.Service.{ServeEnds, ServiceEnds, status_of, worker_count};

use cv_base::NoMemory;
use cv_command::{Status, print_usage};
use cv_command_arguments::workers_of;
use cv_desk::Desk;
use cv_io::{Sink, Source};
use cv_serve::{ServeEnd, serve};
use std::alloc::Global;
use std::sync::Wait;
use std::thread::Threads;

/// How many workers a service has, if it may have more desks.
const WORKERS: u32 = 4;

/// Serves the requests of the input to its end, and prints the transcript. Worker w has the desk with that index, and the workers may
/// be as many as there are desks. Without a number of workers there are four of them, or as many as desks.
pub fn serve_command<S: Source, K: Sink, D: Desk + Drop + Send + Sync, W: Threads + Wait + Sync>(
    rt: &W,
    alloc: Global,
    workers: Option<u32>,
    input: &mut S,
    output: &mut K,
    desks: &mut Vec<D>,
) -> Status
    requires has_desks { 1 ≤ length desks.old.items }
    requires at_most_8_desks { length desks.old.items ≤ 8 }
    requires room { All (λ desk. D.listings desk < 2 ^ 62) desks.old.items }
    ensures outcome { ServiceEnds D.tree S.remaining D.listings D.faults (worker_count workers (length desks.old.items))
        (record { input = input.old; written = K.contents output.old; desks = desks.old.items })
        (record { input = input.new; written = K.contents output.new; desks = desks.new.items })
        result }
    ensures read_fault { result ≡ Status.ReadFault → Rose (S.faults input.old) (S.faults input.new) }
    ensures write_fault { result ≡ Status.WriteFault → Rose (K.faults output.old) (K.faults output.new) }
{
    let Some(workers) = worker_count(workers, desks.len()) else {
        return print_usage(output);
    };
    serve_by(rt, alloc, workers, input, output, desks)
}

/// Serves with this number of workers.
fn serve_by<S: Source, K: Sink, D: Desk + Drop + Send + Sync, W: Threads + Wait + Sync>(
    rt: &W,
    alloc: Global,
    workers: u32,
    input: &mut S,
    output: &mut K,
    desks: &mut Vec<D>,
) -> Status
    requires at_least_one_worker { 1 ≤ workers }
    requires at_most_one_for_each_desk { workers ≤ length desks.old.items }
    requires at_most_8_desks { length desks.old.items ≤ 8 }
    requires room { All (λ desk. D.listings desk < 2 ^ 62) desks.old.items }
    ensures outcome { ServeEnds D.tree S.remaining D.listings D.faults workers
        (record { input = input.old; written = K.contents output.old; desks = desks.old.items })
        (record { input = input.new; written = K.contents output.new; desks = desks.new.items })
        result }
    ensures read_fault { result ≡ Status.ReadFault → Rose (S.faults input.old) (S.faults input.new) }
    ensures write_fault { result ≡ Status.WriteFault → Rose (K.faults output.old) (K.faults output.new) }
{
    status_of(serve(rt, alloc, input, output, desks, workers))
}

/// How many workers the arguments of `keep` or `push` ask for, if these are arguments of a service, and there may be as many.
pub fn asked_workers(
    alloc: Global,
    options: &[String],
    desks: usize,
) -> Result<Option<u32>, NoMemory>
    requires has_desks { 1 ≤ desks }
    requires at_most_8_desks { desks ≤ 8 }
    ensures value { IfOk result (λ count. count ≡ keep_count (texts_of options.now) desks) }
    ensures at_least_one { IfOk result (λ count. IfSome count (λ n. 1 ≤ n)) }
    ensures within { IfOk result (λ count. IfSome count (λ n. n ≤ desks)) }
{
    match workers_of(alloc, options)? {
        Some(workers) => Ok(worker_count(workers, desks)),
        None => Ok(None),
    }
}

/// How many workers there are, if there may be as many as were asked for.
fn worker_count(workers: Option<u32>, desks: usize) -> Option<u32>
    requires has_desks { 1 ≤ desks }
    requires at_most_8_desks { desks ≤ 8 }
    ensures value { result ≡ worker_count workers desks }
    ensures at_least_one { IfSome result (λ count. 1 ≤ count) }
    ensures within { IfSome result (λ count. count ≤ desks) }
{
    let desks = desks as u32;
    match workers {
        None => Some(WORKERS.min(desks)),
        Some(workers) if 1 <= workers && workers <= desks => Some(workers),
        Some(_) => None,
    }
}

/// The status of the end of a service.
pub fn status_of(end: ServeEnd) -> Status
    ensures { result ≡ status_of end }
{
    match end {
        ServeEnd::Done => Status::Done,
        ServeEnd::ReadFault => Status::ReadFault,
        ServeEnd::WriteFault => Status::WriteFault,
        ServeEnd::LineTooLong => Status::LineTooLong,
        ServeEnd::InputTooLong => Status::InputTooLong,
        ServeEnd::NoMemory => Status::NoMemory,
    }
}
