ghost use Rattle.std.specs.Prelude.{◌≡◌, ◌^◌, ◌<◌, ◌≤◌, length, All};
ghost use Rattle.cv_command_arguments.specs.Simple.{texts_of};
ghost use Rattle.cv_seq.specs.Cause.{Rose};
ghost use Rattle.cv_run.specs.Arguments.{command_line};
ghost use Rattle.cv_command.specs.Printed.{IsPrinted};
ghost use Rattle.cv_run.specs.Run.{Completes, FirstRose, RunEnds, RunsAs};

use crate::arguments::{Command, command_of};
use crate::drill::drill_command;
use crate::service::serve_command;
use cv_base::NoMemory;
use cv_command::{
    Status, list_scan_command, order_command, print_usage, sbom_command, scan_command,
};
use cv_desk::Desk;
use cv_io::{Sink, Source};
use std::alloc::Global;
use std::sync::Wait;
use std::thread::Threads;

/// Runs the command that the arguments name: `scan`, `sbom`, `scan-list`, `serve`, `order` or `drill`. Other arguments print the
/// usage line.
pub fn run<S: Source, K: Sink, D: Desk + Drop + Send + Sync, W: Threads + Wait + Sync>(
    rt: &W,
    alloc: Global,
    arguments: &[String],
    input: &mut S,
    output: &mut K,
    desks: &mut Vec<D>,
) -> Status
    requires has_desks { 1 ≤ length desks.old.items }
    requires at_most_8_desks { length desks.old.items ≤ 8 }
    requires room { All (λ desk. D.listings desk < 2 ^ 62) desks.old.items }
    ensures outcome { RunEnds D.tree S.remaining D.listings D.faults (texts_of arguments.now)
        (record { input = input.old; written = K.contents output.old; desks = desks.old.items })
        (record { input = input.new; written = K.contents output.new; desks = desks.new.items })
        result }
    ensures read_fault { result ≡ Status.ReadFault → Rose (S.faults input.old) (S.faults input.new) }
    ensures write_fault { result ≡ Status.WriteFault → Rose (K.faults output.old) (K.faults output.new) }
    ensures desk_fault { result ≡ Status.DeskFault → FirstRose D.faults desks.old.items desks.new.items }
    ensures completes { Completes (texts_of arguments.now) (length desks.old.items) (S.remaining input.old)
        (S.faults input.old) (S.faults input.new) (K.faults output.old) (K.faults output.new) result }
{
    match command_of(alloc, arguments) {
        Ok(command) => run_command(rt, alloc, command, arguments, input, output, desks),
        Err(NoMemory) => Status::NoMemory,
    }
}

/// Runs a command.
fn run_command<S: Source, K: Sink, D: Desk + Drop + Send + Sync, W: Threads + Wait + Sync>(
    rt: &W,
    alloc: Global,
    command: Command,
    arguments: &[String],
    input: &mut S,
    output: &mut K,
    desks: &mut Vec<D>,
) -> Status
    requires has_desks { 1 ≤ length desks.old.items }
    requires at_most_8_desks { length desks.old.items ≤ 8 }
    requires room { All (λ desk. D.listings desk < 2 ^ 62) desks.old.items }
    ensures outcome { RunsAs command D.tree S.remaining D.listings D.faults (texts_of arguments.now)
        (record { input = input.old; written = K.contents output.old; desks = desks.old.items })
        (record { input = input.new; written = K.contents output.new; desks = desks.new.items })
        result }
    ensures read_fault { result ≡ Status.ReadFault → Rose (S.faults input.old) (S.faults input.new) }
    ensures write_fault { result ≡ Status.WriteFault → Rose (K.faults output.old) (K.faults output.new) }
    ensures desk_fault { result ≡ Status.DeskFault → FirstRose D.faults desks.old.items desks.new.items }
{
    match command {
        Command::Scan => {
            let first = &mut desks[0];
            scan_command(alloc, input, output, first)
        }
        Command::Sbom => {
            let first = &mut desks[0];
            sbom_command(alloc, input, output, first)
        }
        Command::ListScan => list_scan_command(alloc, input, output),
        Command::Serve(workers) => serve_command(rt, alloc, workers, input, output, desks),
        Command::Drill(seed) => drill_command(rt, alloc, seed, output),
        Command::Print => print_command(alloc, arguments, output),
    }
}

/// Runs a command that reads no input. Arguments that are not a command print the usage line.
fn print_command<K: Sink>(alloc: Global, arguments: &[String], output: &mut K) -> Status
    ensures printed { IsPrinted (command_line (texts_of arguments.now)) (K.contents output.old) (K.contents output.new) result }
    ensures write_fault { result ≡ Status.WriteFault → Rose (K.faults output.old) (K.faults output.new) }
{
    match arguments {
        [argument, rest @ ..] if argument.as_str() == "order" => order_command(alloc, rest, output),
        _ => print_usage(output),
    }
}
