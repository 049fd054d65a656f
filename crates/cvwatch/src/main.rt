//! Tells which container images hold packages with known vulnerabilities: of one image at once, or as a service that says which
//! images an update of advisories concerns.
//!
//! ```text
//! cd examples/first-scan && cvwatch scan < input.jsonl
//! cd examples/service && cvwatch serve < input.jsonl
//! cvwatch keep --workers 2 < input.jsonl
//! cvwatch push --workers 2 < input.jsonl
//! ```
#![tactic(auto)]

ghost use Rattle.std.specs.Prelude.{◌≡◌, ◌+◌, ◌^◌, ◌<◌, length, All, IfOk, OnOk};

use cv_desk::Desk;
use cv_desk_folder::FolderDesk;
use cv_hook_folder::FolderHook;
use cv_io::{StdSink, StdSource};
use cv_keep::FileDisk;
use cv_run::{Status, run_all};
use std::env;
use std::io::{self, ErrorKind};
use std::process::ExitCode;
use std::sync::Wait;
use std::thread::Threads;

/// As many desks as a service may have workers.
const DESKS: usize = 8;

fn main(rt: HostRuntime) -> ExitCode {
    let ended = start(&rt, &rt);
    if let Err(error) = &ended {
        say_not_started(&rt, error);
    }
    Status::exit_code_of(ended)
}

/// Runs the arguments of the command line over real folders and the standard streams; fails only before a command is started.
/// Threads are started by a handle of their own.
fn start<W: Threads + Wait + Sync>(rt: &HostRuntime, threads: &W) -> io::Result<Status> {
    let arguments = arguments_of(rt)?;
    let mut desks = make_desks(rt)?;
    let mut input = StdSource::new(rt.reader());
    let mut output = StdSink::new(io::writer(rt));
    let mut disk = FileDisk::new(rt.clone()?);
    let mut hook = FolderHook::new(rt.clone()?);
    let status = run_all(
        threads,
        rt.alloc(),
        arguments.as_slice(),
        &mut input,
        &mut output,
        &mut desks,
        &mut disk,
        &mut hook,
    );
    explain_hook(rt, &hook);
    match status {
        Status::Usage => say_commands(rt),
        Status::ReadFault => explain(rt, "standard input could not be read", input.last_error()),
        Status::WriteFault => explain(
            rt,
            "standard output could not be written",
            output.last_error(),
        ),
        Status::LineTooLong => say(rt, "a line of the input has more than 67,108,864 bytes"),
        Status::InputTooLong => say(rt, "the input has 2^36 bytes or more"),
        Status::NoMemory => say(rt, "out of memory"),
        Status::KeepFault => explain(
            rt,
            "./cvwatch.keep could not be opened, locked, read or written",
            disk.last_error(),
        ),
        Status::BadKeep => say(
            rt,
            "a record of ./cvwatch.keep is not good; the line that was printed says which one, from 0",
        ),
        Status::KeepFull => say(rt, "./cvwatch.keep would pass 2^40 bytes"),
        _ => explain_desks(rt, &desks),
    }
    Ok(status)
}

/// The commands, for those whose arguments are not one.
const COMMANDS: &str = "\
Tells which container images hold packages with known vulnerabilities.

  cvwatch scan
      Scans one image. Line 1 of standard input is its manifest, and each further line an OSV record.
      The layers are folders below ./layers.
      Example: cd examples/first-scan && cvwatch scan <input.jsonl

  cvwatch sbom
      Prints the packages of one image as a list of components, in a profile of CycloneDX. Standard input is the manifest.
      Example: cd examples/first-scan && head -n 1 input.jsonl | cvwatch sbom

  cvwatch scan-list
      Scans such a list, without any layer. Line 1 of standard input is the list, and each further line an OSV record.
      Example: cvwatch scan-list <list-and-records.jsonl

  cvwatch serve [--workers N]
      Serves requests, one JSON object a line; an empty line ends a round. N is from 1 to 8; without it, 4.
      Example: cd examples/service && cvwatch serve --workers 2 <input.jsonl

  cvwatch keep [--workers N]
      Serves as serve does, and keeps each event in ./cvwatch.keep before its line is printed. It goes on from the events
      that this file has.
      Example: cvwatch keep --workers 2 <input.jsonl

  cvwatch push [--workers N]
      Serves as serve does, and writes the rows of each notification as ./hook/NUMBER.json after its round, in order. The
      folder has to be there; a file of an earlier run is replaced.
      Example: mkdir hook && cvwatch push --workers 2 <input.jsonl

  cvwatch order deb|apk|semver|pypi A B
      Compares two versions, and prints <, = or >.
      Example: cvwatch order deb 1.0~rc1 1.0

  cvwatch drill N
      Serves a large generated input, which N, from 0 to 4294967295, determines, and prints a summary.
      Example: cvwatch drill 7
";

/// Says on standard error which commands there are. A failure to say it is ignored.
fn say_commands(rt: &HostRuntime) {
    let _ = eprint!(rt; "{COMMANDS}");
}

/// Says on standard error why a command ended. A failure to say it is ignored.
fn say(rt: &HostRuntime, reason: &str) {
    let _ = eprintln!(rt; "cvwatch: {reason}");
}

/// Says on standard error why no command was started. A failure to say it is ignored.
fn say_not_started(rt: &HostRuntime, error: &io::Error) {
    if error.kind() == ErrorKind::OutOfMemory {
        say(rt, "out of memory");
    } else {
        let _ = eprintln!(rt; "cvwatch: no command could be started: {error}");
    }
}

/// Says on standard error why a stream failed. A failure to say it is ignored.
fn explain(rt: &HostRuntime, reason: &str, error: Option<io::Error>) {
    match error {
        Some(error) => {
            let _ = eprintln!(rt; "cvwatch: {reason}: {error}");
        }
        None => say(rt, reason),
    }
}

/// Says on standard error why a desk failed the last time, of each that did: a scan ends there, and a service goes on.
fn explain_desks(rt: &HostRuntime, desks: &[FolderDesk<HostRuntime>]) {
    for failure in desks.iter().filter_map(FolderDesk::last_failure) {
        let _ = eprintln!(rt; "cvwatch: {failure}");
    }
}

/// Says on standard error which notification could not be written the last time, and why, if one could not. A failure to say it is
/// ignored.
fn explain_hook(rt: &HostRuntime, hook: &FolderHook) {
    if let Some(failure) = hook.last_failure() {
        let _ = eprintln!(rt; "cvwatch: {failure}");
    }
}

/// The arguments of the command line, without the name of the program. If one is not UTF-8, they are not a command, and
/// none are handed on.
fn arguments_of(rt: &HostRuntime) -> io::Result<Vec<String>> {
    match read_arguments(rt) {
        Ok(arguments) => Ok(arguments),
        Err(error) if error.kind() == ErrorKind::InvalidData => Ok(Vec::new(rt.alloc())),
        Err(error) => Err(error),
    }
}

fn read_arguments(rt: &HostRuntime) -> io::Result<Vec<String>> {
    let mut arguments = Vec::new(rt.alloc());
    for argument in env::args(rt)?.skip(1) {
        arguments.push(argument)?;
    }
    Ok(arguments)
}

/// Desks over the folders of the working directory. None has listed a layer often, and none has counted a failure.
fn make_desks(rt: &HostRuntime) -> io::Result<Vec<FolderDesk<HostRuntime>>>
    ensures count { IfOk result (λ desks. length desks.items ≡ 8) }
    ensures fresh { IfOk result (λ desks. All (λ desk. ⟦<FolderDesk<HostRuntime> as Desk>⟧.listings desk < 2 ^ 62) desks.items) }
    ensures unfailed { IfOk result (λ desks. All (λ desk. ⟦<FolderDesk<HostRuntime> as Desk>⟧.faults desk ≡ 0) desks.items) }
{
    let mut desks = Vec::new(rt.alloc());
    for _ in 0..DESKS {
        add_desk(rt, &mut desks)?;
    }
    Ok(desks)
}

fn add_desk(rt: &HostRuntime, desks: &mut Vec<FolderDesk<HostRuntime>>) -> io::Result<()>
    ensures count { OnOk result (length desks.new.items ≡ length desks.old.items + 1) }
    ensures fresh { OnOk result (All (λ desk. ⟦<FolderDesk<HostRuntime> as Desk>⟧.listings desk < 2 ^ 62) desks.old.items → All (λ desk. ⟦<FolderDesk<HostRuntime> as Desk>⟧.listings desk < 2 ^ 62) desks.new.items) }
    ensures unfailed { OnOk result (All (λ desk. ⟦<FolderDesk<HostRuntime> as Desk>⟧.faults desk ≡ 0) desks.old.items → All (λ desk. ⟦<FolderDesk<HostRuntime> as Desk>⟧.faults desk ≡ 0) desks.new.items) }
{
    desks.push(FolderDesk::new(rt.clone()?))?;
    Ok(())
}
