ghost use Rattle.std.specs.Prelude.{◌≡◌, IfOk};
ghost use Rattle.cv_command_arguments.specs.Simple.{texts_of};
ghost use Rattle.cv_run.specs.Arguments.{bare_with, command_of, drill_with, named, serve_with};

use cv_base::NoMemory;
use cv_command_arguments::{seed_of, takes_none, workers_of};
use std::alloc::Global;

/// What the arguments of the program name.
#[derive(Clone, Copy, Debug, PartialEq, Eq)]
pub enum Command {
    /// The scan of an image.
    Scan,
    /// The packages of an image, as a list of components.
    Sbom,
    /// The scan of a list of components.
    ListScan,
    /// The service, with the number of workers that was asked for.
    Serve(Option<u32>),
    /// A large run of the service that this seed determines.
    Drill(u32),
    /// A line that follows from the arguments alone: how two versions compare, or the usage line.
    Print,
}

/// The command that the arguments name.
pub fn command_of(alloc: Global, arguments: &[String]) -> Result<Command, NoMemory>
    ensures { IfOk result (λ command. command ≡ command_of (texts_of arguments.now)) }
{
    let [name, options @ ..] = arguments else {
        return Ok(Command::Print);
    };
    named(alloc, name.as_str(), options)
}

fn named(alloc: Global, name: &str, options: &[String]) -> Result<Command, NoMemory>
    ensures { IfOk result (λ command. command ≡ named name.now (texts_of options.now)) }
{
    match name {
        "scan" => bare_with(alloc, Command::Scan, "scan", options),
        "sbom" => bare_with(alloc, Command::Sbom, "sbom", options),
        "scan-list" => bare_with(alloc, Command::ListScan, "scan-list", options),
        "serve" => serve_with(alloc, options),
        "drill" => drill_with(alloc, options),
        _ => Ok(Command::Print),
    }
}

/// A command without arguments.
fn bare_with(
    alloc: Global,
    command: Command,
    name: &str,
    options: &[String],
) -> Result<Command, NoMemory>
    ensures { IfOk result (λ found. found ≡ bare_with command name.now (texts_of options.now)) }
{
    let taken = takes_none(alloc, name, options)?;
    Ok(if taken { command } else { Command::Print })
}

fn serve_with(alloc: Global, options: &[String]) -> Result<Command, NoMemory>
    ensures { IfOk result (λ command. command ≡ serve_with (texts_of options.now)) }
{
    match workers_of(alloc, options)? {
        Some(workers) => Ok(Command::Serve(workers)),
        None => Ok(Command::Print),
    }
}

fn drill_with(alloc: Global, options: &[String]) -> Result<Command, NoMemory>
    ensures { IfOk result (λ command. command ≡ drill_with (texts_of options.now)) }
{
    match seed_of(alloc, options)? {
        Some(seed) => Ok(Command::Drill(seed)),
        None => Ok(Command::Print),
    }
}
