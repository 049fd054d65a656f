use crate::compare::is_ended;
use crate::layers::Layers;
use crate::streams::{CALM, Outside, arguments_of, listed, sink_of, source_of};
use cv_base::NoMemory;
use cv_command::{Status, list_scan_command, order_command, sbom_command, scan_command};
use cv_desk::TableDesk;
use cv_desk_wrappers::Faulty;
use std::alloc::Global;

/// A command over an input.
#[derive(Clone, Copy)]
pub enum InputCommand {
    Scan,
    Sbom,
    ListScan,
}

/// Runs a command over one desk. Whether it ends so and prints this text; in the input and in the text names in brackets stand for texts.
pub fn command_ends(
    alloc: Global,
    command: InputCommand,
    input: &str,
    outside: &Outside,
    (status, text): (Status, &str),
) -> Result<bool, NoMemory> {
    let mut desk = Faulty::new(TableDesk::<Layers>::new(), listed(alloc, outside.desk)?);
    let mut source = source_of(alloc, input, outside)?;
    let mut sink = sink_of(alloc, outside)?;
    let ended = match command {
        InputCommand::Scan => scan_command(alloc, &mut source, &mut sink, &mut desk),
        InputCommand::Sbom => sbom_command(alloc, &mut source, &mut sink, &mut desk),
        InputCommand::ListScan => list_scan_command(alloc, &mut source, &mut sink),
    };
    is_ended(alloc, &(ended, sink), status, text)
}

/// Compares versions. Whether the comparison ends so and prints this text.
pub fn orders_to(
    alloc: Global,
    arguments: &[&str],
    (status, text): (Status, &str),
) -> Result<bool, NoMemory> {
    let arguments = arguments_of(alloc, arguments)?;
    let mut sink = sink_of(alloc, &CALM)?;
    let ended = order_command(alloc, arguments.as_slice(), &mut sink);
    is_ended(alloc, &(ended, sink), status, text)
}
