ghost use Rattle.std.specs.Prelude.{◌≡◌, true, IfOk};
ghost use Rattle.clap.specs.Words.{app_of, found_of, is_simple_and_free, rows_of};
ghost use Rattle.cv_command_arguments.specs.Forms.{serve_app, workers_in, workers_of};
ghost use Rattle.cv_command_arguments.specs.Simple.{texts_of};

use crate::simple::{command_named, number_in, read};
use clap::builder::ValueParser;
use clap::{Arg, ArgMatches, Command};
use cv_seq::NoMemory;
use std::alloc::{AllocError, Global};

/// What the arguments of a service say of its workers: a number from 1 to 8, or nothing. None, if they are not taken.
pub fn workers_of(alloc: Global, arguments: &[String]) -> Result<Option<Option<u32>>, NoMemory>
    ensures { IfOk result (λ found. found ≡ workers_of (texts_of arguments.now)) }
{
    let command = serve_command(alloc)?;
    match read(command, arguments)? {
        Some(matches) => Ok(Some(workers_in(&matches))),
        None => Ok(None),
    }
}

fn workers_in(matches: &ArgMatches) -> Option<u32>
    ensures { result ≡ workers_in (rows_of (found_of matches.now)) }
{
    number_in(matches, "workers", 1, 8)
}

#[tactic(auto, unfolding(crate::specs::Forms::serve_app))]
fn serve_command<'a>(alloc: Global) -> Result<Command<'a>, AllocError>
    ensures app { IfOk result (λ command. app_of command ≡ serve_app) }
    ensures simple { IfOk result (λ command. is_simple_and_free (app_of command) ≡ true) }
{
    let workers = Arg::new(alloc, "workers")
        .long("workers")
        .value_parser(ValueParser::unsigned(1, 8));
    command_named(alloc, "serve").arg(workers)
}
