ghost use Rattle.std.specs.Prelude.{◌≡◌, true, is_some, IfOk};
ghost use Rattle.clap.specs.Words.{app_of, found_of, is_simple_and_free, rows_of};
ghost use Rattle.cv_command_arguments.specs.Forms.{drill_app, drill_rows, seed_in, seed_of};
ghost use Rattle.cv_command_arguments.specs.Simple.{texts_of};

use crate::simple::{command_named, number_in, read};
use clap::builder::ValueParser;
use clap::{Arg, ArgMatches, Command};
use cv_seq::NoMemory;
use std::alloc::{AllocError, Global};

/// The seed of a drill, if the arguments are taken.
#[tactic(auto, using(crate::proofs::DrillForm::seed_given))]
pub fn seed_of(alloc: Global, arguments: &[String]) -> Result<Option<u32>, NoMemory>
    ensures value { IfOk result (λ found. found ≡ seed_of (texts_of arguments.now)) }
    ensures taken { IfOk result (λ found. is_some found ≡ is_some (drill_rows (texts_of arguments.now))) }
{
    let command = drill_command(alloc)?;
    match read(command, arguments)? {
        Some(matches) => Ok(seed_in(&matches)),
        None => Ok(None),
    }
}

/// The number of the argument. It is required, so it is present.
fn seed_in(matches: &ArgMatches) -> Option<u32>
    ensures { result ≡ seed_in (rows_of (found_of matches.now)) }
{
    number_in(matches, "seed", 0, u32::MAX)
}

#[tactic(auto, unfolding(crate::specs::Forms::drill_app))]
fn drill_command<'a>(alloc: Global) -> Result<Command<'a>, AllocError>
    ensures app { IfOk result (λ command. app_of command ≡ drill_app) }
    ensures simple { IfOk result (λ command. is_simple_and_free (app_of command) ≡ true) }
{
    let seed = Arg::new(alloc, "seed")
        .required(true)
        .value_parser(ValueParser::unsigned(0, 4_294_967_295));
    command_named(alloc, "drill").arg(seed)
}
