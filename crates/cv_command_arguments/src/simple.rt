ghost use Rattle.std.specs.Prelude.{◌≡◌, ◌≢◌, ◌≤◌, ◌<◌, ◌^◌, true, IfOk, option_and_then};
ghost use Rattle.std.specs.Option.{option_map};
ghost use Rattle.clap.specs.Words.{app_of, first_of, found_of, is_simple_and_free, one_of, rows_of};
ghost use Rattle.cv_command_arguments.specs.Simple.{app_named, number, number_in, rows_by, texts_of};

use clap::error::ErrorKind;
use clap::{ArgMatches, Command};
use cv_seq::NoMemory;
use std::alloc::Global;

/// A command without arguments, which reads neither the program's name nor a request for help.
pub fn command_named<'a>(alloc: Global, name: &'a str) -> Command<'a>
    ensures { app_of result ≡ app_named name.entry.now }
{
    Command::new(alloc, name)
        .no_binary_name(true)
        .disable_help_flag(true)
}

/// What the command reads of the arguments, if it takes them.
pub fn read<'a>(
    command: Command<'a>,
    arguments: &'a [String],
) -> Result<Option<ArgMatches<'a>>, NoMemory>
    requires simple { is_simple_and_free (app_of command) ≡ true }
    ensures { IfOk result (λ found. option_map (λ matches. rows_of (found_of matches)) found ≡ rows_by (app_of command.entry) (texts_of arguments.entry.now)) }
{
    match command.try_get_matches_from(arguments) {
        Ok(matches) => Ok(Some(matches)),
        Err(error) => refused(error.kind()),
    }
}

/// The answer where clap answers an error: that the arguments are not taken, unless memory ran out.
fn refused<T>(kind: ErrorKind) -> Result<Option<T>, NoMemory>
    ensures { IfOk result (λ found. (found ≡ None) × (kind ≢ ErrorKind.OutOfMemory)) }
{
    match kind {
        ErrorKind::OutOfMemory => Err(NoMemory),
        _ => Ok(None),
    }
}

/// The number that an argument has, if it has one.
fn number_of(matches: &ArgMatches, id: &str) -> Option<u32>
    ensures { result ≡ option_and_then number (one_of id.now (rows_of (found_of matches.now))) }
{
    matches.get_one::<u32>(id)
}

/// The number between two bounds that an argument has, if it has one.
pub fn number_in(matches: &ArgMatches, id: &str, least: u32, most: u32) -> Option<u32>
    ensures { result ≡ number_in least most (one_of id.now (rows_of (found_of matches.now))) }
{
    match number_of(matches, id) {
        Some(number) if least <= number && number <= most => Some(number),
        _ => None,
    }
}

/// The text of an argument, if it has one.
pub fn text_in<'a>(matches: &ArgMatches<'a>, id: &str) -> Option<&'a str>
    ensures { option_map (λ text. text.now) result ≡ first_of id.now (rows_of (found_of matches.now)) }
{
    matches.get_str(id)
}
