ghost use Rattle.std.specs.Prelude.{◌≡◌, ◌∷◌, [], true, codes, is_some, IfOk, map, option_and_then};
ghost use Rattle.std.specs.Option.{option_map};
ghost use Rattle.clap.specs.Words.{app_of, first_of, found_of, is_simple_and_free, rows_of, with_rule};
ghost use Rattle.cv_command_arguments.specs.Forms.{comparison, comparison_in, comparison_of, order_app, order_rows, package_names, packages_named, packages_rule, required_rule};
ghost use Rattle.cv_command_arguments.specs.Simple.{texts_of};
ghost use Rattle.cv_command_arguments.specs.Versions.{comparison_by};

use crate::simple::{command_named, read, text_in};
use clap::builder::ValueParser;
use clap::{Arg, ArgMatches, Command};
use cv_seq::NoMemory;
use std::alloc::{AllocError, Global};

/// The packages whose versions are compared.
#[derive(Clone, Copy, Debug, PartialEq, Eq)]
pub enum Packages {
    Deb,
    Apk,
    /// Those of npm, which have semantic versions.
    Semver,
    /// Those of Python.
    Pypi,
}

/// Two versions that are compared.
#[derive(Clone, Copy, Debug)]
pub struct Versions<'a> {
    pub packages: Packages,
    pub first: &'a str,
    pub second: &'a str,
}

/// The versions that `order` compares, if the arguments are taken: their first one is `deb`, `apk`, `semver` or `pypi`.
#[tactic(auto, using(crate::proofs::OrderForm::versions_given))]
pub fn versions_of<'a>(
    alloc: Global,
    arguments: &'a [String],
) -> Result<Option<Versions<'a>>, NoMemory>
    ensures value { IfOk result (λ found. option_map comparison_by found ≡ comparison_of (texts_of arguments.entry.now)) }
    ensures taken { IfOk result (λ found. is_some found ≡ is_some (order_rows (texts_of arguments.entry.now))) }
{
    match order_matches(alloc, arguments)? {
        Some(matches) => Ok(versions_in(&matches)),
        None => Ok(None),
    }
}

/// What the command reads of the arguments, if it takes them.
fn order_matches<'a>(
    alloc: Global,
    arguments: &'a [String],
) -> Result<Option<ArgMatches<'a>>, NoMemory>
    ensures { IfOk result (λ found. option_map (λ matches. rows_of (found_of matches)) found ≡ order_rows (texts_of arguments.entry.now)) }
{
    let command = order_command(alloc, package_names())?;
    read(command, arguments)
}

/// The versions of the arguments. All three are required, so that they are there.
fn versions_in<'a>(matches: &ArgMatches<'a>) -> Option<Versions<'a>>
    ensures { option_map comparison_by result ≡ comparison_in (rows_of (found_of matches.now)) }
{
    let first = text_in(matches, "first");
    let second = text_in(matches, "second");
    complete_versions(packages_in(matches), first, second)
}

/// The versions, if all three are given.
fn complete_versions<'a>(
    packages: Option<Packages>,
    first: Option<&'a str>,
    second: Option<&'a str>,
) -> Option<Versions<'a>>
    ensures { option_map comparison_by result ≡ comparison packages (option_map (λ text. text.now) first.entry) (option_map (λ text. text.now) second.entry) }
{
    match (packages, first, second) {
        (Some(packages), Some(first), Some(second)) => Some(Versions {
            packages,
            first,
            second,
        }),
        _ => None,
    }
}

/// The packages that the first argument names.
fn packages_in(matches: &ArgMatches) -> Option<Packages>
    ensures { result ≡ option_and_then packages_named (first_of (codes "packages") (rows_of (found_of matches.now))) }
{
    match text_in(matches, "packages") {
        Some(name) => packages_named(name),
        None => None,
    }
}

/// The packages of a name.
fn packages_named(name: &str) -> Option<Packages>
    ensures { result ≡ packages_named name.now }
{
    match name {
        "deb" => Some(Packages::Deb),
        "apk" => Some(Packages::Apk),
        "semver" => Some(Packages::Semver),
        "pypi" => Some(Packages::Pypi),
        _ => None,
    }
}

static NAMES: [&str; 4] = ["deb", "apk", "semver", "pypi"];

/// The names of the packages.
fn package_names<'a>() -> &'a [&'a str]
    ensures { map (λ name. name.now) result.now ≡ package_names }
{
    &NAMES
}

/// The command, with these names for its first argument.
#[tactic(auto, unfolding(crate::specs::Forms::order_app))]
fn order_command<'a>(alloc: Global, names: &'a [&'a str]) -> Result<Command<'a>, AllocError>
    ensures app { IfOk result (λ command. app_of command ≡ order_app names.entry) }
    ensures simple { IfOk result (λ command. is_simple_and_free (app_of command) ≡ true) }
{
    let packages = Arg::new(alloc, "packages")
        .required(true)
        .value_parser(ValueParser::Names(names));
    let command = command_named(alloc, "order").arg(packages)?;
    let command = with_argument(alloc, command, "first")?;
    with_argument(alloc, command, "second")
}

/// The command with one more required argument.
fn with_argument<'a>(
    alloc: Global,
    command: Command<'a>,
    id: &'a str,
) -> Result<Command<'a>, AllocError>
    ensures { IfOk result (λ more. app_of more ≡ with_rule (app_of command.entry) (required_rule id.entry.now)) }
{
    command.arg(Arg::new(alloc, id).required(true))
}
