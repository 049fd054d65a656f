ghost use Rattle.std.specs.Prelude.{◌≡◌, true, IfOk};
ghost use Rattle.clap.specs.Words.{app_of, is_simple_and_free};
ghost use Rattle.cv_command_arguments.specs.Forms.{bare_app, takes_none};
ghost use Rattle.cv_command_arguments.specs.Simple.{texts_of};

use crate::simple::{command_named, read};
use clap::Command;
use cv_seq::NoMemory;
use std::alloc::Global;

/// Whether the arguments are those of a command of this name that has no arguments: there are none, or `--` alone.
pub fn takes_none(alloc: Global, name: &str, arguments: &[String]) -> Result<bool, NoMemory>
    ensures { IfOk result (λ taken. taken ≡ takes_none name.now (texts_of arguments.now)) }
{
    let matches = read(bare_command(alloc, name), arguments)?;
    Ok(matches.is_some())
}

#[tactic(auto, unfolding(crate::specs::Forms::bare_app))]
fn bare_command<'a>(alloc: Global, name: &'a str) -> Command<'a>
    ensures app { app_of result ≡ bare_app name.entry.now }
    ensures simple { is_simple_and_free (app_of result) ≡ true }
{
    command_named(alloc, name)
}
