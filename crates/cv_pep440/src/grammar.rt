ghost use Rattle.std.specs.Prelude.{◌≡◌, ◌↔◌, IsTrue};
ghost use Rattle.std.specs.Char.{is_ascii_alphanumeric};
ghost use Rattle.std.specs.List.{list_all};
ghost use Rattle.cv_pep440.specs.Bytes.{is_run};
ghost use Rattle.cv_pep440.specs.Grammar.{IsVersion};
ghost use Rattle.cv_pep440.specs.Parts.{is_local, is_version, runs};

use crate::parts::{Parts, begins_with_digit, cut_run};

/// Whether the text is a version: `[v][epoch!]release[pre][post][dev][+local]`, letters in any case. A text with blanks at its
/// ends is not a version.
pub fn is_version(text: &[u8]) -> bool
    ensures grammar { IsTrue result ↔ IsVersion text.now }
    ensures value { result ≡ is_version text.now }
{
    has_version_parts(text)
}

fn has_version_parts(text: &[u8]) -> bool
    ensures { result ≡ is_version text.now }
{
    let parts = Parts::of(text);
    begins_with_digit(parts.release) && is_local(parts.local)
}

fn is_local(text: &[u8]) -> bool
    ensures { result ≡ is_local text.now }
{
    match text {
        [] => true,
        [b'+', local @ ..] => are_runs(local),
        _ => false,
    }
}

#[tactic(auto, using(crate::proofs::Runs::runs_cut, crate::proofs::Runs::after_len))]
fn are_runs(text: &[u8]) -> bool
    ensures { result ≡ list_all is_run (runs text.now) }
{
    let mut remaining = Some(text);
    while let Some(rest) = remaining {
        let (run, more) = cut_run(rest);
        if !is_run(run) {
            return false;
        }
        remaining = more;
    }
    true
}

#[tactic(auto, using(crate::proofs::Runs::run_some))]
fn is_run(text: &[u8]) -> bool
    ensures { result ≡ is_run text.now }
{
    !text.is_empty() && are_alphanumeric(text)
}

fn are_alphanumeric(text: &[u8]) -> bool
    ensures { result ≡ list_all is_ascii_alphanumeric text.now }
{
    text.iter().all(|byte| byte.is_ascii_alphanumeric())
}
