ghost use Rattle.std.specs.Prelude.{◌≡◌, ◌+◌, ◌≤◌, IfOk};
ghost use Rattle.cv_findings.specs.Pairs.{pair_count};
ghost use Rattle.cv_match.specs.Findings.{findings};
ghost use Rattle.cv_core_outcome.specs.Outcome.{matched};
ghost use Rattle.cv_core_outcome.specs.declared.outcome.Outcome.{Outcome};

use crate::findings::Findings;
use crate::outcome::Outcome;
use cv_advdb::Feeds;
use cv_base::{NoMemory, Package, Seq, Steps};
use cv_findings::match_all;
use cv_match::findings_laws;
use cv_tree::Shared;
use std::alloc::Global;
use std::sync::ledger::Ledger;

/// The outcome of an image of these packages.
pub fn matched<L: Ledger>(
    alloc: Global,
    packages: Seq<Package>,
    feeds: &Feeds,
    steps: &mut Steps<L>,
) -> Result<Outcome, NoMemory>
    ensures value { IfOk result (λ outcome. outcome ≡ Outcome.Good packages (findings packages feeds.now.feeds)) }
    ensures counted { steps.new ≤ steps.old + pair_count packages feeds.now.feeds }
{
    let findings = findings_of(alloc, packages.as_slice(), feeds, steps)?;
    Ok(Outcome::Good {
        packages: Shared::of(alloc, packages)?,
        findings,
    })
}

/// The findings of packages with the records of all feeds.
pub fn findings_of<L: Ledger>(
    alloc: Global,
    packages: &[Package],
    feeds: &Feeds,
    steps: &mut Steps<L>,
) -> Result<Findings, NoMemory>
    ensures value { IfOk result (λ found. found ≡ findings packages.now feeds.now.feeds) }
    ensures counted { steps.new ≤ steps.old + pair_count packages.now feeds.now.feeds }
{
    findings_laws();
    let found = match_all(alloc, packages, feeds, steps)?;
    Findings::of(alloc, found)
}
