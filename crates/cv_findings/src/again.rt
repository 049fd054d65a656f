ghost use Rattle.std.specs.Prelude.{◌≡◌, ◌+◌, ◌++◌, ◌≤◌, IfOk, OnOk};
ghost use Rattle.std.specs.List.{flat_map};
ghost use Rattle.cv_match.specs.Findings.{findings};
ghost use Rattle.cv_findings.specs.Pairs.{FeedList, pair_count};
ghost use Rattle.cv_findings.specs.Rematch.{AgreeOnUntouched, any_touched, rematched, touched_packages, untouched_findings};
ghost use Rattle.cv_findings.specs.code.Lookup.{looked_up};

use crate::matching::match_package;
use cv_advdb::{Feeds, Touched, is_touched};
use cv_base::{Finding, NoMemory, Package, Seq, Steps};
use cv_match::in_order;
use std::alloc::Global;
use std::sync::ledger::Ledger;

/// The findings of packages with the records of all feeds, from their findings before some records changed: those of packages
/// without a touched key are kept, and share all with those before, and the other packages are matched anew. They are sorted and
/// counted as by `match_all`. The time is n log n in the packages and the findings, and in the touched keys log n.
pub fn rematch<L: Ledger>(
    alloc: Global,
    packages: &[Package],
    before: &[Finding],
    feeds: &Feeds,
    touched: &Touched,
    steps: &mut Steps<L>,
) -> Result<Seq<Finding>, NoMemory>
    ensures value { IfOk result (λ out. out ≡ rematched touched.now.keys feeds.now.feeds packages.now before.now) }
    ensures found { (earlier : FeedList) → AgreeOnUntouched touched.now.keys earlier feeds.now.feeds → before.now ≡ findings packages.now earlier → IfOk result (λ out. out ≡ findings packages.now feeds.now.feeds) }
    ensures counted { steps.new ≤ steps.old + pair_count (touched_packages touched.now.keys packages.now) feeds.now.feeds }
{
    feeds.sorted_law();
    let mut found = Vec::new(alloc);
    if !any_touched(touched, packages) {
        keep_all(&mut found, before)?;
        return Ok(Seq::of(found));
    }
    keep_untouched(&mut found, before, touched)?;
    match_touched(alloc, &mut found, packages, feeds, touched, steps)?;
    in_order(alloc, found)
}

/// Whether one of the packages has a touched key. If none has, the findings stay as they are. It takes no memory.
pub fn any_touched(touched: &Touched, packages: &[Package]) -> bool
    ensures { result ≡ any_touched touched.now.keys packages.now }
{
    for package in packages {
        if is_touched(touched, package) {
            return true;
        }
    }
    false
}

fn keep_all(found: &mut Vec<Finding>, before: &[Finding]) -> Result<(), NoMemory>
    ensures { OnOk result (found.new.items ≡ found.old.items ++ before.now) }
{
    for finding in before {
        found.push(finding.clone()?)?;
    }
    Ok(())
}

/// Adds the findings of packages without a touched key.
fn keep_untouched(
    found: &mut Vec<Finding>,
    before: &[Finding],
    touched: &Touched,
) -> Result<(), NoMemory>
    ensures { OnOk result (found.new.items ≡ found.old.items ++ untouched_findings touched.now.keys before.now) }
{
    for finding in before {
        if !is_touched(touched, &finding.package) {
            found.push(finding.clone()?)?;
        }
    }
    Ok(())
}

/// Adds the findings of packages with a touched key, package by package.
fn match_touched<L: Ledger>(
    alloc: Global,
    found: &mut Vec<Finding>,
    packages: &[Package],
    feeds: &Feeds,
    touched: &Touched,
    steps: &mut Steps<L>,
) -> Result<(), NoMemory>
    ensures found { OnOk result (found.new.items ≡ found.old.items ++ flat_map (looked_up feeds.now.feeds) (touched_packages touched.now.keys packages.now)) }
    ensures counted { steps.new ≤ steps.old + pair_count (touched_packages touched.now.keys packages.now) feeds.now.feeds }
{
    for package in packages {
        if is_touched(touched, package) {
            match_package(alloc, found, package, feeds, steps)?;
        }
    }
    Ok(())
}
