ghost use Rattle.std.specs.Prelude.{◌≡◌, ◌+◌, IfOk, option_and_then};
ghost use Rattle.std.specs.Option.{option_to_list};
ghost use Rattle.cv_match.specs.Answer.{text_at};
ghost use Rattle.cv_match.specs.Findings.{found};
ghost use Rattle.cv_match.specs.Prepared.{prepared_for};

use cv_base::{Advisory, Finding, NoMemory, Package, Steps, Text};
use cv_match::{FixedAt, Hit, ReadyAdvisory, ReadyPackage, affects, fixed_text};
use std::alloc::Global;
use std::sync::ledger::Ledger;

/// The finding of a package with a record of a feed, if it affects the package. It takes a step.
#[tactic(auto, using(crate::proofs::FoundLemmas::found_not, crate::proofs::FoundLemmas::found_yes))]
pub fn find_one<L: Ledger>(
    alloc: Global,
    package: &Package,
    prepared: &ReadyPackage,
    feed: &Text,
    advisory: &Advisory,
    prepared_record: &ReadyAdvisory,
    steps: &mut Steps<L>,
) -> Result<Option<Finding>, NoMemory>
    requires prepared { prepared.now ≡ «package».now }
    requires prepared_record { prepared_record.now ≡ prepared_for «package».now.kind advisory.now }
    ensures found { IfOk result (λ finding. option_to_list finding ≡ found «package».now feed.now advisory.now) }
    ensures counted { steps.new ≡ steps.old + 1 }
{
    match affects(prepared_record, prepared, steps) {
        Hit::No => Ok(None),
        Hit::Yes { fixed } => Ok(Some(finding_of(alloc, package, feed, advisory, fixed)?)),
    }
}

/// The finding of a package with a record, with the fixed version at this place of the record.
fn finding_of(
    alloc: Global,
    package: &Package,
    feed: &Text,
    advisory: &Advisory,
    place: Option<FixedAt>,
) -> Result<Finding, NoMemory>
    ensures { IfOk result (λ finding. finding ≡ record { «package» = «package».now; feed = feed.now; advisory = advisory.now.id; fixed = option_and_then (text_at advisory.now) place }) }
{
    let fixed = fixed_of(alloc, advisory, place)?;
    let advisory = advisory.id.clone()?;
    let feed = feed.clone()?;
    let package = package.clone()?;
    Ok(Finding {
        package,
        feed,
        advisory,
        fixed,
    })
}

/// The fixed version at a place of the record.
fn fixed_of(
    alloc: Global,
    advisory: &Advisory,
    place: Option<FixedAt>,
) -> Result<Option<Text>, NoMemory>
    ensures { IfOk result (λ text. text ≡ option_and_then (text_at advisory.now) place) }
{
    let Some(at) = place else {
        return Ok(None);
    };
    match fixed_text(advisory, at) {
        None => Ok(None),
        Some(text) => Ok(Some(Text::of(alloc, text)?)),
    }
}
