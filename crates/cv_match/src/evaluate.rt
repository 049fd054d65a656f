ghost use Rattle.std.specs.Prelude.{◌≡◌, ◌+◌};
ghost use Rattle.std.specs.Option.{option_copied};
ghost use Rattle.cv_match.specs.Answer.{Answers, text_at};

use crate::answer::{FixedAt, Hit};
use crate::prepared::{ReadyAdvisory, ReadyPackage};
use cv_base::{Advisory, Steps, Turn};
use std::sync::ledger::Ledger;

/// Whether the record affects the package, and where it names a fixed version. The time is linear in the record's entries,
/// with the events of those that are about the package; no memory is taken.
pub fn affects<L: Ledger>(
    advisory: &ReadyAdvisory,
    package: &ReadyPackage,
    steps: &mut Steps<L>,
) -> Hit
    requires { advisory.now.kind ≡ «package».now.kind }
    ensures answer { Answers advisory.now.advisory «package».now result }
    ensures counted { steps.new ≡ steps.old + 1 }
{
    steps.tick();
    advisory.hit(package)
}

/// The fixed version at a place of a record, or `None` if there is no fix at it.
pub fn fixed_text(advisory: &Advisory, at: FixedAt) -> Option<&str>
    ensures { option_copied result ≡ text_at advisory.now at }
{
    let entry = advisory.affected.as_slice().get(at.entry as usize)?;
    let range = entry.ranges.as_slice().get(at.range as usize)?;
    match range.turns.as_slice().get(at.turn as usize)? {
        Turn::Fixed(text) => Some(text.as_str()),
        _ => None,
    }
}
