ghost use Rattle.std.specs.Prelude.{◌≡◌, IfOk, if◌then◌else◌, map, option_map, Some, None};
ghost use Rattle.cv_match_range.specs.ReadRange.{bound_text, event_text, events_of, range_text};
ghost use Rattle.cv_match_range.specs.Within.{belongs, introduced_at, limited_at};
ghost use Rattle.cv_match_range.specs.code.Reading.{read_bound, read_event, read_events};
ghost use Rattle.cv_match_range.specs.declared.placed.Bound.TheVariants.{At};

use crate::placed::{Bound, Placed};
use crate::version::Version;
use cv_base::{NoMemory, PackageKind, Range, RangeKind, Seq, Text, Turn};
use std::alloc::Global;

/// Reads each version of a range once. `None` if the range is of a type that does not belong to the kind, or if one of its
/// events cannot be read: then nothing is within it.
#[tactic(auto, using(crate::proofs::EventsRead::events_read, crate::proofs::EventsRead::no_events))]
pub fn prepare_range<V: Version>(
    alloc: Global,
    kind: PackageKind,
    range: &Range,
) -> Result<Option<Seq<Placed<V>>>, NoMemory>
    requires { kind ≡ V.kind }
    ensures { IfOk result (λ prepared. range_text V.text prepared ≡ events_of V.kind range.now) }
{
    if belongs(kind, range.kind) {
        read_events(alloc, range.turns.as_slice())
    } else {
        Ok(None)
    }
}

/// Whether a range of this type has versions of this kind.
fn belongs(kind: PackageKind, range: RangeKind) -> bool
    ensures { result ≡ belongs kind range }
{
    match range {
        RangeKind::Ecosystem => true,
        RangeKind::Semver => kind == PackageKind::Npm,
        RangeKind::Other => false,
    }
}

#[tactic(auto, using(crate::proofs::EventsRead::onto_more, crate::proofs::EventsRead::onto_none))]
fn read_events<V: Version>(
    alloc: Global,
    turns: &[Turn],
) -> Result<Option<Seq<Placed<V>>>, NoMemory>
    ensures { IfOk result (λ prepared. range_text V.text prepared ≡ read_events V.kind turns.now) }
{
    let mut events = Vec::new(alloc);
    let mut remaining = turns;
    while let [turn, rest @ ..] = remaining {
        match read_event(alloc, turn)? {
            Some(event) => events.push(event)?,
            None => return Ok(None),
        }
        remaining = rest;
    }
    Ok(Some(Seq::of(events)))
}

fn read_event<V: Version>(alloc: Global, turn: &Turn) -> Result<Option<Placed<V>>, NoMemory>
    ensures { IfOk result (λ event. option_map (event_text V.text) event ≡ read_event V.kind turn.now) }
{
    match turn {
        Turn::Introduced(text) => Ok(introduced(alloc, text)?.map(|bound| Placed::Introduced(
            bound,
        ))),
        Turn::Fixed(text) => Ok(V::read(alloc, text)?.map(|version| Placed::Fixed(version))),
        Turn::LastAffected(text) => Ok(V::read(alloc, text)?.map(|version| Placed::LastAffected(
            version,
        ))),
        Turn::Limit(text) => Ok(limited(alloc, text)?.map(|bound| Placed::Limit(bound))),
    }
}

/// Introduced `0` is before every version.
fn introduced<V: Version>(alloc: Global, text: &Text) -> Result<Option<Bound<V>>, NoMemory>
    ensures { IfOk result (λ bound. option_map (bound_text V.text) bound ≡ read_bound V.kind (introduced_at text.now)) }
{
    if text.as_str() == "0" {
        return Ok(Some(Bound::Start));
    }
    at_version(alloc, text)
}

/// Limit `*` is after every version.
fn limited<V: Version>(alloc: Global, text: &Text) -> Result<Option<Bound<V>>, NoMemory>
    ensures { IfOk result (λ bound. option_map (bound_text V.text) bound ≡ read_bound V.kind (limited_at text.now)) }
{
    if text.as_str() == "*" {
        return Ok(Some(Bound::End));
    }
    at_version(alloc, text)
}

/// The place of a version, unless the text is not a valid version.
fn at_version<V: Version>(alloc: Global, text: &Text) -> Result<Option<Bound<V>>, NoMemory>
    ensures { IfOk result (λ bound. option_map (bound_text V.text) bound ≡ read_bound V.kind (At text.now)) }
{
    Ok(V::read(alloc, text)?.map(|version| Bound::At(version)))
}
