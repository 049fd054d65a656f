ghost use Rattle.std.specs.Prelude.{◌≡◌, ℕ, None, map, option_map};
ghost use Rattle.std.specs.List.{list_any, position_from};
ghost use Rattle.std.specs.Option.{option_copied};
ghost use Rattle.std.specs.Ordering.{on};
ghost use Rattle.cv_match_range.specs.Fix.{is_least_fix};
ghost use Rattle.cv_match_range.specs.Order.{version_cmp_of};
ghost use Rattle.cv_match_range.specs.ReadRange.{event_text, fix_in, range_holds, range_text};
ghost use Rattle.cv_match_range.specs.Within.{bound_cmp, brings, ends, holds, is_below_limits, is_limit, is_limit_above};
ghost use Rattle.cv_match_range.specs.code.Walk.{last_start, lasts, later_of, later_start, least_place, lesser_fix, lesser_of, numbered};

use crate::placed::{Bound, Placed};
use crate::version::Version;
use cv_base::Seq;
use std::cmp::Ordering;

/// Whether the version lies within the range. The time is linear in its events.
pub fn range_holds<V: Version>(range: &Option<Seq<Placed<V>>>, version: &V) -> bool
    ensures { result ≡ range_holds (version_cmp_of V.kind) (V.text version.now) (range_text V.text range.now) }
{
    match range {
        Some(events) => holds(events.as_slice(), version),
        None => false,
    }
}

/// The place of the least fix of the range above the version, from 0: the first one, where several are equal.
pub fn fix_in<V: Version>(range: &Option<Seq<Placed<V>>>, version: &V) -> Option<usize>
    ensures { result ≡ fix_in (version_cmp_of V.kind) (V.text version.now) (range_text V.text range.now) }
{
    match range {
        Some(events) => least_fix(events.as_slice(), version),
        None => None,
    }
}

fn holds<V: Version>(events: &[Placed<V>], version: &V) -> bool
    ensures { result ≡ holds (version_cmp_of V.kind) (map (event_text V.text) events.now) (V.text version.now) }
{
    have_within(events, version)
}

fn have_within<V: Version>(events: &[Placed<V>], version: &V) -> bool
    ensures { result ≡ holds (on V.text (version_cmp_of V.kind)) events.now version.now }
{
    is_below_limits(events, version) && is_brought(events, version)
}

/// The latest introduction up to the version decides, since what ends it ends every earlier one.
fn is_brought<V: Version>(events: &[Placed<V>], version: &V) -> bool
    ensures { result ≡ list_any (brings (on V.text (version_cmp_of V.kind)) events.now version.now) events.now }
{
    lasts(events, last_start(events, version), version)
}

fn is_below_limits<V: Version>(events: &[Placed<V>], version: &V) -> bool
    ensures { result ≡ is_below_limits (on V.text (version_cmp_of V.kind)) events.now version.now }
{
    !has_limit(events) || has_limit_above(events, version)
}

fn has_limit<V: Version>(events: &[Placed<V>]) -> bool
    ensures { result ≡ list_any is_limit events.now }
{
    events.iter().any(|event| is_limit(event))
}

fn has_limit_above<V: Version>(events: &[Placed<V>], version: &V) -> bool
    ensures { result ≡ list_any (is_limit_above (on V.text (version_cmp_of V.kind)) version.now) events.now }
{
    events.iter().any(|event| is_limit_above(event, version))
}

fn is_limit<V: Version>(event: &Placed<V>) -> bool
    ensures { result ≡ is_limit event.now }
{
    matches!(event, Placed::Limit(_))
}

fn is_limit_above<V: Version>(event: &Placed<V>, version: &V) -> bool
    ensures { result ≡ is_limit_above (on V.text (version_cmp_of V.kind)) version.now event.now }
{
    match event {
        Placed::Limit(Bound::Start) => false,
        Placed::Limit(Bound::At(limit)) => version.compare(limit).is_lt(),
        Placed::Limit(Bound::End) => true,
        _ => false,
    }
}

/// The latest introduction up to the version.
fn last_start<'a, V: Version>(events: &'a [Placed<V>], version: &V) -> Option<&'a Bound<V>>
    ensures { option_copied result ≡ last_start (on V.text (version_cmp_of V.kind)) version.now None events.now }
{
    let mut best = None;
    let mut remaining = events;
    while let [event, rest @ ..] = remaining {
        best = later_start(best, event, version);
        remaining = rest;
    }
    best
}

fn later_start<'a, V: Version>(
    best: Option<&'a Bound<V>>,
    event: &'a Placed<V>,
    version: &V,
) -> Option<&'a Bound<V>>
    ensures { option_copied result ≡ later_start (on V.text (version_cmp_of V.kind)) version.now (option_copied best.entry) event.now }
{
    match event {
        Placed::Introduced(start) if compare_to(start, version).is_le() => Some(later_of(
            start, best,
        )),
        _ => best,
    }
}

fn later_of<'a, V: Version>(start: &'a Bound<V>, best: Option<&'a Bound<V>>) -> &'a Bound<V>
    ensures { result.now ≡ later_of (on V.text (version_cmp_of V.kind)) start.now (option_copied best.entry) }
{
    match best {
        Some(bound) if compare_bounds(bound, start).is_ge() => bound,
        _ => start,
    }
}

/// Whether what came in at `start` is still there at the version.
fn lasts<V: Version>(events: &[Placed<V>], start: Option<&Bound<V>>, version: &V) -> bool
    ensures { result ≡ lasts (on V.text (version_cmp_of V.kind)) events.now version.now (option_copied start.entry) }
{
    match start {
        Some(from) => !is_ended(events, from, version),
        None => false,
    }
}

fn is_ended<V: Version>(events: &[Placed<V>], from: &Bound<V>, version: &V) -> bool
    ensures { result ≡ list_any (ends (on V.text (version_cmp_of V.kind)) from.now version.now) events.now }
{
    events.iter().any(|event| ends(event, from, version))
}

fn ends<V: Version>(event: &Placed<V>, from: &Bound<V>, version: &V) -> bool
    ensures { result ≡ ends (on V.text (version_cmp_of V.kind)) from.now version.now event.now }
{
    match event {
        Placed::Fixed(fix) => compare_to(from, fix).is_lt() && fix.compare(version).is_le(),
        Placed::LastAffected(last) => compare_to(from, last).is_le()
            && last.compare(version).is_lt(),
        _ => false,
    }
}

/// How the bound stands to the version.
fn compare_to<V: Version>(bound: &Bound<V>, version: &V) -> Ordering
    ensures { result ≡ bound_cmp (on V.text (version_cmp_of V.kind)) bound.now (Bound.At version.now) }
{
    match bound {
        Bound::Start => Ordering::Less,
        Bound::At(at) => at.compare(version),
        Bound::End => Ordering::Greater,
    }
}

fn compare_bounds<V: Version>(a: &Bound<V>, b: &Bound<V>) -> Ordering
    ensures { result ≡ bound_cmp (on V.text (version_cmp_of V.kind)) a.now b.now }
{
    match (a, b) {
        (_, Bound::At(version)) => compare_to(a, version),
        (Bound::Start, Bound::Start) | (Bound::End, Bound::End) => Ordering::Equal,
        (_, Bound::Start) => Ordering::Greater,
        (_, Bound::End) => Ordering::Less,
    }
}

fn least_fix<V: Version>(events: &[Placed<V>], version: &V) -> Option<usize>
    ensures { let all = map (event_text V.text) events.now in result ≡ position_from (is_least_fix (version_cmp_of V.kind) all (V.text version.now)) 0 all }
{
    least_place(events, version)
}

fn least_place<V: Version>(events: &[Placed<V>], version: &V) -> Option<usize>
    ensures { result ≡ least_place (on V.text (version_cmp_of V.kind)) version.now None 0 events.now }
{
    let mut best = None;
    for (place, event) in events.iter().enumerate() {
        best = lesser_fix(best, place, event, version);
    }
    place_of(best)
}

fn place_of<V>(fix: Option<Fix<'_, V>>) -> Option<usize>
    ensures { result ≡ option_map (λ (f : ℕ × V). f.0) (option_map numbered fix.entry) }
{
    match fix {
        Some(fix) => Some(fix.place),
        None => None,
    }
}

/// A fix by its place among the events.
#[derive(Drop)]
struct Fix<'a, V> {
    place: usize,
    version: &'a V,
}

fn lesser_fix<'a, V: Version>(
    best: Option<Fix<'a, V>>,
    place: usize,
    event: &'a Placed<V>,
    version: &V,
) -> Option<Fix<'a, V>>
    ensures { option_map numbered result ≡ lesser_fix (on V.text (version_cmp_of V.kind)) version.now (option_map numbered best.entry) place event.now }
{
    match event {
        Placed::Fixed(fix) if version.compare(fix).is_lt() => Some(lesser_of(best, place, fix)),
        _ => best,
    }
}

fn lesser_of<'a, V: Version>(best: Option<Fix<'a, V>>, place: usize, fix: &'a V) -> Fix<'a, V>
    ensures { numbered result ≡ lesser_of (on V.text (version_cmp_of V.kind)) (option_map numbered best.entry) place fix.now }
{
    match best {
        Some(least) if !fix.compare(least.version).is_lt() => least,
        _ => Fix {
            place,
            version: fix,
        },
    }
}
