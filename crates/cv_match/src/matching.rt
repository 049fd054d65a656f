ghost use Rattle.std.specs.Prelude.{◌≡◌, map, option_map};
ghost use Rattle.std.specs.List.{list_any, position_from, slice_get};
ghost use Rattle.std.specs.Option.{option_and_then};
ghost use Rattle.cv_base.specs.Texts.{same};
ghost use Rattle.cv_match.specs.Affects.{matches_ecosystem};
ghost use Rattle.cv_match.specs.code.Hit.{entry_holds, entry_lists, fixed_at, fixed_in, hit_listed, hit_of, hit_within, key_matches};
ghost use Rattle.cv_match.specs.code.Entries.{entry_text};
ghost use Rattle.cv_match_range.specs.Order.{version_cmp_of};
ghost use Rattle.cv_match_range.specs.ReadRange.{range_holds, range_text};

use crate::answer::{FixedAt, Hit};
use crate::entry::PreparedEntry;
use crate::key::{PackageKey, family};
use cv_base::{PackageName, Seq, Text};
use cv_match_range::{Placed, Version, fix_in, range_holds};

/// The answer of a record's entries about a package. `version` is `None` if the text of the package is not a
/// valid version.
pub(crate) fn hit<V: Version>(
    entries: &[PreparedEntry<V>],
    key: &PackageKey,
    version: &Option<V>,
) -> Hit
    ensures { result ≡ hit_of V.kind key.now (option_map V.text version.now) (map (entry_text V.text) entries.now) }
{
    match version {
        Some(version) => hit_within(entries, key, version, first_entry(entries, key, version)),
        None => hit_listed(entries, key),
    }
}

#[tactic(auto, using(cv_match_range::proofs::Mapped::get_map))]
fn hit_within<V: Version>(
    entries: &[PreparedEntry<V>],
    key: &PackageKey,
    version: &V,
    first: Option<usize>,
) -> Hit
    ensures { result ≡ hit_within (version_cmp_of V.kind) key.now (V.text version.now) (map (entry_text V.text) entries.now) first }
{
    match first {
        Some(place) => Hit::Yes {
            fixed: fixed_at_place(entries, place, version),
        },
        None => hit_listed(entries, key),
    }
}

#[tactic(auto, using(cv_match_range::proofs::Mapped::get_map))]
fn fixed_at_place<V: Version>(
    entries: &[PreparedEntry<V>],
    place: usize,
    version: &V,
) -> Option<FixedAt>
    ensures { result ≡ option_and_then (fixed_at (version_cmp_of V.kind) (V.text version.now) place) (slice_get (map (entry_text V.text) entries.now) place) }
{
    match entries.get(place) {
        Some(entry) => fixed_at(place, entry, version),
        None => None,
    }
}

#[tactic(auto, using(crate::proofs::Mapped::any_entries))]
fn hit_listed<V: Version>(entries: &[PreparedEntry<V>], key: &PackageKey) -> Hit
    ensures { result ≡ hit_listed key.now (map (entry_text V.text) entries.now) }
{
    if is_listed(entries, key) {
        Hit::Yes { fixed: None }
    } else {
        Hit::No
    }
}

fn is_listed<V: Version>(entries: &[PreparedEntry<V>], key: &PackageKey) -> bool
    ensures { result ≡ list_any (λ entry. entry_lists key.now (entry_text V.text entry)) entries.now }
{
    entries.iter().any(|entry| entry_lists(entry, key))
}

/// The first entry about the package that has the version within a range.
fn first_entry<V: Version>(
    entries: &[PreparedEntry<V>],
    key: &PackageKey,
    version: &V,
) -> Option<usize>
    ensures { result ≡ position_from (entry_holds (version_cmp_of V.kind) key.now (V.text version.now)) 0 (map (entry_text V.text) entries.now) }
{
    entry_place(entries, key, version)
}

fn entry_place<V: Version>(
    entries: &[PreparedEntry<V>],
    key: &PackageKey,
    version: &V,
) -> Option<usize>
    ensures { result ≡ position_from (λ entry. entry_holds (version_cmp_of V.kind) key.now (V.text version.now) (entry_text V.text entry)) 0 entries.now }
{
    entries
        .iter()
        .position(|entry| entry_holds(entry, key, version))
}

fn entry_lists<V: Version>(entry: &PreparedEntry<V>, key: &PackageKey) -> bool
    ensures { result ≡ entry_lists key.now (entry_text V.text entry.now) }
{
    key_matches(&entry.package, key) && contains_text(entry.versions.as_slice(), &key.version)
}

fn contains_text(texts: &[Text], text: &Text) -> bool
    ensures { result ≡ list_any (λ x. same x text.now) texts.now }
{
    texts.iter().any(|x| *x == *text)
}

fn entry_holds<V: Version>(entry: &PreparedEntry<V>, key: &PackageKey, version: &V) -> bool
    ensures { result ≡ entry_holds (version_cmp_of V.kind) key.now (V.text version.now) (entry_text V.text entry.now) }
{
    key_matches(&entry.package, key) && some_range_holds(entry.ranges.as_slice(), version)
}

fn some_range_holds<V: Version>(ranges: &[Option<Seq<Placed<V>>>], version: &V) -> bool
    ensures { result ≡ list_any (range_holds (version_cmp_of V.kind) (V.text version.now)) (map (range_text V.text) ranges.now) }
{
    some_range(ranges, version)
}

fn some_range<V: Version>(ranges: &[Option<Seq<Placed<V>>>], version: &V) -> bool
    ensures { result ≡ list_any (λ range. range_holds (version_cmp_of V.kind) (V.text version.now) (range_text V.text range)) ranges.now }
{
    ranges.iter().any(|range| range_holds(range, version))
}

/// The fixed version of an entry, which has this number: that of its first range that has the version within.
fn fixed_at<V: Version>(place: usize, entry: &PreparedEntry<V>, version: &V) -> Option<FixedAt>
    ensures { result ≡ fixed_at (version_cmp_of V.kind) (V.text version.now) place (entry_text V.text entry.now) }
{
    let ranges = entry.ranges.as_slice();
    match first_range(ranges, version) {
        Some(range) => fixed_in(place, ranges, range, version),
        None => None,
    }
}

#[tactic(auto, using(cv_match_range::proofs::Mapped::get_map))]
fn fixed_in<V: Version>(
    place: usize,
    ranges: &[Option<Seq<Placed<V>>>],
    range: usize,
    version: &V,
) -> Option<FixedAt>
    ensures { result ≡ fixed_in (version_cmp_of V.kind) (V.text version.now) place (map (range_text V.text) ranges.now) range }
{
    match ranges.get(range) {
        Some(events) => at_turn(place, range, fix_in(events, version)),
        None => None,
    }
}

fn at_turn(entry: usize, range: usize, turn: Option<usize>) -> Option<FixedAt>
    ensures { result ≡ option_map (λ place. record { entry = entry; range = range; turn = place }) turn }
{
    match turn {
        Some(turn) => Some(FixedAt {
            entry: entry as u64,
            range: range as u64,
            turn: turn as u64,
        }),
        None => None,
    }
}

fn first_range<V: Version>(ranges: &[Option<Seq<Placed<V>>>], version: &V) -> Option<usize>
    ensures { result ≡ position_from (range_holds (version_cmp_of V.kind) (V.text version.now)) 0 (map (range_text V.text) ranges.now) }
{
    range_place(ranges, version)
}

fn range_place<V: Version>(ranges: &[Option<Seq<Placed<V>>>], version: &V) -> Option<usize>
    ensures { result ≡ position_from (λ range. range_holds (version_cmp_of V.kind) (V.text version.now) (range_text V.text range)) 0 ranges.now }
{
    ranges.iter().position(|range| range_holds(range, version))
}

fn key_matches(package: &Option<PackageName>, key: &PackageKey) -> bool
    ensures { result ≡ key_matches key.now «package».now }
{
    match package {
        Some(name) => name.name == key.name && matches_ecosystem(&name.ecosystem, &key.ecosystem),
        None => false,
    }
}

fn matches_ecosystem(of_record: &Text, of_package: &Text) -> bool
    ensures { result ≡ matches_ecosystem of_record.now of_package.now }
{
    *of_record == *of_package || of_record.as_str() == family(of_package.as_str())
}
