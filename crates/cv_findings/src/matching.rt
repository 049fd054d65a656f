ghost use Rattle.std.specs.Prelude.{◌≡◌, ◌+◌, ◌++◌, ◌≤◌, IfOk, OnOk};
ghost use Rattle.std.specs.List.{flat_map};
ghost use Rattle.std.specs.Option.{option_copied};
ghost use Rattle.cv_match.specs.Findings.{findings};
ghost use Rattle.cv_match.specs.Keys.{is_key, is_named};
ghost use Rattle.cv_match.specs.Prepared.{prepared_for};
ghost use Rattle.cv_findings.specs.Pairs.{about_count, pair_count};
ghost use Rattle.cv_findings.specs.code.Lookup.{found_by, found_once, found_under, is_tried, looked_up, tries_by, tries_once, tries_under};

use cv_advdb::{Feeds, Listed};
use cv_base::{Advisory, Finding, NoMemory, Package, PackageName, Seq, Steps};
use cv_match::{ReadyPackage, in_order, package_keys, prepare_package};
use cv_match_feed::find_one;
use std::alloc::Global;
use std::sync::ledger::Ledger;

/// The findings of packages with the records of all feeds: each package with each record that affects it, sorted by package,
/// feed and id of the advisory, each once. Only the records that name a package are tried against it, each once. A try is a step,
/// and it looks up one key in all feeds.
pub fn match_all<L: Ledger>(
    alloc: Global,
    packages: &[Package],
    feeds: &Feeds,
    steps: &mut Steps<L>,
) -> Result<Seq<Finding>, NoMemory>
    ensures found { IfOk result (λ out. out ≡ findings packages.now feeds.now.feeds) }
    ensures counted { steps.new ≤ steps.old + pair_count packages.now feeds.now.feeds }
{
    feeds.sorted_law();
    let found = match_each(alloc, packages, feeds, steps)?;
    in_order(alloc, found)
}

/// The unsorted findings, package by package.
fn match_each<L: Ledger>(
    alloc: Global,
    packages: &[Package],
    feeds: &Feeds,
    steps: &mut Steps<L>,
) -> Result<Vec<Finding>, NoMemory>
    ensures found { IfOk result (λ out. out.items ≡ flat_map (looked_up feeds.now.feeds) packages.now) }
    ensures counted { steps.new ≤ steps.old + pair_count packages.now feeds.now.feeds }
{
    let mut out = Vec::new(alloc);
    for package in packages {
        match_package(alloc, &mut out, package, feeds, steps)?;
    }
    Ok(out)
}

/// Adds the findings of a package.
pub fn match_package<L: Ledger>(
    alloc: Global,
    out: &mut Vec<Finding>,
    package: &Package,
    feeds: &Feeds,
    steps: &mut Steps<L>,
) -> Result<(), NoMemory>
    ensures found { OnOk result (out.new.items ≡ out.old.items ++ looked_up feeds.now.feeds «package».now) }
    ensures counted { steps.new ≤ steps.old + about_count feeds.now.feeds «package».now }
{
    let prepared = prepare_package(alloc, package)?;
    let keys = package_keys(alloc, package)?;
    match_keys(
        alloc,
        out,
        package,
        &prepared,
        feeds,
        keys.as_slice(),
        steps,
    )
}

/// Adds the findings of a package with the records under its keys. A record under both keys is tried once.
fn match_keys<L: Ledger>(
    alloc: Global,
    out: &mut Vec<Finding>,
    package: &Package,
    prepared: &ReadyPackage,
    feeds: &Feeds,
    keys: &[PackageName],
    steps: &mut Steps<L>,
) -> Result<(), NoMemory>
    requires { prepared.now ≡ «package».now }
    ensures found { OnOk result (out.new.items ≡ out.old.items ++ found_by feeds.now.feeds «package».now keys.now) }
    ensures counted { steps.new ≤ steps.old + tries_by feeds.now.feeds keys.now }
{
    let [whole, others @ ..] = keys else {
        return Ok(());
    };
    match_key(alloc, out, package, prepared, feeds, None, whole, steps)?;
    let [family, ..] = others else {
        return Ok(());
    };
    match_key(
        alloc,
        out,
        package,
        prepared,
        feeds,
        Some(whole),
        family,
        steps,
    )
}

/// Adds the findings of a package with the records under a key, without those that were tried under an earlier key.
fn match_key<L: Ledger>(
    alloc: Global,
    out: &mut Vec<Finding>,
    package: &Package,
    prepared: &ReadyPackage,
    feeds: &Feeds,
    earlier: Option<&PackageName>,
    key: &PackageName,
    steps: &mut Steps<L>,
) -> Result<(), NoMemory>
    requires { prepared.now ≡ «package».now }
    ensures found { OnOk result (out.new.items ≡ out.old.items ++ found_under feeds.now.feeds «package».now (option_copied earlier.entry) key.now) }
    ensures counted { steps.new ≤ steps.old + tries_under feeds.now.feeds (option_copied earlier.entry) key.now }
{
    let mut index: u64 = 0;
    while let Some(listed) = feeds.under(key, package.kind, index) {
        match_listed(alloc, out, package, prepared, earlier, &listed, steps)?;
        index = next_index(index)?;
    }
    Ok(())
}

/// The next index. Out of memory at the highest one, which no list in memory reaches.
fn next_index(index: u64) -> Result<u64, NoMemory>
    ensures { IfOk result (λ next. next ≡ index + 1) }
{
    index.checked_add(1).ok_or(NoMemory)
}

/// Adds the finding of a package with a record, if it affects the package and was not tried under an earlier key.
fn match_listed<L: Ledger>(
    alloc: Global,
    out: &mut Vec<Finding>,
    package: &Package,
    prepared: &ReadyPackage,
    earlier: Option<&PackageName>,
    listed: &Listed<'_>,
    steps: &mut Steps<L>,
) -> Result<(), NoMemory>
    requires prepared { prepared.now ≡ «package».now }
    requires prepared_record { listed.now.ready.now ≡ prepared_for «package».now.kind listed.now.advisory.now }
    ensures found { OnOk result (out.new.items ≡ out.old.items ++ found_once (option_copied earlier.entry) «package».now (listed.now.feed.now, listed.now.advisory.now)) }
    ensures counted { steps.new ≤ steps.old + tries_once (option_copied earlier.entry) (listed.now.feed.now, listed.now.advisory.now) }
{
    if is_tried(earlier, listed.advisory) {
        return Ok(());
    }
    let (feed, advisory, prepared_record) = (listed.feed, listed.advisory, listed.ready);
    if let Some(finding) = find_one(
        alloc,
        package,
        prepared,
        feed,
        advisory,
        prepared_record,
        steps,
    )? {
        out.push(finding)?;
    }
    Ok(())
}

fn is_tried(earlier: Option<&PackageName>, advisory: &Advisory) -> bool
    ensures { result ≡ is_tried (option_copied earlier.entry) advisory.now }
{
    match earlier {
        Some(key) => is_named(key, advisory),
        None => false,
    }
}

/// Whether a record has an entry about the package of this name.
fn is_named(key: &PackageName, advisory: &Advisory) -> bool
    ensures { result ≡ is_named key.now advisory.now }
{
    advisory
        .affected
        .as_slice()
        .iter()
        .any(|entry| is_key(key, &entry.package))
}

fn is_key(key: &PackageName, named: &Option<PackageName>) -> bool
    ensures { result ≡ is_key key.now named.now }
{
    match named {
        Some(name) => name.cmp(key).is_eq(),
        None => false,
    }
}
