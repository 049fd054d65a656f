use cv_base::{Finding, NoMemory, Text};
use cv_match::in_order;
use std::alloc::Global;
use std::test::Fail;
use test_data::debian_package;

/// The name of a package, the feed, the advisory and the fixed version.
type FindingRow = (&'static str, &'static str, &'static str, &'static str);

/// Two of package, feed and advisory stand twice.
const GIVEN: &[FindingRow] = &[
    ("zlib", "a", "X-2", "2"),
    ("libssl3", "b", "X-1", "3"),
    ("zlib", "a", "X-10", "2"),
    ("zlib", "a", "X-1", "2"),
    ("libssl3", "a", "X-9", "3"),
    ("zlib", "a", "X-2", "4"),
    ("zlib", "a", "X-10", "2"),
];

/// By bytes of the texts. Of findings that are the same by package, feed and advisory the last one stays.
const SORTED: &str = "\
libssl3 a X-9 3
libssl3 b X-1 3
zlib a X-1 2
zlib a X-10 2
zlib a X-2 4
";

fn finding(alloc: Global, row: &FindingRow) -> Result<Finding, Fail> {
    let (name, feed, advisory, fixed) = *row;
    Ok(Finding {
        package: debian_package(alloc, name)?,
        feed: Text::of(alloc, feed)?,
        advisory: Text::of(alloc, advisory)?,
        fixed: Some(Text::of(alloc, fixed)?),
    })
}

/// The name of a package, the feed, the advisory and the fixed version.
fn line(alloc: Global, finding: &Finding) -> Result<String, NoMemory> {
    let fixed = match &finding.fixed {
        Some(text) => text.as_str(),
        None => "none",
    };
    let (name, feed) = (finding.package.name.as_str(), finding.feed.as_str());
    let advisory = finding.advisory.as_str();
    Ok(format!(in alloc; "{name} {feed} {advisory} {fixed}\n")?)
}

/// The findings of these rows in order, a line each.
fn sorted(alloc: Global, rows: &[FindingRow]) -> Result<String, Fail> {
    let mut found = Vec::new(alloc);
    for row in rows {
        found.push(finding(alloc, row)?)?;
    }
    let mut lines = String::new(alloc);
    for finding in in_order(alloc, found)?.as_slice() {
        lines.push_str(line(alloc, finding)?.as_str())?;
    }
    Ok(lines)
}

#[test]
fn findings_are_sorted_by_package_feed_and_advisory_each_once(rt: HostRuntime) -> Result<(), Fail> {
    assert_eq!(rt; sorted(rt.alloc(), GIVEN)?.as_str(), SORTED);
    assert_eq!(rt; sorted(rt.alloc(), &[])?.as_str(), "");
    Ok(())
}
