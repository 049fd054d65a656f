use cv_advdb::{AdvError, Feeds, PatchError, Touched};
use cv_base::{Advisory, Affected, NoMemory, PackageKind, PackageName, Seq, Text};
use std::alloc::Global;
use std::test::Fail;

fn name(alloc: Global, text: &str) -> Result<PackageName, NoMemory> {
    Ok(PackageName {
        ecosystem: Text::of(alloc, "Debian:12")?,
        name: Text::of(alloc, text)?,
    })
}

/// A record with one entry, about a package of Debian 12.
fn record(alloc: Global, row: &(&str, &str, &str)) -> Result<Advisory, Fail> {
    let (id, modified, package) = *row;
    let entry = Affected {
        package: Some(name(alloc, package)?),
        ranges: Seq::of(Vec::new(alloc)),
        versions: Seq::of(Vec::new(alloc)),
    };
    Ok(Advisory {
        id: Text::of(alloc, id)?,
        modified: Text::of(alloc, modified)?,
        withdrawn: false,
        affected: Seq::of(vec![in alloc; entry]?),
    })
}

fn records(alloc: Global, rows: &[(&str, &str, &str)]) -> Result<Seq<Advisory>, Fail> {
    let mut all = Vec::new(alloc);
    for row in rows {
        all.push(record(alloc, row)?)?;
    }
    Ok(Seq::of(all))
}

/// The names of the packages whose keys are touched, each before a comma, when the feed has these records from now on.
fn replaced(
    alloc: Global,
    feeds: &mut Feeds,
    feed: &str,
    rows: &[(&str, &str, &str)],
) -> Result<String, Fail> {
    match feeds.replace(alloc, Text::of(alloc, feed)?, records(alloc, rows)?) {
        Ok(touched) => names(alloc, &touched),
        Err(AdvError::TooManyFeeds) => Ok(String::from_str(alloc, "too many")?),
        Err(AdvError::NoMemory) => Err(Fail::from(AdvError::NoMemory)),
    }
}

/// The names of the packages of these keys, each before a comma.
fn names(alloc: Global, touched: &Touched) -> Result<String, Fail> {
    let mut names = String::new(alloc);
    for key in touched.keys.as_slice() {
        names.push_str(key.name.as_str())?;
        names.push(',')?;
    }
    Ok(names)
}

/// A record that is added, removed or changed touches its key. A feed that stands is replaced at the limit, and a new one is not.
#[test]
fn a_replacement_touches_the_keys_of_records_that_differ(rt: HostRuntime) -> Result<(), Fail> {
    let alloc = rt.alloc();
    let before = [
        ("X-3", "1", "zlib"),
        ("X-1", "1", "curl"),
        ("X-2", "1", "bash"),
    ];
    let after = [
        ("X-4", "1", "jq"),
        ("X-1", "1", "curl"),
        ("X-2", "2", "bash"),
    ];
    let mut feeds = Feeds::new(alloc, 1)?;
    for (feed, rows, want) in [
        ("deb", before, "bash,curl,zlib,"),
        ("npm", before, "too many"),
        ("deb", after, "bash,jq,zlib,"),
        ("deb", after, ""),
    ] {
        assert_eq!(rt;
            replaced(alloc, &mut feeds, feed, &rows)?.as_str(),
            want,
            "of {feed}"
        );
    }
    Ok(())
}

/// The feed and the id of each record about the package, each before a comma, of at most four.
fn listed(alloc: Global, feeds: &Feeds, package: &str) -> Result<String, Fail> {
    let key = name(alloc, package)?;
    let mut all = String::new(alloc);
    for index in 0..4 {
        if let Some(listed) = feeds.under(&key, PackageKind::Deb, index) {
            all.push_str(listed.feed.as_str())?;
            all.push(' ')?;
            all.push_str(listed.advisory.id.as_str())?;
            all.push(',')?;
        }
    }
    Ok(all)
}

#[test]
fn records_under_a_key_come_by_feed_and_id(rt: HostRuntime) -> Result<(), Fail> {
    let alloc = rt.alloc();
    let mut feeds = Feeds::new(alloc, 64)?;
    for (feed, rows) in [
        ("b", [("X-2", "1", "curl"), ("X-1", "1", "bash")]),
        ("a", [("X-9", "1", "curl"), ("X-10", "1", "curl")]),
    ] {
        let _touched = replaced(alloc, &mut feeds, feed, &rows)?;
    }
    let copy = feeds.copy()?;
    let listed = listed(alloc, &copy, "curl")?;
    assert_eq!(rt; listed.as_str(), "a X-10,a X-9,b X-2,");
    Ok(())
}

/// The names of the packages whose keys are touched by a patch, each before a comma, or why the feed is not patched.
fn patched(
    alloc: Global,
    feeds: &mut Feeds,
    feed: &str,
    news: Seq<Advisory>,
    remove: &[&str],
) -> Result<String, Fail> {
    let mut ids = Vec::new(alloc);
    for id in remove {
        ids.push(Text::of(alloc, id)?)?;
    }
    match feeds.patch(alloc, &Text::of(alloc, feed)?, news, &ids) {
        Ok(touched) => names(alloc, &touched),
        Err(PatchError::NoFeed) => Ok(String::from_str(alloc, "no feed")?),
        Err(PatchError::TooManyRecords { would }) => Ok(format!(in alloc; "{would} records")?),
        Err(PatchError::NoMemory) => Ok(String::from_str(alloc, "no memory")?),
    }
}

/// A patch removes the record of X-1, and passes over the id that no record has. The others stay.
#[test]
fn a_patch_removes_the_records_of_its_ids(rt: HostRuntime) -> Result<(), Fail> {
    let alloc = rt.alloc();
    let rows = [
        ("X-1", "1", "curl"),
        ("X-2", "1", "curl"),
        ("X-3", "1", "bash"),
    ];
    let mut feeds = Feeds::new(alloc, 1)?;
    let first = replaced(alloc, &mut feeds, "deb", &rows)?;
    assert_eq!(rt; first.as_str(), "bash,curl,");
    let none = Seq::of(Vec::new(alloc));
    let touched = patched(alloc, &mut feeds, "deb", none, &["X-1", "Q"])?;
    assert_eq!(rt; touched.as_str(), "curl,");
    assert_eq!(rt; listed(alloc, &feeds, "curl")?.as_str(), "deb X-2,");
    assert_eq!(rt; listed(alloc, &feeds, "bash")?.as_str(), "deb X-3,");
    Ok(())
}

/// A record of an id that stands takes the place of that one, under the name that it has now, and a copy of the feeds from before
/// is as it was.
#[test]
fn a_patch_replaces_the_records_of_its_ids(rt: HostRuntime) -> Result<(), Fail> {
    let alloc = rt.alloc();
    let rows = [("X-1", "1", "curl"), ("X-2", "1", "bash")];
    let mut feeds = Feeds::new(alloc, 1)?;
    let first = replaced(alloc, &mut feeds, "deb", &rows)?;
    assert_eq!(rt; first.as_str(), "bash,curl,");
    let before = feeds.copy()?;
    let news = records(alloc, &[("X-1", "2", "zlib"), ("X-0", "1", "bash")])?;
    let touched = patched(alloc, &mut feeds, "deb", news, &[])?;
    assert_eq!(rt; touched.as_str(), "bash,curl,zlib,");
    assert_eq!(rt; listed(alloc, &feeds, "curl")?.as_str(), "");
    assert_eq!(rt; listed(alloc, &feeds, "zlib")?.as_str(), "deb X-1,");
    assert_eq!(rt; listed(alloc, &feeds, "bash")?.as_str(), "deb X-0,deb X-2,");
    assert_eq!(rt; listed(alloc, &before, "curl")?.as_str(), "deb X-1,");
    assert_eq!(rt; listed(alloc, &before, "bash")?.as_str(), "deb X-2,");
    Ok(())
}

#[test]
fn a_feed_that_does_not_stand_is_not_patched(rt: HostRuntime) -> Result<(), Fail> {
    let alloc = rt.alloc();
    let mut feeds = Feeds::new(alloc, 1)?;
    let news = records(alloc, &[("X-1", "1", "curl")])?;
    let refused = patched(alloc, &mut feeds, "deb", news, &[])?;
    assert_eq!(rt; refused.as_str(), "no feed");
    assert_eq!(rt; listed(alloc, &feeds, "curl")?.as_str(), "");
    Ok(())
}

/// A record without entries for each number from the first to the one before the last.
fn bare_records(alloc: Global, first: u32, last: u32) -> Result<Seq<Advisory>, Fail> {
    let mut all = Vec::new(alloc);
    for number in first..last {
        let id = format!(in alloc; "N-{number}")?;
        all.push(Advisory {
            id: Text::of(alloc, id.as_str())?,
            modified: Text::of(alloc, "1")?,
            withdrawn: false,
            affected: Seq::of(Vec::new(alloc)),
        })?;
    }
    Ok(Seq::of(all))
}

/// A feed of 200,000 records has no room for one more, and has it where another one goes.
#[test]
fn a_feed_has_at_most_200_000_records(rt: HostRuntime) -> Result<(), Fail> {
    let alloc = rt.alloc();
    let mut feeds = Feeds::new(alloc, 1)?;
    feeds.replace(
        alloc,
        Text::of(alloc, "deb")?,
        bare_records(alloc, 0, 200_000)?,
    )?;
    let one = bare_records(alloc, 200_000, 200_001)?;
    let refused = patched(alloc, &mut feeds, "deb", one, &[])?;
    assert_eq!(rt; refused.as_str(), "200001 records");
    let one = bare_records(alloc, 200_000, 200_001)?;
    let touched = patched(alloc, &mut feeds, "deb", one, &["N-7"])?;
    assert_eq!(rt; touched.as_str(), "");
    Ok(())
}

/// Only a type that threads may share is one for which this can be called.
fn is_shared<T: Send + Sync>() {}

#[test]
fn feeds_are_shared_by_threads() {
    is_shared::<Feeds>();
    is_shared::<Touched>();
    is_shared::<AdvError>();
    is_shared::<PatchError>();
}
