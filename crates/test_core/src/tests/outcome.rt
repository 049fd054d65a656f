ghost use Rattle.std.specs.Prelude.{◌≡◌, ◌<◌};

use crate::tests::samples::{digest, flawed_feeds, outcomes};
use cv_base::{Digest, Reason, Row, Seq, Steps, Text};
use cv_core_outcome::{Findings, Outcome, Rematch};
use cv_tree::Tree;
use std::alloc::Global;
use std::marker::Brand;
use std::sync::ledger::{Blank, Ledger};
use std::test::Fail;
use test_data::finding_text;

/// How many outcomes there are after an update by the record of a flaw, and the rows of it.
fn updated<L: Ledger>(blank: Blank, alloc: Global) -> Result<(u64, Vec<Row>), Fail>
    requires name { blank.name ≡ L.name }
    requires parts { blank.parts ≡ L.parts }
    requires has_parts { 0 < L.parts }
{
    let mut steps = Steps::<L>::open(blank);
    let before = outcomes(alloc, &mut steps)?;
    let (feeds, touched) = flawed_feeds(alloc)?;
    let mut rows = Vec::new(alloc);
    let maker = Rematch::<L>::new(&feeds, &touched);
    let after = before.remake(alloc, &maker, &mut rows, &mut steps)?;
    Ok((after.len(), rows))
}

#[test]
fn an_update_matches_images_and_adds_rows(rt: HostRuntime) -> Result<(), Fail> {
    let (outcomes, rows) = updated::<Brand>(Blank::new(1), rt.alloc())?;
    assert_eq!(rt; outcomes, 2);
    let [row] = rows.as_slice() else {
        return Err(Fail::from("there is not one row"));
    };
    assert!(rt; row.image == digest(1));
    assert_eq!(rt; row.reason, Reason::Added);
    let want = "Deb var/lib/dpkg/status curl 1 of curl 1 amd64 Debian:12: deb X-1, fixed in 2";
    assert_eq!(rt; finding_text(rt.alloc(), &row.finding)?.as_str(), want);
    Ok(())
}

/// The rows of a patch that removes the record of a flaw, after an update by it.
fn patched<L: Ledger>(blank: Blank, alloc: Global) -> Result<Vec<Row>, Fail>
    requires name { blank.name ≡ L.name }
    requires parts { blank.parts ≡ L.parts }
    requires has_parts { 0 < L.parts }
{
    let mut steps = Steps::<L>::open(blank);
    let before = outcomes(alloc, &mut steps)?;
    let (mut feeds, touched) = flawed_feeds(alloc)?;
    let mut rows = Vec::new(alloc);
    let maker = Rematch::<L>::new(&feeds, &touched);
    let flawed = before.remake(alloc, &maker, &mut rows, &mut steps)?;
    let remove = vec![in alloc; Text::of(alloc, "X-1")?]?;
    let none = Seq::of(Vec::new(alloc));
    let touched = feeds.patch(alloc, &Text::of(alloc, "deb")?, none, &remove)?;
    let mut rows = Vec::new(alloc);
    let maker = Rematch::<L>::new(&feeds, &touched);
    flawed.remake(alloc, &maker, &mut rows, &mut steps)?;
    Ok(rows)
}

#[test]
fn a_patch_that_removes_a_record_tells_what_goes(rt: HostRuntime) -> Result<(), Fail> {
    let rows = patched::<Brand>(Blank::new(1), rt.alloc())?;
    let [row] = rows.as_slice() else {
        return Err(Fail::from("there is not one row"));
    };
    assert!(rt; row.image == digest(1));
    assert_eq!(rt; row.reason, Reason::Removed);
    Ok(())
}

/// Only a type that threads may share is one for which this can be called.
fn is_shared<T: Send + Sync>() {}

#[test]
fn threads_may_share_outcomes() {
    is_shared::<(Outcome, Findings, Tree<Digest, Outcome>)>();
}
