use crate::tests::records::{Part, disk_over, file_of};
use crate::tests::starts::{report_of_submitted, started};
use cv_base::Seq;
use cv_keep::Journal;
use cv_keep_record::WorkKind;
use cv_keep_replay::{ReplayError, Resumed};
use std::test::Fail;

fn resumed(events: u64, generation: u64) -> Result<Resumed, ReplayError> {
    Ok(Resumed { events, generation })
}

#[test]
fn an_empty_file_is_a_start_before_all_events(rt: HostRuntime) -> Result<(), Fail> {
    let alloc = rt.alloc();
    let mut disk = file_of(alloc, &[])?;
    let start = started(&rt, alloc, &mut disk, Seq::of(Vec::new(alloc)))?;
    assert_eq!(rt; start.end, resumed(0, 0));
    assert_eq!(rt; start.report.as_str(), "Err(NotRegistered)");
    Ok(())
}

/// The worker of the records has the greatest number that there is, and the hub has no seat for a worker.
#[test]
fn a_start_goes_on_where_the_records_end(rt: HostRuntime) -> Result<(), Fail> {
    let alloc = rt.alloc();
    let mut disk = file_of(
        alloc,
        &[
            &[Part::Register(1, 0)],
            &[
                Part::Work(2, 7, WorkKind::Claim),
                Part::Work(3, 7, WorkKind::Indexed),
            ],
            &[Part::Update(4, 0)],
        ],
    )?;
    let start = started(&rt, alloc, &mut disk, Seq::of(Vec::new(alloc)))?;
    assert_eq!(rt; start.end, resumed(4, 1));
    let report = report_of_submitted(&rt, alloc)?;
    assert_eq!(rt; start.report.as_str(), report.as_str());
    Ok(())
}

/// A number is skipped; a lane that the line does not name; a read; a ninth worker; a layer that stays claimed; a record without
/// events; and one whose last text is cut.
#[test]
fn the_first_bad_record_is_named(rt: HostRuntime) -> Result<(), Fail> {
    let first: &[Part] = &[Part::Register(1, 0)];
    let ninth: &[Part] = &[
        Part::Work(2, 8, WorkKind::Claim),
        Part::Work(3, 8, WorkKind::Fault),
    ];
    let claim: &[Part] = &[Part::Work(3, 0, WorkKind::Claim)];
    let cases: [(&[&[Part]], u64); 7] = [
        (&[first, &[Part::Update(3, 0)]], 1),
        (&[&[Part::Register(1, 1)]], 0),
        (&[first, &[Part::List(2, 0)]], 1),
        (&[first, ninth], 1),
        (&[first, &[Part::Update(2, 0)], claim], 2),
        (&[&[]], 0),
        (&[first, &[Part::Update(2, 0), Part::Cut]], 1),
    ];
    for (records, k) in cases {
        let mut disk = file_of(rt.alloc(), records)?;
        let start = started(&rt, rt.alloc(), &mut disk, Seq::of(Vec::new(rt.alloc())))?;
        assert_eq!(rt; start.end, Err(ReplayError::BadKeep(k)));
    }
    Ok(())
}

#[test]
fn a_desk_that_fails_ends_a_start(rt: HostRuntime) -> Result<(), Fail> {
    let alloc = rt.alloc();
    let mut disk = file_of(
        alloc,
        &[
            &[Part::Register(1, 0)],
            &[
                Part::Work(2, 0, WorkKind::Claim),
                Part::Work(3, 0, WorkKind::Indexed),
            ],
        ],
    )?;
    let start = started(&rt, alloc, &mut disk, Seq::of(vec![in alloc; 1]?))?;
    assert_eq!(rt; start.end, Err(ReplayError::DeskFault));
    Ok(())
}

/// The disk refuses all calls after those that open the file.
#[test]
fn a_disk_that_fails_ends_a_start(rt: HostRuntime) -> Result<(), Fail> {
    let alloc = rt.alloc();
    let file = file_of(alloc, &[&[Part::Register(1, 0)]])?;
    let mut calm = disk_over(alloc, file.bytes(), u64::MAX)?;
    Journal::open(&mut calm)?;
    let calls = calm.calls().len() as u64;
    let mut disk = disk_over(alloc, file.bytes(), calls)?;
    let start = started(&rt, alloc, &mut disk, Seq::of(Vec::new(alloc)))?;
    assert_eq!(rt; start.end, Err(ReplayError::KeepFault));
    Ok(())
}
