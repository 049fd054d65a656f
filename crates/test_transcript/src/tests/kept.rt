use cv_base::{Digest, NoMemory, Seq};
use cv_core_records::{Act, Answer, By, EventEntry, ReadEntry, Reply};
use cv_keep::{Journal, KeepError, MemDisk};
use cv_keep_record::{KeptBy, KeptEvent, WorkKind, read_record};
use cv_keep_rounds::KeepRounds;
use cv_serve_dealing::{Keeper, NotedLine};
use cv_transcript::Entry;
use std::test::Fail;

/// An empty disk, which refuses the calls past the last one.
fn disk_until(rt: &HostRuntime, last: u64) -> MemDisk {
    let alloc = rt.alloc();
    let none = Seq::of(Vec::new(alloc));
    MemDisk::new(alloc, Seq::of(Vec::new(alloc)), none, last)
}

/// Line 7 of lane 1.
fn by_line() -> Entry {
    Entry::Event(EventEntry {
        number: 1,
        by: By::Lane { lane: 1, line: 7 },
        act: Act::Ack(3),
        reply: Reply::Acked,
    })
}

/// Line 6 of lane 0.
fn read() -> Entry {
    Entry::Read(ReadEntry {
        front: 1,
        lane: 0,
        line: 6,
        answer: Answer::NoMemory,
    })
}

fn claim() -> Entry {
    Entry::Event(EventEntry {
        number: 2,
        by: By::Worker(5),
        act: Act::Claim(Digest::of([7; 32])),
        reply: Reply::Claimed,
    })
}

/// Line 6 is `ho`, and line 7 is `hi`.
fn noted_lines(rt: &HostRuntime) -> Result<Vec<NotedLine>, NoMemory> {
    let alloc = rt.alloc();
    let mut noted = Vec::new(alloc);
    noted.push(NotedLine::new(alloc, 6, b"ho")?)?;
    noted.push(NotedLine::new(alloc, 7, b"hi")?)?;
    Ok(noted)
}

/// The two events as they are kept.
fn kept_events(rt: &HostRuntime) -> Result<Vec<KeptEvent>, NoMemory> {
    let alloc = rt.alloc();
    let text = Seq::of(b"hi".as_slice().to_vec(alloc)?);
    let line = KeptBy::Line {
        lane: 1,
        line: 7,
        text,
    };
    let work = KeptBy::Work {
        worker: 5,
        kind: WorkKind::Claim,
        layer: Digest::of([7; 32]),
    };
    Ok(vec![in alloc;
        KeptEvent {
            number: 1,
            by: line
        },
        KeptEvent {
            number: 2,
            by: work
        },
    ]?)
}

#[test]
fn the_events_of_a_round_are_one_record(rt: HostRuntime) -> Result<(), Fail> {
    let alloc = rt.alloc();
    let mut disk = disk_until(&rt, u64::MAX);
    let mut keeper = KeepRounds::new(Journal::open(&mut disk)?);
    let noted = noted_lines(&rt)?;
    let entries = vec![in alloc; by_line(), read(), claim()]?;
    keeper.keep(alloc, &mut disk, noted.as_slice(), entries.as_slice())?;
    // a gate and a length before the record, and a closed gate after it
    let end = disk.bytes().len().saturating_sub(1);
    let Some(record) = disk.bytes().get(9..end) else {
        return Err(Fail::from("there is no record"));
    };
    let Some(events) = read_record(alloc, record)? else {
        return Err(Fail::from("the bytes are a record"));
    };
    assert_eq!(rt; events.as_slice(), kept_events(&rt)?.as_slice());
    Ok(())
}

#[test]
fn a_round_without_events_is_not_kept(rt: HostRuntime) -> Result<(), Fail> {
    let alloc = rt.alloc();
    let mut disk = disk_until(&rt, u64::MAX);
    let mut keeper = KeepRounds::new(Journal::open(&mut disk)?);
    let noted = noted_lines(&rt)?;
    let entries = vec![in alloc; read()]?;
    keeper.keep(alloc, &mut disk, noted.as_slice(), entries.as_slice())?;
    assert_eq!(rt; disk.bytes(), [0u8].as_slice());
    Ok(())
}

/// An opening makes these calls, and then the first one of the append is refused.
#[test]
fn a_fault_of_the_disk_is_remembered(rt: HostRuntime) -> Result<(), Fail> {
    let alloc = rt.alloc();
    let mut whole = disk_until(&rt, u64::MAX);
    Journal::open(&mut whole)?;
    let mut disk = disk_until(&rt, whole.calls().len() as u64);
    let mut keeper = KeepRounds::new(Journal::open(&mut disk)?);
    let noted = noted_lines(&rt)?;
    let entries = vec![in alloc; claim()]?;
    let done = keeper.keep(alloc, &mut disk, noted.as_slice(), entries.as_slice());
    assert_eq!(rt;
        (done, keeper.error()),
        (Err(NoMemory), Some(KeepError::DiskFault))
    );
    Ok(())
}
