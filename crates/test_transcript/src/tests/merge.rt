use cv_base::Seq;
use cv_core_records::{Act, Answer, By, EventEntry, ReadEntry, Reply};
use cv_serve_dealing::merge;
use cv_transcript::Entry;
use std::test::Fail;

fn event(number: u64) -> EventEntry {
    EventEntry {
        number,
        by: By::Worker(0),
        act: Act::Ack(number),
        reply: Reply::Acked,
    }
}

fn read(front: u64, lane: u8, line: u64) -> ReadEntry {
    ReadEntry {
        front,
        lane,
        line,
        answer: Answer::NoMemory,
    }
}

#[test]
fn reads_stand_after_the_event_of_their_front_by_lane_and_line(
    rt: HostRuntime,
) -> Result<(), Fail> {
    let alloc = rt.alloc();
    let events = Seq::of(vec![in alloc; event(1), event(2)]?);
    let first = Seq::of(vec![in alloc; read(1, 0, 4), read(2, 0, 5)]?);
    let second = Seq::of(vec![in alloc; read(0, 1, 1), read(1, 1, 2), read(1, 1, 3)]?);
    let entries = merge(alloc, events, Seq::of(vec![in alloc; first, second]?))?;
    let want = vec![in alloc;
        Entry::Read(read(0, 1, 1)),
        Entry::Event(event(1)),
        Entry::Read(read(1, 0, 4)),
        Entry::Read(read(1, 1, 2)),
        Entry::Read(read(1, 1, 3)),
        Entry::Event(event(2)),
        Entry::Read(read(2, 0, 5)),
    ]?;
    assert_eq!(rt; entries.as_slice(), want.as_slice());
    Ok(())
}

#[test]
fn a_lane_without_reads_adds_nothing(rt: HostRuntime) -> Result<(), Fail> {
    let alloc = rt.alloc();
    let events = Seq::of(vec![in alloc; event(3)]?);
    let first = Seq::of(Vec::new(alloc));
    let second = Seq::of(vec![in alloc; read(2, 1, 1)]?);
    let entries = merge(alloc, events, Seq::of(vec![in alloc; first, second]?))?;
    let want = vec![in alloc; Entry::Read(read(2, 1, 1)), Entry::Event(event(3))]?;
    assert_eq!(rt; entries.as_slice(), want.as_slice());
    Ok(())
}

#[test]
fn a_round_without_events_and_lanes_has_no_entries(rt: HostRuntime) -> Result<(), Fail> {
    let alloc = rt.alloc();
    let entries = merge(alloc, Seq::of(Vec::new(alloc)), Seq::of(Vec::new(alloc)))?;
    assert!(rt; entries.as_slice().is_empty());
    Ok(())
}
