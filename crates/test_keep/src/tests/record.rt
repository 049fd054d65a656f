use cv_base::{Digest, NoMemory, Seq};
use cv_keep_record::{
    KeptBy, KeptEvent, WorkKind, are_numbered, push_line, push_work, read_record,
};
use std::test::Fail;

/// Event 258 is line 3 of lane 1, which is `hi`; event 259 is a fault of worker 2 at a layer whose digest is full of 07.
const BYTES: [u8; 70] = [
    0, 0, 0, 0, 0, 0, 1, 2, 0, 1, 0, 0, 0, 0, 0, 0, 0, 3, 0, 0, 0, 2, 104, 105, 0, 0, 0, 0, 0, 0,
    1, 3, 1, 0, 0, 0, 2, 2, 7, 7, 7, 7, 7, 7, 7, 7, 7, 7, 7, 7, 7, 7, 7, 7, 7, 7, 7, 7, 7, 7, 7, 7,
    7, 7, 7, 7, 7, 7, 7, 7,
];

/// The bytes of the first event.
const LINE: usize = 24;

fn line_event(rt: &HostRuntime) -> Result<KeptEvent, NoMemory> {
    let text = Seq::of(b"hi".as_slice().to_vec(rt.alloc())?);
    let by = KeptBy::Line {
        lane: 1,
        line: 3,
        text,
    };
    Ok(KeptEvent { number: 258, by })
}

fn work_event(kind: WorkKind) -> KeptEvent {
    let by = KeptBy::Work {
        worker: 2,
        kind,
        layer: Digest::of([7; 32]),
    };
    KeptEvent { number: 259, by }
}

#[test]
fn events_are_written(rt: HostRuntime) -> Result<(), Fail> {
    let mut bytes = Vec::new(rt.alloc());
    push_line(&mut bytes, 258, 1, 3, b"hi")?;
    assert_eq!(rt; bytes.as_slice(), &BYTES[..LINE]);
    push_work(&mut bytes, 259, 2, WorkKind::Fault, &Digest::of([7; 32]))?;
    assert_eq!(rt; bytes.as_slice(), BYTES.as_slice());
    Ok(())
}

#[test]
fn events_are_read(rt: HostRuntime) -> Result<(), Fail> {
    let Some(events) = read_record(rt.alloc(), &BYTES)? else {
        return Err(Fail::from("the bytes are a record"));
    };
    let [first, second] = events.as_slice() else {
        return Err(Fail::from("the record has two events"));
    };
    assert!(rt; *first == line_event(&rt)?);
    assert!(rt; *second == work_event(WorkKind::Fault));
    Ok(())
}

/// A record that is cut between its events is one of the first event.
#[test]
fn a_cut_record_is_none(rt: HostRuntime) -> Result<(), Fail> {
    for len in 0..BYTES.len() {
        let found = read_record(rt.alloc(), &BYTES[..len])?;
        assert_eq!(rt; found.is_some(), len == LINE, "of {len} bytes");
    }
    Ok(())
}

#[test]
fn each_kind_has_its_byte(rt: HostRuntime) -> Result<(), Fail> {
    for (byte, kind) in [
        (0, WorkKind::Claim),
        (1, WorkKind::Indexed),
        (2, WorkKind::Fault),
        (3, WorkKind::Memory),
    ] {
        let mut bytes = BYTES;
        bytes[LINE + 13] = byte;
        let Some(events) = read_record(rt.alloc(), &bytes[LINE..])? else {
            return Err(Fail::from("the bytes are a record"));
        };
        let [event] = events.as_slice() else {
            return Err(Fail::from("the record has one event"));
        };
        assert!(rt; *event == work_event(kind), "of byte {byte}");
    }
    Ok(())
}

/// An unknown byte after the number, one for what a worker did, and a length past the end.
#[test]
fn an_unknown_byte_is_none(rt: HostRuntime) -> Result<(), Fail> {
    for (place, byte) in [(8, 2), (LINE + 8, 255), (LINE + 13, 4), (18, 1)] {
        let mut bytes = BYTES;
        bytes[place] = byte;
        assert!(rt; read_record(rt.alloc(), &bytes)?.is_none(), "at {place}");
    }
    Ok(())
}

#[test]
fn trailing_bytes_are_none(rt: HostRuntime) -> Result<(), Fail> {
    let mut bytes = BYTES.as_slice().to_vec(rt.alloc())?;
    for _ in 0..12 {
        bytes.push(0)?;
        assert!(rt; read_record(rt.alloc(), bytes.as_slice())?.is_none());
    }
    Ok(())
}

#[test]
fn numbers_go_on(rt: HostRuntime) -> Result<(), Fail> {
    let Some(events) = read_record(rt.alloc(), &BYTES)? else {
        return Err(Fail::from("the bytes are a record"));
    };
    for (count, want) in [(0, false), (256, false), (257, true), (258, false)] {
        assert_eq!(rt;
            are_numbered(count, events.as_slice()),
            want,
            "after {count}"
        );
    }
    Ok(())
}

#[test]
fn no_number_follows_the_last(rt: HostRuntime) -> Result<(), Fail> {
    let mut bytes = Vec::new(rt.alloc());
    push_line(&mut bytes, 0, 0, 1, b"")?;
    let Some(events) = read_record(rt.alloc(), bytes.as_slice())? else {
        return Err(Fail::from("the bytes are a record"));
    };
    assert!(rt; !are_numbered(u64::MAX, events.as_slice()));
    assert!(rt; !are_numbered(0, events.as_slice()));
    Ok(())
}
