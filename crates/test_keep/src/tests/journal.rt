use cv_base::{NoMemory, Seq};
use cv_keep::{Journal, KeepError, MemDisk};
use std::test::Fail;

/// The records `one` and `two`, with the closed gate.
const TWO: [u8; 25] = [
    1, 0, 0, 0, 0, 0, 0, 0, 3, 111, 110, 101, 1, 0, 0, 0, 0, 0, 0, 0, 3, 116, 119, 111, 0,
];

/// The record `one` with the closed gate.
const ONE: [u8; 13] = [1, 0, 0, 0, 0, 0, 0, 0, 3, 111, 110, 101, 0];

/// A disk with these bytes, which refuses the calls past the last one.
fn disk_of(rt: &HostRuntime, bytes: &[u8], last: u64) -> Result<MemDisk, NoMemory> {
    let alloc = rt.alloc();
    let bytes = Seq::of(bytes.to_vec(alloc)?);
    Ok(MemDisk::new(alloc, bytes, Seq::of(Vec::new(alloc)), last))
}

#[test]
fn records_are_appended(rt: HostRuntime) -> Result<(), Fail> {
    let mut disk = disk_of(&rt, &[], u64::MAX)?;
    let mut journal = Journal::open(&mut disk)?;
    journal.append(rt.alloc(), &mut disk, b"one")?;
    journal.append(rt.alloc(), &mut disk, b"two")?;
    assert_eq!(rt; disk.bytes(), TWO.as_slice());
    assert_eq!(rt; disk.crashed()?.bytes(), TWO.as_slice());
    Ok(())
}

#[test]
fn the_first_record_is_read(rt: HostRuntime) -> Result<(), Fail> {
    let mut disk = disk_of(&rt, &TWO, u64::MAX)?;
    let journal = Journal::open(&mut disk)?;
    let found = journal.read(rt.alloc(), &mut disk, 0)?;
    let Some(kept) = found else {
        return Err(Fail::from("there is no record"));
    };
    assert_eq!(rt; kept.bytes.as_slice(), b"one".as_slice());
    assert_eq!(rt; kept.next, 12);
    Ok(())
}

/// What stands after the closed gate is cut: a torn record, an open gate and other bytes.
#[test]
fn the_end_of_a_file_is_repaired(rt: HostRuntime) -> Result<(), Fail> {
    let alloc = rt.alloc();
    for end in [
        b"\x01\0\0\0\0\0\0\0\x09\x01".as_slice(),
        b"\x01",
        b"\0\x01\x02",
    ] {
        let mut bytes = ONE[..12].to_vec(alloc)?;
        bytes.extend_from_slice(end)?;
        let mut disk = disk_of(&rt, bytes.as_slice(), u64::MAX)?;
        Journal::open(&mut disk)?;
        assert_eq!(rt; disk.bytes(), ONE.as_slice());
    }
    Ok(())
}

/// An open gate alone, and a record without the gate after it.
#[test]
fn a_record_without_its_next_gate_does_not_count(rt: HostRuntime) -> Result<(), Fail> {
    for bytes in [[1u8].as_slice(), &ONE[..12]] {
        let mut disk = disk_of(&rt, bytes, u64::MAX)?;
        Journal::open(&mut disk)?;
        assert_eq!(rt; disk.bytes(), [0u8].as_slice());
    }
    Ok(())
}

/// An opening makes six calls, and an append four. Each of these four is refused in turn, as are all after it.
#[test]
fn an_append_is_cut_short(rt: HostRuntime) -> Result<(), Fail> {
    for (last, want) in [
        (6, ONE.as_slice()),
        (7, ONE.as_slice()),
        (8, TWO.as_slice()),
        (9, TWO.as_slice()),
    ] {
        let mut disk = disk_of(&rt, &ONE, last)?;
        let mut journal = Journal::open(&mut disk)?;
        let done = journal.append(rt.alloc(), &mut disk, b"two");
        assert_eq!(rt; done, Err(KeepError::DiskFault), "after {last} calls");
        assert!(rt; journal.is_failed(), "after {last} calls");
        let mut disk = disk.crashed()?;
        Journal::open(&mut disk)?;
        assert_eq!(rt; disk.bytes(), want, "after {last} calls");
    }
    Ok(())
}
