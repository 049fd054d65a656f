use cv_base::{Digest, NoMemory, Seq};
use cv_keep::{Journal, MemDisk};
use cv_keep_record::{WorkKind, push_line, push_work};
use std::alloc::Global;
use std::test::Fail;

/// Registers the image, of one layer. It names no lane, so it is of lane 0.
const REGISTER: &[u8] =
    br#"{"do":"register","manifest":{"hash":"sha256:1111111111111111111111111111111111111111111111111111111111111111","layers":[{"hash":"sha256:aaaaaaaaaaaaaaaaaaaaaaaaaaaaaaaaaaaaaaaaaaaaaaaaaaaaaaaaaaaaaaaa"}]}}"#;

/// A feed whose record affects the package of the layer.
const UPDATE: &[u8] =
    br#"{"do":"update","feed":"npm","advisories":[{"id":"X-1","modified":"2024-01-01T00:00:00Z","affected":[{"package":{"ecosystem":"npm","name":"x"},"ranges":[{"type":"SEMVER","events":[{"introduced":"0"},{"fixed":"1.1.0"}]}]}]}]}"#;

/// A read, which is no event.
const LIST: &[u8] = br#"{"do":"list"}"#;

/// The hash of the image.
pub fn image() -> Digest {
    Digest::of([0x11; 32])
}

/// The layer of the image.
pub fn layer() -> Digest {
    Digest::of([0xaa; 32])
}

/// What is added to a record: a request line with the number of its event and its lane, what a worker did with the layer, or nothing,
/// as the last byte is taken away.
#[derive(Clone, Copy)]
pub enum Part {
    Register(u64, u8),
    Update(u64, u8),
    List(u64, u8),
    Work(u64, u32, WorkKind),
    Cut,
}

fn add(bytes: &mut Vec<u8>, part: &Part) -> Result<(), NoMemory> {
    match part {
        Part::Register(number, lane) => push_line(bytes, *number, *lane, 1, REGISTER),
        Part::Update(number, lane) => push_line(bytes, *number, *lane, 1, UPDATE),
        Part::List(number, lane) => push_line(bytes, *number, *lane, 1, LIST),
        Part::Work(number, worker, kind) => push_work(bytes, *number, *worker, *kind, &layer()),
        Part::Cut => {
            let _ = bytes.pop();
            Ok(())
        }
    }
}

/// A file with these records.
pub fn file_of(alloc: Global, records: &[&[Part]]) -> Result<MemDisk, Fail> {
    let mut disk = disk_over(alloc, &[], u64::MAX)?;
    for parts in records {
        let mut bytes = Vec::new(alloc);
        for part in *parts {
            add(&mut bytes, part)?;
        }
        let mut journal = Journal::open(&mut disk)?;
        journal.append(alloc, &mut disk, bytes.as_slice())?;
    }
    Ok(disk)
}

/// A disk with these bytes, which refuses the calls past the last one.
pub fn disk_over(alloc: Global, bytes: &[u8], last: u64) -> Result<MemDisk, NoMemory> {
    let bytes = Seq::of(bytes.to_vec(alloc)?);
    Ok(MemDisk::new(alloc, bytes, Seq::of(Vec::new(alloc)), last))
}
