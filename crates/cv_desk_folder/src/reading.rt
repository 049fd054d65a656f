ghost use Rattle.std.specs.Prelude.{◌≡◌, ◌<◌, ◌≤◌, ◌+◌, take, IfErr, IfOk, IfSome, IsErrAnd, OnOk, Ok, Some, None};
ghost use Rattle.std.specs.Fs.{IsFile, file_type, metadata_len};
ghost use Rattle.cv_desk.specs.Stored.{File, file_read};
ghost use Rattle.cv_desk_folder.specs.code.Walked.{IsErrorOf, IsWithin};

use crate::again::{look, look_at_open};
use crate::failure::{FolderError, answer_at};
use crate::place::place_of;
use cv_base::{Digest, RelPath, Seq};
use cv_desk::FileRead;
use std::alloc::Global;
use std::fs::{self, Metadata};
use std::io::{self, Read};
use std::os::unix::fs::MetadataExt;
use std::rt::Files;

/// Reads a file of a layer, if it has at most `limit` bytes.
pub fn read_file<R: Files + AllocGlobal + Clone + Drop>(
    rt: &R,
    alloc: Global,
    layer: &Digest,
    path: &RelPath,
    limit: u32,
) -> Result<FileRead, FolderError>
    ensures { IfOk result (λ read. IsWithin limit read) }
{
    let place = place_of(alloc, layer, path)?;
    let found = look(rt, place.as_str());
    read_at(rt, alloc, place.as_str(), found, limit)
}

/// Reads the file at `place`, by the system's answer about it, if it has at most `limit` bytes.
fn read_at<R: Files + AllocGlobal + Clone + Drop>(
    rt: &R,
    alloc: Global,
    place: &str,
    found: io::Result<Metadata>,
    limit: u32,
) -> Result<FileRead, FolderError>
    ensures error { IfErr found (λ reason. IsErrAnd result (IsErrorOf reason)) }
    ensures not_file { IfOk found (λ at. ¬ IsFile (file_type at) → result ≡ Ok FileRead.NotFile) }
    ensures too_large { IfOk found (λ at. IsFile (file_type at) → limit < metadata_len at → result ≡ Ok FileRead.TooLarge) }
    ensures within { IfOk result (λ read. IsWithin limit read) }
{
    let looked_at = answer_at(alloc, place, found)?;
    if let Some(refused) = refused(&looked_at, limit) {
        return Ok(refused);
    }
    let found = read_same(rt, alloc, place, &looked_at, limit);
    read_found(alloc, place, found, limit)
}

/// What is answered of a file in place of its bytes, by the look at its path, if they are not read.
fn refused(looked_at: &Metadata, limit: u32) -> Option<FileRead>
    ensures not_file { ¬ IsFile (file_type looked_at.now) → result ≡ Some FileRead.NotFile }
    ensures too_large { IsFile (file_type looked_at.now) → limit < metadata_len looked_at.now → result ≡ Some FileRead.TooLarge }
    ensures none { IsFile (file_type looked_at.now) → metadata_len looked_at.now ≤ limit → result ≡ None }
{
    if !looked_at.is_file() {
        return Some(FileRead::NotFile);
    }
    if looked_at.len() > u64::from(limit) {
        return Some(FileRead::TooLarge);
    }
    None
}

/// Opens the file at `place`, which has to be the one that was looked at, and reads no more of it than `limit` bytes and one.
/// Opening and reading are tried again while signals interrupt them, by std.
fn read_same<R: Files>(
    rt: &R,
    alloc: Global,
    place: &str,
    looked_at: &Metadata,
    limit: u32,
) -> io::Result<Vec<u8>> {
    let file = fs::open(rt, place)?;
    check_same(looked_at, &look_at_open(&file)?)?;
    read_front(alloc, file, limit)
}

/// Fails if what was opened is not what was looked at.
fn check_same(looked_at: &Metadata, opened: &Metadata) -> io::Result<()>
    ensures { OnOk result (file_type opened.now ≡ file_type looked_at.now) }
{
    if opened.file_type() == looked_at.file_type()
        && opened.dev() == looked_at.dev()
        && opened.ino() == looked_at.ino()
    {
        Ok(())
    } else {
        Err(io::Error::other("it was replaced after it was looked at"))
    }
}

/// The front of a file: `limit` bytes and one, or all if it has no more.
fn read_front<F: Read + Drop>(alloc: Global, file: F, limit: u32) -> io::Result<Vec<u8>>
    ensures { IfOk result (λ read. IfSome (F.remaining file) (λ bytes. read.items ≡ take (limit + 1) bytes)) }
{
    let mut bytes = Vec::new(alloc);
    file.take(u64::from(limit) + 1).read_to_end(&mut bytes)?;
    Ok(bytes)
}

/// The bytes that were read of the file at `place`, if they are at most `limit`: it may have grown since it was looked at.
fn read_found(
    alloc: Global,
    place: &str,
    found: io::Result<Vec<u8>>,
    limit: u32,
) -> Result<FileRead, FolderError>
    ensures error { IfErr found (λ reason. IsErrAnd result (IsErrorOf reason)) }
    ensures value { IfOk found (λ bytes. result ≡ Ok (file_read (Some (File bytes.items)) limit)) }
    ensures within { IfOk result (λ read. IsWithin limit read) }
{
    let bytes = answer_at(alloc, place, found)?;
    if bytes.len() > limit as usize {
        return Ok(FileRead::TooLarge);
    }
    Ok(FileRead::Bytes(Seq::of(bytes)))
}
