//! Keeps records in a file of the working directory as `FileDisk` does.
mod show;

use crate::keep::show::{show_error, show_length, show_records};
use cv_keep::{FILE, FileDisk, Journal, KeepError, Kept};
use std::alloc::Global;
use std::fs::OpenOptions;
use std::io::Write;
use std::{fs, io};

/// Appends records, and reads them with another disk: after the first disk is gone, after the first bytes of a further record were
/// written, and after a second disk could not open the file that the first one holds. Prints what is seen. A file of an earlier run is
/// removed first, and none remains.
pub fn keep_records(rt: &HostRuntime) -> io::Result<()> {
    remove(rt)?;
    append(rt)?;
    read(rt)?;
    tear(rt)?;
    read(rt)?;
    open_twice(rt)?;
    read(rt)?;
    remove(rt)
}

fn remove(rt: &HostRuntime) -> io::Result<()> {
    if fs::exists(rt, FILE)? {
        fs::remove_file(rt, FILE)?;
    }
    Ok(())
}

fn append(rt: &HostRuntime) -> io::Result<()> {
    println!(rt; "> append three records")?;
    let mut disk = FileDisk::new(rt.clone()?);
    match append_three(rt.alloc(), &mut disk) {
        Ok(()) => show_length(rt),
        Err(error) => show_error(rt, &disk, error),
    }
}

fn append_three(alloc: Global, disk: &mut FileDisk) -> Result<(), KeepError> {
    let mut journal = Journal::open(disk)?;
    journal.append(alloc, disk, b"one")?;
    journal.append(alloc, disk, b"")?;
    journal.append(alloc, disk, b"three\n")
}

fn read(rt: &HostRuntime) -> io::Result<()> {
    println!(rt; "> open and read")?;
    let mut disk = FileDisk::new(rt.clone()?);
    match read_all(rt.alloc(), &mut disk) {
        Ok(records) => show_records(rt, records.as_slice()),
        Err(error) => show_error(rt, &disk, error),
    }
}

/// The records, of which there are at most eight.
fn read_all(alloc: Global, disk: &mut FileDisk) -> Result<Vec<Kept>, KeepError> {
    let journal = Journal::open(disk)?;
    let mut records = Vec::new(alloc);
    let mut at = 0;
    for _ in 0..8 {
        let Some(kept) = journal.read(alloc, disk, at)? else {
            break;
        };
        at = kept.next;
        records.push(kept)?;
    }
    Ok(records)
}

/// Writes the first bytes of a record after the closed gate, as an append that is cut short leaves them.
fn tear(rt: &HostRuntime) -> io::Result<()> {
    println!(rt; "> write the first bytes of a record")?;
    let mut file = OpenOptions::new().append(true).open(rt, FILE)?;
    file.write_all(b"\0\0\0\0\0\0\0\x04fo")?;
    show_length(rt)
}

/// Prints why a second disk could not open the file that the first one holds. The first one appends a record after that.
fn open_twice(rt: &HostRuntime) -> io::Result<()> {
    println!(rt; "> open a second disk, and append a record to the first")?;
    let mut first = FileDisk::new(rt.clone()?);
    let mut second = FileDisk::new(rt.clone()?);
    match append_fourth(rt.alloc(), &mut first, &mut second) {
        Ok(None) => println!(rt; "both are open"),
        Ok(Some(error)) => show_error(rt, &second, error),
        Err(error) => show_error(rt, &first, error),
    }
}

/// The error of opening the file by the second disk while the first one holds it.
fn append_fourth(
    alloc: Global,
    first: &mut FileDisk,
    second: &mut FileDisk,
) -> Result<Option<KeepError>, KeepError> {
    let mut journal = Journal::open(first)?;
    let refused = Journal::open(second).err();
    journal.append(alloc, first, b"four")?;
    Ok(refused)
}
