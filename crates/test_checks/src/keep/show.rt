use cv_keep::{FILE, FileDisk, KeepError, Kept};
use std::{fs, io, str};

/// Prints records, one a line, and the length of the file.
pub fn show_records(rt: &HostRuntime, records: &[Kept]) -> io::Result<()> {
    for kept in records {
        match str::from_utf8(kept.bytes.as_slice()) {
            Ok(text) => println!(rt; "record {text:?}, the next gate at {}", kept.next)?,
            Err(_) => println!(rt; "a record that is not text")?,
        }
    }
    show_length(rt)
}

/// Prints the length of the file.
pub fn show_length(rt: &HostRuntime) -> io::Result<()> {
    println!(rt; "file of {} bytes", fs::metadata(rt, FILE)?.len())
}

/// Prints an error and why the last call on the disk failed.
pub fn show_error(rt: &HostRuntime, disk: &FileDisk, error: KeepError) -> io::Result<()> {
    match disk.last_error() {
        Some(reason) => println!(rt; "{error}: {reason}"),
        None => println!(rt; "{error}"),
    }
}
