//! Hands notifications over in the folder `hook` of the working directory as `FolderHook` does.
use cv_base::{Digest, Finding, PathError, Reason, Row, Text};
use cv_hook::{Hook, HookFault, Took};
use cv_hook_folder::FolderHook;
use std::alloc::Global;
use std::{fs, io};
use test_data::debian_package;

/// The folder, and the file of the notification 2.
const FOLDER: &str = "hook";

const SECOND: &str = "hook/2.json";

/// Offers notifications without the folder, with it, over a file that is there already, and where a folder has the name of the file. Prints
/// the answers and what the files have. A folder of an earlier run is removed first, and none remains.
pub fn hand_over(rt: &HostRuntime) -> io::Result<()> {
    remove(rt)?;
    match rows(rt.alloc()) {
        Ok(rows) => offer_all(rt, &rows)?,
        Err(error) => println!(rt; "{error}")?,
    }
    remove(rt)
}

fn remove(rt: &HostRuntime) -> io::Result<()> {
    if fs::exists(rt, FOLDER)? {
        fs::remove_dir_all(rt, FOLDER)?;
    }
    Ok(())
}

fn offer_all(rt: &HostRuntime, rows: &[Row; 2]) -> io::Result<()> {
    let rows = &rows[..];
    let mut hook = FolderHook::new(rt.clone()?);
    offer(rt, &mut hook, 1, rows)?;
    fs::create_dir(rt, FOLDER)?;
    offer(rt, &mut hook, 1, &rows[..1])?;
    offer(rt, &mut hook, 1, rows)?;
    fs::create_dir(rt, SECOND)?;
    offer(rt, &mut hook, 2, rows)?;
    fs::remove_dir(rt, SECOND)?;
    offer(rt, &mut hook, 2, &rows[1..])?;
    offer(rt, &mut hook, u64::MAX, &[])?;
    show_files(rt)
}

/// Offers a notification, and prints the answer.
fn offer(rt: &HostRuntime, hook: &mut FolderHook, number: u64, rows: &[Row]) -> io::Result<()> {
    println!(rt; "> offer notification {number} with {} rows", rows.len())?;
    match hook.offer(number, rows) {
        Ok(Took::Taken) => show_file(rt, number),
        Ok(Took::Refused) => println!(rt; "refused"),
        Err(HookFault::Failed) => show_failure(rt, hook),
        Err(HookFault::NoMemory) => println!(rt; "out of memory"),
    }
}

fn show_file(rt: &HostRuntime, number: u64) -> io::Result<()> {
    let name = format!(in rt.alloc(); "{FOLDER}/{number}.json")?;
    let text = fs::read_to_string(rt, name.as_str())?;
    println!(rt; "taken: {name} has {text}")
}

fn show_failure(rt: &HostRuntime, hook: &FolderHook) -> io::Result<()> {
    match hook.last_failure() {
        Some(failure) => println!(rt; "failed: {failure}"),
        None => println!(rt; "failed without a reason"),
    }
}

/// Prints how many files there are.
fn show_files(rt: &HostRuntime) -> io::Result<()> {
    let mut count = 0usize;
    for entry in fs::read_dir(rt, FOLDER)? {
        entry?;
        count = count.saturating_add(1);
    }
    println!(rt; "files in the folder: {count}")
}

/// Two rows on two images: a finding that was added, and one that was removed.
fn rows(alloc: Global) -> Result<[Row; 2], PathError> {
    let added = Row {
        image: Digest::of([0x11; 32]),
        reason: Reason::Added,
        finding: finding(alloc, "curl", Some(Text::of(alloc, "2")?))?,
    };
    let removed = Row {
        image: Digest::of([0x22; 32]),
        reason: Reason::Removed,
        finding: finding(alloc, "zlib", None)?,
    };
    Ok([added, removed])
}

/// A finding of the advisory X-1 of the feed deb.
fn finding(alloc: Global, package: &str, fixed: Option<Text>) -> Result<Finding, PathError> {
    Ok(Finding {
        package: debian_package(alloc, package)?,
        feed: Text::of(alloc, "deb")?,
        advisory: Text::of(alloc, "X-1")?,
        fixed,
    })
}
