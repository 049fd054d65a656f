//! Does one piece of cvwatch's work over a large input, or many times over, so that a script of bench/ can time it.
//!
//! ```text
//! bench events [IMAGES [TIMES [UPDATES [RECORDS]]]]  applies events to the core of the service, over made images and a feed
//! bench feeds [RECORDS [EVERY [TIMES]]]    makes the records of a feed and replaces them TIMES times; one of EVERY differs
//! bench findings [RECORDS [PACKAGES [TIMES]]]  matches packages with the records of a feed TIMES times
//! bench hub [IMAGES [TIMES [RECORDS]]]     submits events and looks up reports at a hub TIMES times in all, by 1, 2, 4
//!                                          and 8 threads; then updates
//! bench lines                              counts the lines of standard input
//! bench match deb|apk|npm [PAIRS [TIMES]]  prepares a record TIMES times, asks PAIRS times whether it affects a package
//! bench orders deb|apk [PAIRS [LENGTH]]    compares PAIRS pairs of versions: usual ones, or such of LENGTH bytes
//! bench osv                                counts the OSV records of the JSON list on standard input
//! bench overlay [ENTRIES [WHITEOUTS]]      lays ten layers on each other, of ENTRIES entries each
//! bench parse                              reads each line of standard input as a JSON value, and counts the values
//! bench records [RECORDS [TIMES]]          makes the records of a feed TIMES times
//! bench requests                           counts the requests among the lines of standard input
//! bench root DIGEST..                      scans an image whose layers lie in the working directory, by its root
//! bench status                             counts the packages of the dpkg status file on standard input
//! bench transcript [LINES]                 makes lines of the transcript, and counts their bytes
//! ```
//!
//! It prints the piece of work and a count of what came of it; of events and of the hub, lines that `events.rt` and `hub.rt` describe.
//! Without arguments it does a little of each.
#![tactic(auto)]

mod events;
mod hub;
mod repeats;
mod root;

use crate::repeats::repeat;
use bench_work::{lines_in, packages_in, records_in, requests_in, values_in};
use cv_base::NoMemory;
use std::sync::Wait;
use std::thread::Threads;
use std::time::{Clock, CpuClock};
use std::{env, io};

/// The first of them reads all of standard input.
const WORKS: [&str; 15] = [
    "requests",
    "lines",
    "osv",
    "parse",
    "status",
    "events",
    "feeds",
    "findings",
    "hub",
    "match",
    "orders",
    "overlay",
    "records",
    "root",
    "transcript",
];

fn main(rt: HostRuntime) -> io::Result<()> {
    let arguments: Vec<String> = env::args(&rt)?.collect(rt.alloc())?;
    match arguments.as_slice() {
        [_, work, rest @ ..] => report(&rt, &rt, work.as_str(), rest),
        _ => report_all(&rt, &rt),
    }
}

fn report_all<W: Threads + Wait + Clock + CpuClock + Sync>(
    rt: &HostRuntime,
    threads: &W,
) -> io::Result<()> {
    for work in WORKS {
        report(rt, threads, work, &[])?;
    }
    Ok(())
}

/// Does the work, and prints what came of it.
fn report<W: Threads + Wait + Clock + CpuClock + Sync>(
    rt: &HostRuntime,
    threads: &W,
    work: &str,
    arguments: &[String],
) -> io::Result<()> {
    match work {
        "events" => events::report(rt, arguments),
        "hub" => hub::report(rt, threads, arguments),
        _ => report_count(rt, work, arguments),
    }
}

fn report_count(rt: &HostRuntime, work: &str, arguments: &[String]) -> io::Result<()> {
    match count(rt, work, arguments) {
        Ok(count) => println!(rt; "{work} {count}"),
        Err(NoMemory) => println!(rt; "{work}: out of memory"),
    }
}

/// What the work counts, and 0 for an input that is refused or for a work that there is not.
fn count(rt: &HostRuntime, work: &str, arguments: &[String]) -> Result<u64, NoMemory> {
    let alloc = rt.alloc();
    match work {
        "lines" => lines_in(alloc, rt.reader()),
        "osv" => records_in(alloc, rt.reader()),
        "parse" => values_in(alloc, rt.reader()),
        "requests" => requests_in(alloc, rt.reader()),
        "status" => packages_in(alloc, rt.reader()),
        "root" => root::scanned(rt, arguments),
        _ => repeat(alloc, work, arguments),
    }
}
