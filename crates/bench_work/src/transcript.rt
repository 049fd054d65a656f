use cv_base::{Finding, NoMemory, PackageKind, RelPath, Seq, Text};
use cv_core_records::{Act, Answer, By, EventEntry, ReadEntry, Reply, ReportOutcome};
use cv_transcript::{Entry, entry_line};
use std::alloc::Global;
use test_data::{Installed, hash, last_layer, package};

/// Makes this number of lines of a transcript, of five entries in turn, and counts their bytes.
pub fn entry_bytes(alloc: Global, count: u64) -> Result<u64, NoMemory> {
    let entries = entries(alloc)?;
    let mut bytes: u64 = 0;
    for index in 0..count {
        if let Some(entry) = entries.get((index % 5) as usize) {
            let line = entry_line(alloc, entry)?;
            bytes = bytes.saturating_add(line.len() as u64);
        }
    }
    Ok(bytes)
}

/// A registration, a claim, an indexed layer, an update, and a report with three findings.
fn entries(alloc: Global) -> Result<Vec<Entry>, NoMemory> {
    let mut entries = Vec::new(alloc);
    entries.push(event(by_lane(), Act::Register(hash(1)), Reply::Registered))?;
    entries.push(event(by_worker(), Act::Claim(last_layer(1)), Reply::Claimed))?;
    entries.push(event(by_worker(), Act::Indexed(last_layer(1)), Reply::Entered))?;
    entries.push(event(by_lane(), Act::Update(Text::of(alloc, "feed")?), updated()))?;
    entries.push(report(alloc)?)?;
    Ok(entries)
}

fn by_lane() -> By {
    By::Lane {
        lane: 3,
        line: 100_000,
    }
}

fn by_worker() -> By {
    By::Worker(1)
}

fn updated() -> Reply {
    Reply::Updated {
        generation: 7,
        rows: 120,
    }
}

fn event(by: By, act: Act, reply: Reply) -> Entry {
    Entry::Event(EventEntry {
        number: 123_456,
        by,
        act,
        reply,
    })
}

fn report(alloc: Global) -> Result<Entry, NoMemory> {
    let mut findings = Vec::new(alloc);
    for name in ["libssl3", "openssl", "zlib1g"] {
        findings.push(finding(alloc, name)?)?;
    }
    Ok(Entry::Read(ReadEntry {
        front: 123_456,
        lane: 3,
        line: 100_000,
        answer: Answer::Report {
            image: hash(1),
            outcome: ReportOutcome::Good {
                generation: 7,
                findings: Seq::of(findings),
            },
        },
    }))
}

fn finding(alloc: Global, name: &str) -> Result<Finding, NoMemory> {
    let installed = Installed {
        kind: PackageKind::Deb,
        ecosystem: "Debian:12",
        name,
        source: "openssl",
        version: "3.0.9-1",
    };
    let path = path(alloc, "var/lib/dpkg/status")?;
    Ok(Finding {
        package: package(alloc, &installed, path)?,
        feed: Text::of(alloc, "feed")?,
        advisory: Text::of(alloc, "DSA-5532-1")?,
        fixed: Some(Text::of(alloc, "3.0.11-1~deb12u2")?),
    })
}

fn path(alloc: Global, text: &str) -> Result<RelPath, NoMemory> {
    match RelPath::read(alloc, text) {
        Ok(path) => Ok(path),
        Err(_) => Err(NoMemory),
    }
}
