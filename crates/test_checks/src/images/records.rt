use cv_base::{Advisory, NoMemory, RangeKind};
use std::alloc::Global;
use test_data::{Flaw, advisory};

/// A record about a package, whose flaw is present from the start.
struct Record {
    id: &'static str,
    ecosystem: &'static str,
    name: &'static str,
    kind: RangeKind,
    /// The version with the fix, if there is one.
    fixed: Option<&'static str>,
}

static RECORDS: [Record; 5] = [
    Record {
        id: "X-1",
        ecosystem: "Debian:12",
        name: "openssl",
        kind: RangeKind::Ecosystem,
        fixed: Some("3.0.11-1"),
    },
    Record {
        id: "Z-1",
        ecosystem: "Debian",
        name: "zlib",
        kind: RangeKind::Ecosystem,
        fixed: Some("1:1.3"),
    },
    Record {
        id: "A-1",
        ecosystem: "Alpine:v3.18",
        name: "openssl",
        kind: RangeKind::Ecosystem,
        fixed: Some("3.1.2-r0"),
    },
    Record {
        id: "N-1",
        ecosystem: "npm",
        name: "x",
        kind: RangeKind::Semver,
        fixed: None,
    },
    Record {
        id: "N-2",
        ecosystem: "npm",
        name: "y",
        kind: RangeKind::Semver,
        fixed: None,
    },
];

/// The records that all images are scanned with.
pub fn all(alloc: Global) -> Result<Vec<Advisory>, NoMemory> {
    let mut out = Vec::new(alloc);
    for record in RECORDS.iter() {
        out.push(made(alloc, record)?)?;
    }
    Ok(out)
}

fn made(alloc: Global, record: &Record) -> Result<Advisory, NoMemory> {
    let flaw = Flaw {
        id: record.id,
        modified: "2024-01-01T00:00:00Z",
        withdrawn: false,
        ecosystem: record.ecosystem,
        name: record.name,
        kind: record.kind,
        ranges: &[("0", record.fixed)],
    };
    advisory(alloc, &flaw)
}
