use cv_base::{Digest, Finding, Package, PackageKind, Reason, RelPath, Row, Seq, Text};
use cv_core_records::{Answer, NoticeHead, PageOutcome, ReadEntry, ReportOutcome};
use cv_overlay::ImageFault;
use cv_transcript::{Entry, entry_line};
use std::alloc::Global;
use std::test::Fail;

/// How many events come before a read, its line of lane 0, and the reply.
type ReadRow = (u64, u64, &'static str);

/// A read that runs out of memory has neither `read` nor `event`.
const READS: &[ReadRow] = &[
    (1, 2, "pending"),
    (3, 5, "good"),
    (3, 5, "bad_image"),
    (3, 5, "bad_seal"),
    (0, 1, "not_registered"),
    (4, 9, "no_page"),
    (5, 12, "no_notification"),
    (6, 11, "page"),
    (6, 10, "list"),
    (2, 6, "no_memory"),
];

const LINES: &str =
    r#"{"at":1,"image":"sha256:1111111111111111111111111111111111111111111111111111111111111111","lane":0,"layer":"sha256:aaaaaaaaaaaaaaaaaaaaaaaaaaaaaaaaaaaaaaaaaaaaaaaaaaaaaaaaaaaaaaaa","line":2,"read":"report","reply":"pending"}
{"at":3,"findings":[],"generation":0,"image":"sha256:1111111111111111111111111111111111111111111111111111111111111111","lane":0,"line":5,"read":"report","reply":"good"}
{"at":3,"bad":{"cause":"no_layer","layer":0},"image":"sha256:1111111111111111111111111111111111111111111111111111111111111111","lane":0,"line":5,"read":"report","reply":"bad_image"}
{"at":3,"bad":{"cause":"bad_seal","found":"sha256:ffffffffffffffffffffffffffffffffffffffffffffffffffffffffffffffff","layer":2,"stated":"sha256:0000000000000000000000000000000000000000000000000000000000000000"},"image":"sha256:1111111111111111111111111111111111111111111111111111111111111111","lane":0,"line":5,"read":"report","reply":"bad_image"}
{"at":0,"image":"sha256:1111111111111111111111111111111111111111111111111111111111111111","lane":0,"line":1,"read":"report","reply":"not_registered"}
{"at":4,"lane":0,"line":9,"number":1,"page":4,"pages":3,"read":"page","reply":"no_page","size":2}
{"at":5,"lane":0,"line":12,"number":1,"page":1,"read":"page","reply":"no_notification","size":2}
{"at":6,"lane":0,"line":11,"number":3,"page":1,"pages":1,"read":"page","reply":"page","rows":[{"finding":{"advisory":"X-1","arch":"amd64","ecosystem":"Debian:12","feed":"deb","fixed":"3.0.12-1","kind":"deb","name":"libssl3","path":"var/lib/dpkg/status","source":"openssl","source_version":"3.0.9-1","version":"3.0.9-1+b1"},"image":"sha256:1111111111111111111111111111111111111111111111111111111111111111","reason":"changed"}],"size":10}
{"at":6,"lane":0,"line":10,"notifications":[{"number":1,"rows":1},{"number":3,"rows":1}],"read":"list","reply":"list"}
{"at":2,"lane":0,"line":6,"reply":"no_memory"}
"#;

fn package(alloc: Global) -> Result<Package, Fail> {
    Ok(Package {
        kind: PackageKind::Deb,
        path: RelPath::read(alloc, "var/lib/dpkg/status")?,
        name: Text::of(alloc, "libssl3")?,
        version: Text::of(alloc, "3.0.9-1+b1")?,
        source: Text::of(alloc, "openssl")?,
        source_version: Text::of(alloc, "3.0.9-1")?,
        arch: Text::of(alloc, "amd64")?,
        ecosystem: Text::of(alloc, "Debian:12")?,
    })
}

fn finding(alloc: Global) -> Result<Finding, Fail> {
    Ok(Finding {
        package: package(alloc)?,
        feed: Text::of(alloc, "deb")?,
        advisory: Text::of(alloc, "X-1")?,
        fixed: Some(Text::of(alloc, "3.0.12-1")?),
    })
}

fn changed_row(alloc: Global) -> Result<Row, Fail> {
    Ok(Row {
        image: Digest::of([0x11; 32]),
        reason: Reason::Changed,
        finding: finding(alloc)?,
    })
}

fn page(number: u64, size: u32, page: u64, outcome: PageOutcome) -> Answer {
    Answer::Page {
        number,
        size,
        page,
        outcome,
    }
}

/// A page with one row.
fn page_of_rows(alloc: Global) -> Result<Answer, Fail> {
    let rows = Seq::of(vec![in alloc; changed_row(alloc)?]?);
    Ok(page(3, 10, 1, PageOutcome::Rows { pages: 1, rows }))
}

/// A list of two notifications.
fn list(alloc: Global) -> Result<Answer, Fail> {
    let heads = vec![in alloc;
        NoticeHead { number: 1, rows: 1 },
        NoticeHead { number: 3, rows: 1 },
    ]?;
    Ok(Answer::List(Seq::of(heads)))
}

fn bad_seal() -> ImageFault {
    ImageFault::BadSeal {
        layer: 2,
        stated: Digest::of([0; 32]),
        found: Digest::of([0xff; 32]),
    }
}

fn report(alloc: Global, reply: &str) -> Answer {
    let outcome = match reply {
        "pending" => ReportOutcome::Pending(Digest::of([0xaa; 32])),
        "good" => ReportOutcome::Good {
            generation: 0,
            findings: Seq::of(Vec::new(alloc)),
        },
        "bad_image" => ReportOutcome::BadImage(ImageFault::NoLayer(0)),
        "bad_seal" => ReportOutcome::BadImage(bad_seal()),
        _ => ReportOutcome::NotRegistered,
    };
    let image = Digest::of([0x11; 32]);
    Answer::Report { image, outcome }
}

fn answer(alloc: Global, reply: &str) -> Result<Answer, Fail> {
    match reply {
        "no_page" => Ok(page(1, 2, 4, PageOutcome::NoPage { pages: 3 })),
        "no_notification" => Ok(page(1, 2, 1, PageOutcome::NoNotification)),
        "page" => page_of_rows(alloc),
        "list" => list(alloc),
        "no_memory" => Ok(Answer::NoMemory),
        reply => Ok(report(alloc, reply)),
    }
}

/// Adds the line of a read.
fn add_line(alloc: Global, lines: &mut String, row: &ReadRow) -> Result<(), Fail> {
    let (front, line, reply) = *row;
    let entry = Entry::Read(ReadEntry {
        front,
        lane: 0,
        line,
        answer: answer(alloc, reply)?,
    });
    lines.push_str(entry_line(alloc, &entry)?.as_str())?;
    Ok(())
}

#[test]
fn reads_have_their_lines(rt: HostRuntime) -> Result<(), Fail> {
    let mut lines = String::new(rt.alloc());
    for row in READS {
        add_line(rt.alloc(), &mut lines, row)?;
    }
    assert_eq!(rt; lines.as_str(), LINES);
    Ok(())
}
