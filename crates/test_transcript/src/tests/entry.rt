use cv_base::{Digest, NoMemory, Seq, Text};
use cv_core_records::{Act, By, EventEntry, Reply};
use cv_request::{RequestError, RequestWhat};
use cv_transcript::{Entry, entry_line};
use std::alloc::Global;
use std::test::Fail;

/// The number of an event, the line of lane 0 that submits it, or none for worker 0, what it is about, and the reply.
type EventRow = (u64, Option<u64>, &'static str, &'static str);

const EVENTS: &[EventRow] = &[
    (1, Some(1), "register", "registered"),
    (3, Some(3), "register", "conflict"),
    (3, Some(3), "register", "sealed_conflict"),
    (2, Some(7), "drop", "dropped"),
    (4, Some(4), "update", "updated"),
    (7, Some(13), "patch", "patched"),
    (8, Some(14), "patch", "stale_base"),
    (9, Some(15), "patch", "too_many_records"),
    (1, Some(1), "patch", "no_feed"),
    (5, Some(11), "ack", "acked"),
    (6, Some(13), "ack", "no_notification"),
    (2, None, "claim", "claimed"),
    (3, None, "indexed", "entered"),
    (3, None, "fault", "requeued"),
    (4, None, "memory", "not_claimed"),
];

const LINES: &str =
    r#"{"at":1,"event":"register","image":"sha256:1111111111111111111111111111111111111111111111111111111111111111","lane":0,"line":1,"reply":"registered"}
{"at":3,"event":"register","image":"sha256:1111111111111111111111111111111111111111111111111111111111111111","kept":["sha256:aaaaaaaaaaaaaaaaaaaaaaaaaaaaaaaaaaaaaaaaaaaaaaaaaaaaaaaaaaaaaaaa"],"lane":0,"line":3,"reply":"conflict"}
{"at":3,"event":"register","image":"sha256:1111111111111111111111111111111111111111111111111111111111111111","kept":["sha256:aaaaaaaaaaaaaaaaaaaaaaaaaaaaaaaaaaaaaaaaaaaaaaaaaaaaaaaaaaaaaaaa","sha256:aaaaaaaaaaaaaaaaaaaaaaaaaaaaaaaaaaaaaaaaaaaaaaaaaaaaaaaaaaaaaaaa"],"kept_seals":["sha256:0000000000000000000000000000000000000000000000000000000000000000",null],"lane":0,"line":3,"reply":"conflict"}
{"at":2,"event":"drop","image":"sha256:1111111111111111111111111111111111111111111111111111111111111111","lane":0,"line":7,"reply":"dropped"}
{"at":4,"event":"update","feed":"deb","generation":1,"lane":0,"line":4,"reply":"updated","rows":1}
{"at":7,"event":"patch","feed":"deb","generation":4,"lane":0,"line":13,"reply":"updated","rows":1}
{"at":8,"event":"patch","feed":"deb","kept":4,"lane":0,"line":14,"reply":"stale_base"}
{"at":9,"event":"patch","feed":"deb","lane":0,"line":15,"reply":"too_many_records","would":200001}
{"at":1,"event":"patch","feed":"deb","lane":0,"line":1,"reply":"no_feed"}
{"at":5,"event":"ack","lane":0,"line":11,"number":1,"reply":"acked"}
{"at":6,"event":"ack","lane":0,"line":13,"number":1,"reply":"no_notification"}
{"at":2,"event":"claim","layer":"sha256:aaaaaaaaaaaaaaaaaaaaaaaaaaaaaaaaaaaaaaaaaaaaaaaaaaaaaaaaaaaaaaaa","reply":"claimed","worker":0}
{"at":3,"event":"indexed","layer":"sha256:aaaaaaaaaaaaaaaaaaaaaaaaaaaaaaaaaaaaaaaaaaaaaaaaaaaaaaaaaaaaaaaa","reply":"entered","worker":0}
{"at":3,"event":"fault","layer":"sha256:aaaaaaaaaaaaaaaaaaaaaaaaaaaaaaaaaaaaaaaaaaaaaaaaaaaaaaaaaaaaaaaa","reply":"requeued","worker":0}
{"at":4,"event":"memory","layer":"sha256:aaaaaaaaaaaaaaaaaaaaaaaaaaaaaaaaaaaaaaaaaaaaaaaaaaaaaaaaaaaaaaaa","reply":"not_claimed","worker":0}
"#;

/// Replies that are only names.
const NAMES: &[&str] = &[
    "already",
    "too_many_images",
    "not_registered",
    "taken",
    "unwanted",
    "discarded",
    "too_many_feeds",
    "no_feed",
];

/// Requests that are refused, and their lines.
const REFUSED: &[(RequestWhat, &str)] = &[
    (
        RequestWhat::BadSize,
        "{\"line\":10,\"refused\":\"bad_request\",\"what\":\"bad_size\"}\n",
    ),
    (
        RequestWhat::BadBase,
        "{\"line\":10,\"refused\":\"bad_request\",\"what\":\"bad_base\"}\n",
    ),
    (
        RequestWhat::BadRemove,
        "{\"line\":10,\"refused\":\"bad_request\",\"what\":\"bad_remove\"}\n",
    ),
    (
        RequestWhat::BadSeal(3),
        "{\"index\":3,\"line\":10,\"refused\":\"bad_request\",\"what\":\"bad_seal\"}\n",
    ),
];

fn is_shared<T: Send + Sync>() {}

#[test]
fn entries_are_shared() {
    is_shared::<Entry>();
}

fn act(alloc: Global, event: &str) -> Result<Act, NoMemory> {
    let image = Digest::of([0x11; 32]);
    let layer = Digest::of([0xaa; 32]);
    Ok(match event {
        "register" => Act::Register(image),
        "drop" => Act::DropImage(image),
        "claim" => Act::Claim(layer),
        "indexed" => Act::Indexed(layer),
        "fault" => Act::Fault(layer),
        "memory" => Act::Memory(layer),
        "update" => Act::Update(Text::of(alloc, "deb")?),
        "patch" => Act::Patch(Text::of(alloc, "deb")?),
        _ => Act::Ack(1),
    })
}

/// A conflict whose image keeps one layer without a seal.
fn conflict(alloc: Global) -> Result<Reply, NoMemory> {
    Ok(Reply::Conflict {
        kept: Seq::of(vec![in alloc; Digest::of([0xaa; 32])]?),
        kept_seals: Seq::of(vec![in alloc; None]?),
    })
}

/// A conflict whose image keeps one layer twice, with a seal and without.
fn sealed_conflict(alloc: Global) -> Result<Reply, NoMemory> {
    let layer = Digest::of([0xaa; 32]);
    Ok(Reply::Conflict {
        kept: Seq::of(vec![in alloc; layer, layer]?),
        kept_seals: Seq::of(vec![in alloc; Some(Digest::of([0; 32])), None]?),
    })
}

fn reply(alloc: Global, name: &str) -> Result<Reply, NoMemory> {
    Ok(match name {
        "conflict" => conflict(alloc)?,
        "sealed_conflict" => sealed_conflict(alloc)?,
        "updated" => Reply::Updated {
            generation: 1,
            rows: 1,
        },
        "patched" => Reply::Updated {
            generation: 4,
            rows: 1,
        },
        "stale_base" => Reply::StaleBase { kept: 4 },
        "too_many_records" => Reply::TooManyRecords { would: 200_001 },
        name => plain_reply(name),
    })
}

/// A reply that is only a name.
fn plain_reply(name: &str) -> Reply {
    match name {
        "registered" => Reply::Registered,
        "already" => Reply::Already,
        "too_many_images" => Reply::TooManyImages,
        "dropped" => Reply::Dropped,
        "not_registered" => Reply::NotRegistered,
        "claimed" => Reply::Claimed,
        "taken" => Reply::Taken,
        "unwanted" => Reply::Unwanted,
        "entered" => Reply::Entered,
        "discarded" => Reply::Discarded,
        "requeued" => Reply::Requeued,
        "not_claimed" => Reply::NotClaimed,
        "too_many_feeds" => Reply::TooManyFeeds,
        "no_feed" => Reply::NoFeed,
        "acked" => Reply::Acked,
        _ => Reply::NoNotification,
    }
}

fn event(alloc: Global, row: &EventRow) -> Result<EventEntry, NoMemory> {
    let (number, line, event, name) = *row;
    let by = match line {
        Some(line) => By::Lane { lane: 0, line },
        None => By::Worker(0),
    };
    Ok(EventEntry {
        number,
        by,
        act: act(alloc, event)?,
        reply: reply(alloc, name)?,
    })
}

/// The line of an event.
fn line(alloc: Global, row: &EventRow) -> Result<String, NoMemory> {
    entry_line(alloc, &Entry::Event(event(alloc, row)?))
}

#[test]
fn events_have_their_lines(rt: HostRuntime) -> Result<(), Fail> {
    let mut lines = String::new(rt.alloc());
    for row in EVENTS {
        lines.push_str(line(rt.alloc(), row)?.as_str())?;
    }
    assert_eq!(rt; lines.as_str(), LINES);
    Ok(())
}

#[test]
fn each_reply_has_its_name(rt: HostRuntime) -> Result<(), Fail> {
    for name in NAMES {
        let line = line(rt.alloc(), &(1, None, "ack", *name))?;
        assert!(rt; line.contains(*name), "{name}");
    }
    Ok(())
}

#[test]
fn a_refused_line_has_its_reason(rt: HostRuntime) -> Result<(), Fail> {
    for (what, want) in REFUSED {
        let error = RequestError::BadRequest(*what);
        let line = entry_line(rt.alloc(), &Entry::Refused { line: 10, error })?;
        assert_eq!(rt; line.as_str(), *want);
    }
    Ok(())
}
