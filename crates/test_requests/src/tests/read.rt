use cv_base::Digest;
use cv_osv::NewTexts;
use cv_osv_text::read_request;
use cv_request::{Act, Request, RequestError, RequestFault, read_json, read_value};
use std::alloc::Global;
use std::test::Fail;

/// The faults of lines that are no requests, each with lines of which it is the first fault: some have further faults. The last
/// faults are those of lines that are no JSON, and of updates whose records are refused.
const REFUSED: &[(&str, &[&str])] = &[
    ("BadRequest(NotObject)", &["7", r#"[{"do":"list"}]"#]),
    (
        "BadRequest(BadLane)",
        &[
            r#"{"lane":8,"do":"list"}"#,
            r#"{"lane":256,"do":"list"}"#,
            r#"{"lane":-1,"do":"list"}"#,
            r#"{"lane":1.0,"do":"list"}"#,
            r#"{"lane":"1","do":"list"}"#,
            r#"{"lane":null,"do":"list"}"#,
            r#"{"lane":8,"do":7}"#,
        ],
    ),
    (
        "BadRequest(BadDo)",
        &[
            "{}",
            r#"{"do":null}"#,
            r#"{"do":"List"}"#,
            r#"{"do":"","image":7}"#,
            r#"{"do":"list","do":"lists"}"#,
            r#"{"do":"Patch","feed":7}"#,
        ],
    ),
    (
        "BadRequest(BadManifest)",
        &[
            r#"{"do":"register"}"#,
            r#"{"do":"register","manifest":null}"#,
        ],
    ),
    (
        "BadRequest(BadHash)",
        &[r#"{"do":"register","manifest":{"layers":7}}"#],
    ),
    (
        "BadRequest(BadImage)",
        &[
            r#"{"do":"drop"}"#,
            r#"{"do":"drop","image":"sha256:11"}"#,
            r#"{"do":"report","image":null}"#,
        ],
    ),
    (
        "BadRequest(BadFeed)",
        &[
            r#"{"do":"update","advisories":7}"#,
            r#"{"do":"update","feed":"","advisories":[]}"#,
            r#"{"do":"update","feed":"a/b","advisories":[]}"#,
            r#"{"do":"update","feed":"Debian","advisories":[]}"#,
            r#"{"do":"patch","base":-1,"remove":7,"advisories":7}"#,
            r#"{"do":"patch","feed":"a b","base":0,"advisories":[]}"#,
            r#"{"do":"update","feed":"aaaaaaaaaaaaaaaaaaaaaaaaaaaaaaaaaaaaaaaaaaaaaaaaaaaaaaaaaaaaaaaaa","advisories":[]}"#,
        ],
    ),
    (
        "BadRequest(BadBase)",
        &[
            r#"{"do":"patch","feed":"a","remove":7,"advisories":7}"#,
            r#"{"do":"patch","feed":"a","base":null,"advisories":[]}"#,
            r#"{"do":"patch","feed":"a","base":"3","advisories":[]}"#,
            r#"{"do":"patch","feed":"a","base":-1,"advisories":[]}"#,
            r#"{"do":"patch","feed":"a","base":-0,"advisories":[]}"#,
            r#"{"do":"patch","feed":"a","base":1.5,"advisories":[]}"#,
            r#"{"do":"patch","feed":"a","base":3e0,"advisories":[]}"#,
            r#"{"do":"patch","feed":"a","base":18446744073709551616,"advisories":[]}"#,
            r#"{"do":"patch","feed":"a","base":3,"base":[3],"advisories":[]}"#,
        ],
    ),
    (
        "BadRequest(BadRemove)",
        &[
            r#"{"do":"patch","feed":"a","base":3,"remove":null,"advisories":7}"#,
            r#"{"do":"patch","feed":"a","base":3,"remove":"X-1","advisories":[]}"#,
            r#"{"do":"patch","feed":"a","base":3,"remove":{"X-1":"X-2"},"advisories":[]}"#,
            r#"{"do":"patch","feed":"a","base":3,"remove":["X-1",2],"advisories":[]}"#,
            r#"{"do":"patch","feed":"a","base":3,"remove":["X-1",["X-2"]],"advisories":[{}]}"#,
        ],
    ),
    (
        "BadRequest(BadAdvisories)",
        &[
            r#"{"do":"update","feed":"a"}"#,
            r#"{"do":"update","feed":"a","advisories":null}"#,
            r#"{"do":"patch","feed":"a","base":3}"#,
            r#"{"do":"patch","feed":"a","base":3,"remove":[],"advisories":{}}"#,
        ],
    ),
    (
        "BadRequest(BadNumber)",
        &[
            r#"{"do":"page","size":0,"page":0}"#,
            r#"{"do":"page","number":-0,"size":1,"page":1}"#,
            r#"{"do":"ack"}"#,
            r#"{"do":"ack","number":1e3}"#,
            r#"{"do":"ack","number":1.0}"#,
            r#"{"do":"ack","number":18446744073709551616}"#,
        ],
    ),
    (
        "BadRequest(BadSize)",
        &[
            r#"{"do":"page","number":1,"page":0}"#,
            r#"{"do":"page","number":1,"size":0,"page":1}"#,
            r#"{"do":"page","number":1,"size":1001,"page":1}"#,
            r#"{"do":"page","number":1,"size":4294967297,"page":1}"#,
        ],
    ),
    (
        "BadRequest(BadPage)",
        &[
            r#"{"do":"page","number":1,"size":1}"#,
            r#"{"do":"page","number":1,"size":1,"page":0}"#,
            r#"{"do":"page","number":1,"size":1,"page":18446744073709551616}"#,
        ],
    ),
    (
        "BadJson",
        &[
            "",
            " ",
            r#"{"do":"list"} {"#,
            r#"{"do":"list","more":[1e999]}"#,
        ],
    ),
    (
        "BadAdvisory { index: 1, what: NoId }",
        &[
            r#"{"do":"update","feed":"a","advisories":[{"id":"A","modified":"m"},{}]}"#,
            r#"{"do":"patch","feed":"a","base":3,"advisories":[{"id":"A","modified":"m"},{}]}"#,
        ],
    ),
    (
        "DuplicateId { first: 0, second: 1 }",
        &[
            r#"{"do":"update","feed":"a","advisories":[{"id":"A","modified":"m"},{"id":"A","modified":"m"}]}"#,
            r#"{"do":"patch","feed":"a","base":3,"remove":["A"],"advisories":[{"id":"A","modified":"m"},{"id":"A","modified":"m"}]}"#,
        ],
    ),
];

/// A request of lane 0 to list the notifications.
const LIST: &str = "Request { lane: 0, act: List }";

/// Requests without texts, each with its lane and its numbers: numbers at their edges, and of a member that stands twice the last
/// one.
const REQUESTS: &[(&str, &str)] = &[
    (r#"{"do":"list"}"#, LIST),
    (
        r#"{"do":"page","page":18446744073709551615,"number":0,"size":1000}"#,
        "Request { lane: 0, act: Page { number: 0, size: 1000, page: 18446744073709551615 } }",
    ),
    (
        r#"{"do":"ack","number":0}"#,
        "Request { lane: 0, act: Ack(0) }",
    ),
    (
        r#"{"do":"ack","lane":0,"number":4294967296}"#,
        "Request { lane: 0, act: Ack(4294967296) }",
    ),
    (
        r#"{"do":"ack","number":9223372036854775808}"#,
        "Request { lane: 0, act: Ack(9223372036854775808) }",
    ),
    (
        r#"{"do":"ack","number":18446744073709551615}"#,
        "Request { lane: 0, act: Ack(18446744073709551615) }",
    ),
    (
        r#"{"do":"ack","number":null,"number":2}"#,
        "Request { lane: 0, act: Ack(2) }",
    ),
    (
        r#"{"image":null,"do":"ack","page":0,"number":3,"x":[]}"#,
        "Request { lane: 0, act: Ack(3) }",
    ),
    (
        r#"{"lane":1,"do":"ack","number":4}"#,
        "Request { lane: 1, act: Ack(4) }",
    ),
    (
        r#"{"do":"ack","number":4,"lane":7}"#,
        "Request { lane: 7, act: Ack(4) }",
    ),
    (
        r#"{"lane":8,"do":"ack","lane":1,"number":4}"#,
        "Request { lane: 1, act: Ack(4) }",
    ),
];

const DROP: &str =
    r#"{"do":"drop","image":"sha256:1111111111111111111111111111111111111111111111111111111111111111"}"#;

const REPORT: &str =
    r#"{"do":"report","image":"sha256:1111111111111111111111111111111111111111111111111111111111111111"}"#;

const REGISTER: &str =
    r#"{"do":"register","manifest":{"hash":"sha256:1111111111111111111111111111111111111111111111111111111111111111","layers":[{"hash":"sha256:2222222222222222222222222222222222222222222222222222222222222222","uri":"u","headers":{}}]}}"#;

const UPDATE: &str =
    r#"{"do":"update","feed":"a.z_0-9","advisories":[{"id":"B","modified":"m"},{"id":"A","modified":"m"}]}"#;

/// A request, or the fault of a line.
fn answer(alloc: Global, line: &[u8]) -> Result<String, Fail> {
    match read_request(alloc, line) {
        Ok(request) => Ok(format!(in alloc; "{request:?}")?),
        Err(error) => fault(alloc, error),
    }
}

fn fault(alloc: Global, error: RequestError) -> Result<String, Fail> {
    match error.fault() {
        Some(fault) => Ok(format!(in alloc; "{fault:?}")?),
        None => Err(Fail::from(error)),
    }
}

#[test]
fn the_first_fault_of_a_line_is_the_answer(rt: HostRuntime) -> Result<(), Fail> {
    for (want, lines) in REFUSED {
        for line in *lines {
            let answer = answer(rt.alloc(), line.as_bytes())?;
            assert_eq!(rt; answer.as_str(), *want, "{line}");
        }
    }
    Ok(())
}

/// What a line is by a value that owns its texts.
fn owned(alloc: Global, line: &[u8]) -> Result<String, Fail> {
    let value = match read_json(alloc, line) {
        Ok(value) => value,
        Err(error) => return fault(alloc, error),
    };
    match read_value(alloc, &mut NewTexts, &value) {
        Ok(request) => Ok(format!(in alloc; "{request:?}")?),
        Err(error) => fault(alloc, error),
    }
}

#[test]
fn an_owned_value_gives_the_same_answer(rt: HostRuntime) -> Result<(), Fail> {
    for (_, lines) in REFUSED {
        for line in *lines {
            assert_eq!(rt;
                owned(rt.alloc(), line.as_bytes())?,
                answer(rt.alloc(), line.as_bytes())?,
                "{line}"
            );
        }
    }
    for line in [DROP, REPORT, REGISTER, UPDATE] {
        assert_eq!(rt;
            owned(rt.alloc(), line.as_bytes())?,
            answer(rt.alloc(), line.as_bytes())?,
            "{line}"
        );
    }
    for (line, _) in PATCHES {
        assert_eq!(rt;
            owned(rt.alloc(), line.as_bytes())?,
            answer(rt.alloc(), line.as_bytes())?,
            "{line}"
        );
    }
    Ok(())
}

#[test]
fn a_request_has_a_lane_and_numbers(rt: HostRuntime) -> Result<(), Fail> {
    for (line, want) in REQUESTS {
        assert_eq!(rt;
            answer(rt.alloc(), line.as_bytes())?.as_str(),
            *want,
            "{line}"
        );
    }
    Ok(())
}

/// An image as a line names it.
const IMAGE: [u8; 32] = [0x11; 32];

const LAYER: [u8; 32] = [0x22; 32];

/// The command of a request that names an image, and the bytes of that image's hash.
fn command_of_image(request: &Request) -> Option<(&'static str, [u8; 32])> {
    match &request.act {
        Act::Register(manifest) => Some(("register", manifest.hash.bytes())),
        Act::DropImage(image) => Some(("drop", image.bytes())),
        Act::Report(image) => Some(("report", image.bytes())),
        _ => None,
    }
}

#[test]
fn a_request_has_its_image(rt: HostRuntime) -> Result<(), Fail> {
    for (line, command) in [(REGISTER, "register"), (DROP, "drop"), (REPORT, "report")] {
        let request = read_request(rt.alloc(), line.as_bytes())?;
        assert_eq!(rt; command_of_image(&request), Some((command, IMAGE)));
    }
    Ok(())
}

#[test]
fn a_manifest_has_its_layers(rt: HostRuntime) -> Result<(), Fail> {
    let request = read_request(rt.alloc(), REGISTER.as_bytes())?;
    assert!(rt;
        matches!(&request.act, Act::Register(manifest) if manifest.layers.as_slice() == [Digest::of(LAYER)].as_slice())
    );
    Ok(())
}

/// The feed of an update and the ids of its records.
fn update(alloc: Global, act: &Act) -> Result<String, Fail> {
    let mut names = String::new(alloc);
    if let Act::Update { feed, records } = act {
        names.push_str(feed.as_str())?;
        for record in records.as_slice() {
            names.push(' ')?;
            names.push_str(record.id.as_str())?;
        }
    }
    Ok(names)
}

#[test]
fn an_update_has_a_feed_and_records(rt: HostRuntime) -> Result<(), Fail> {
    let request = read_request(rt.alloc(), UPDATE.as_bytes())?;
    assert_eq!(rt; update(rt.alloc(), &request.act)?.as_str(), "a.z_0-9 B A");
    Ok(())
}

/// Patches of a feed, each with its feed, its base, the ids to remove, and the ids of its records. An id may be in both lists, and
/// twice in the first one; a member that stands twice has its last value.
const PATCHES: &[(&str, &str)] = &[
    (
        r#"{"do":"patch","feed":"a","base":0,"advisories":[]}"#,
        "a 0 - +",
    ),
    (
        r#"{"advisories":[{"id":"B","modified":"m","severity":[9.8,-1e3]}],"remove":["B","","X\u002d1","B"],"base":18446744073709551615,"feed":"a","do":"patch"}"#,
        "a 18446744073709551615 - B  X-1 B + B",
    ),
    (
        r#"{"do":"patch","feed":"a","base":-1,"base":3,"remove":7,"remove":[],"advisories":[{"id":"B","modified":"m"},{"id":"A","modified":"m"}]}"#,
        "a 3 - + B A",
    ),
];

/// The parts of a patch.
fn patch(alloc: Global, act: &Act) -> Result<String, Fail> {
    let mut parts = String::new(alloc);
    if let Act::Patch {
        feed,
        base,
        records,
        remove,
    } = act
    {
        parts.push_str(feed.as_str())?;
        parts.push_str(format!(in alloc; " {base} -")?.as_str())?;
        for id in remove.as_slice() {
            parts.push(' ')?;
            parts.push_str(id.as_str())?;
        }
        parts.push_str(" +")?;
        for record in records.as_slice() {
            parts.push(' ')?;
            parts.push_str(record.id.as_str())?;
        }
    }
    Ok(parts)
}

#[test]
fn a_patch_has_its_parts(rt: HostRuntime) -> Result<(), Fail> {
    for (line, want) in PATCHES {
        let request = read_request(rt.alloc(), line.as_bytes())?;
        assert_eq!(rt; patch(rt.alloc(), &request.act)?.as_str(), *want, "{line}");
    }
    Ok(())
}

/// A request of a feed with this number of records that are no records.
fn many(alloc: Global, start: &str, records: usize) -> Result<Vec<u8>, Fail> {
    let mut line = Vec::new(alloc);
    put(&mut line, start)?;
    for _ in 1..records {
        put(&mut line, "7,")?;
    }
    put(&mut line, "7]}")?;
    Ok(line)
}

#[test]
fn a_request_has_at_most_200_000_records(rt: HostRuntime) -> Result<(), Fail> {
    for start in [
        r#"{"do":"update","feed":"a","advisories":["#,
        r#"{"do":"patch","feed":"a","base":3,"advisories":["#,
    ] {
        for (records, want) in [
            (200_000, "BadAdvisory { index: 0, what: NotObject }"),
            (200_001, "TooManyAdvisories"),
        ] {
            let line = many(rt.alloc(), start, records)?;
            assert_eq!(rt; answer(rt.alloc(), line.as_slice())?.as_str(), want);
        }
    }
    Ok(())
}

/// A request whose ignored member nests this number of lists.
fn nested(alloc: Global, lists: usize) -> Result<String, Fail> {
    let mut line = String::from_str(alloc, r#"{"do":"list","x":"#)?;
    for _ in 0..lists {
        line.push('[')?;
    }
    for _ in 0..lists {
        line.push(']')?;
    }
    line.push('}')?;
    Ok(line)
}

#[test]
fn a_line_nests_127_values(rt: HostRuntime) -> Result<(), Fail> {
    for (lists, want) in [(126, LIST), (127, "BadJson")] {
        let line = nested(rt.alloc(), lists)?;
        assert_eq!(rt;
            answer(rt.alloc(), line.as_bytes())?.as_str(),
            want,
            "{lists} lists"
        );
    }
    Ok(())
}

fn is_shared<T: Send + Sync>() {}

#[test]
fn threads_may_share_a_request_and_a_refusal() {
    is_shared::<(Request, Act, RequestError, RequestFault)>();
}

/// As many bytes as a line of the input may have.
const LONGEST_LINE: usize = 67_108_864;

fn put(line: &mut Vec<u8>, text: &str) -> Result<(), Fail> {
    for byte in text.as_bytes() {
        line.push(*byte)?;
    }
    Ok(())
}

/// A request whose line is as long as it may be, by a member that is ignored.
fn longest_request(alloc: Global) -> Result<Vec<u8>, Fail> {
    let mut line = Vec::new(alloc);
    put(&mut line, r#"{"do":"list","more":""#)?;
    for _ in 0..LONGEST_LINE - 23 {
        line.push(b'a')?;
    }
    put(&mut line, r#""}"#)?;
    Ok(line)
}

#[test]
fn a_line_of_64_mebibytes_is_read_to_its_end(rt: HostRuntime) -> Result<(), Fail> {
    let mut line = longest_request(rt.alloc())?;
    assert_eq!(rt; line.len(), LONGEST_LINE);
    assert_eq!(rt; answer(rt.alloc(), line.as_slice())?.as_str(), LIST);
    put(&mut line, "}")?;
    assert_eq!(rt; answer(rt.alloc(), line.as_slice())?.as_str(), "BadJson");
    Ok(())
}
