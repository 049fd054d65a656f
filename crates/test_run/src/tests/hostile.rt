//! The whole program over layers and inputs of hostile sizes.
use std::alloc::Global;
use std::process::Abort;
use std::sync::Wait;
use std::thread::Threads;
use test_commands::{NoMemory, Status, hostile_runs_to};

/// An image without findings.
const NONE_FOUND: &str = r#"{"findings":[],"image":"<1>","reply":"good"}
"#;

/// Layers by the first five bytes of their digests, with how a scan of each ends and what it prints: the most files that a layer may
/// have, directories in one another up to the longest path, the most bytes of a status file; and a file and a byte more.
static SCANS: [(&str, Status, &str); 5] = [
    ("04000f4240", Status::Done, NONE_FOUND),
    ("0500000800", Status::Done, NONE_FOUND),
    ("0602000000", Status::Done, NONE_FOUND),
    (
        "04000f4241",
        Status::Refused,
        r#"{"bad":{"cause":"bad_tree","layer":0,"what":"too_many"},"image":"<1>","reply":"bad_image"}
"#,
    ),
    (
        "0602000001",
        Status::Refused,
        r#"{"bad":{"cause":"too_large","path":"var/lib/dpkg/status"},"image":"<1>","reply":"bad_image"}
"#,
    ),
];

/// Runs the program, and compares how it ends and what it prints.
fn try_run<R: Abort + Threads + Wait + Sync>(
    rt: &R,
    alloc: Global,
    arguments: &[&str],
    input: &str,
    want: (Status, &str),
) -> Result<(), NoMemory> {
    let is_same = hostile_runs_to(rt, alloc, arguments, input, want)?;
    assert!(rt; is_same, "{arguments:?}");
    Ok(())
}

/// One text before a number of another, and one after them.
fn text(
    alloc: Global,
    before: &str,
    each: &str,
    count: usize,
    after: &str,
) -> Result<String, NoMemory> {
    let mut text = String::from_str(alloc, before)?;
    text.push_str(each.repeat(alloc, count)?.as_str())?;
    text.push_str(after)?;
    Ok(text)
}

#[test]
fn layers_of_hostile_sizes_are_scanned_or_named(rt: HostRuntime) -> Result<(), NoMemory> {
    for (spelled, status, output) in &SCANS {
        let mut before = String::from_str(
            rt.alloc(),
            r#"{"hash":"<1>","layers":[{"hash":"sha256:"#,
        )?;
        before.push_str(spelled)?;
        let input = text(rt.alloc(), before.as_str(), "0", 54, r#""}]}"#)?;
        try_run(
            &rt,
            rt.alloc(),
            &["scan"],
            input.as_str(),
            (*status, *output),
        )?;
    }
    Ok(())
}

/// The line that registers an image whose one layer is named so often.
fn registration(alloc: Global, count: usize) -> Result<String, NoMemory> {
    let before = r#"{"do":"register","manifest":{"hash":"<1>","layers":["#;
    text(
        alloc,
        before,
        r#"{"hash":"<a>"},"#,
        count.saturating_sub(1),
        r#"{"hash":"<a>"}]}}
"#,
    )
}

#[test]
fn an_image_has_at_most_128_layers(rt: HostRuntime) -> Result<(), NoMemory> {
    let mut input = registration(rt.alloc(), 128)?;
    input.push_str(registration(rt.alloc(), 129)?.as_str())?;
    let output = r#"{"line":2,"refused":"bad_request","what":"too_many_layers"}
{"at":1,"event":"register","image":"<1>","lane":0,"line":1,"reply":"registered"}
{"at":2,"event":"claim","layer":"<a>","reply":"claimed","worker":0}
{"at":3,"event":"indexed","layer":"<a>","reply":"entered","worker":0}
"#;
    let want = (Status::Done, output);
    try_run(
        &rt,
        rt.alloc(),
        &["serve", "--workers=1"],
        input.as_str(),
        want,
    )
}

#[test]
fn a_round_ends_with_its_4096th_line(rt: HostRuntime) -> Result<(), NoMemory> {
    let alloc = rt.alloc();
    let input = text(alloc, "", "{\"do\":\"list\"}\n", 4097, "")?;
    let mut output = String::new(alloc);
    for line in 1..=4097_u32 {
        output.push_str(r#"{"at":0,"lane":0,"line":"#)?;
        output.push_str(line.to_string(alloc)?.as_str())?;
        output.push_str(",\"notifications\":[],\"read\":\"list\",\"reply\":\"list\"}\n")?;
    }
    let want = (Status::Done, output.as_str());
    try_run(&rt, alloc, &["serve", "--workers=1"], input.as_str(), want)
}

#[test]
fn a_feed_has_at_most_200_000_records(rt: HostRuntime) -> Result<(), NoMemory> {
    let alloc = rt.alloc();
    let before = r#"{"do":"update","feed":"x","advisories":["#;
    let input = text(alloc, before, "{},", 200_000, "{}]}")?;
    let output = r#"{"line":1,"refused":"too_many_advisories"}
"#;
    try_run(
        &rt,
        alloc,
        &["serve"],
        input.as_str(),
        (Status::Done, output),
    )
}
