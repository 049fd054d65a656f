mod failures;
mod patches;
mod services;
mod usages;
mod writes;

use std::alloc::Global;
use std::process::Abort;
use std::sync::Wait;
use std::thread::Threads;
use test_commands::{CALM, NoMemory, Outside, Status, USAGE, runs_to, scan_input};

/// Runs a command that reads no input, and compares how it ends and what it prints.
fn try_command<R: Abort + Threads + Wait + Sync>(
    rt: &R,
    alloc: Global,
    arguments: &[&str],
    want: (Status, &str),
) -> Result<(), NoMemory> {
    let is_same = runs_to(rt, alloc, arguments, "", &CALM, want)?;
    assert!(rt; is_same, "{arguments:?}");
    Ok(())
}

/// Runs the service with one worker, and compares how it ends and what it prints.
fn try_session<R: Abort + Threads + Wait + Sync>(
    rt: &R,
    alloc: Global,
    input: &str,
    outside: &Outside,
    want: (Status, &str),
) -> Result<(), NoMemory> {
    let arguments = ["serve", "--workers", "1"];
    let is_same = runs_to(rt, alloc, &arguments, input, outside, want)?;
    assert!(rt; is_same, "{outside:?} {input}");
    Ok(())
}

/// A layer, the record that is sent with it, and what is printed of its package.
static SCANS: [(&str, &str, &str); 2] = [
    (
        "a",
        "<X-1>",
        r#"{"findings":[<openssl-found>],"image":"<1>","reply":"good"}
"#,
    ),
    (
        "8",
        "<python-foo-bar>",
        r#"{"findings":[<python-found>],"image":"<1>","reply":"good"}
"#,
    ),
];

#[test]
fn a_scan_prints_its_findings(rt: HostRuntime) -> Result<(), NoMemory> {
    for (layer, record, output) in &SCANS {
        let input = scan_input(rt.alloc(), layer, record)?;
        let want = (Status::Done, *output);
        let is_same = runs_to(&rt, rt.alloc(), &["scan"], input.as_str(), &CALM, want)?;
        assert!(rt; is_same, "{layer} {record}");
    }
    Ok(())
}

#[test]
fn a_list_of_packages_is_scanned_like_the_image(rt: HostRuntime) -> Result<(), NoMemory> {
    let image = scan_input(rt.alloc(), "a", "")?;
    let want = (Status::Done, "<libssl3-list>\n");
    let is_same = runs_to(&rt, rt.alloc(), &["sbom"], image.as_str(), &CALM, want)?;
    assert!(rt; is_same);
    let output = r#"{"findings":[<openssl-found>],"image":"<1>","reply":"good","skipped":0}
"#;
    let want = (Status::Done, output);
    let list = "<libssl3-list>\n<X-1>";
    let is_same = runs_to(&rt, rt.alloc(), &["scan-list"], list, &CALM, want)?;
    assert!(rt; is_same);
    Ok(())
}

#[test]
fn versions_compare(rt: HostRuntime) -> Result<(), NoMemory> {
    for arguments in [
        &["order", "deb", "1.0~rc1", "1.0"],
        &["order", "pypi", "1.0rc1", "1.0"],
    ] {
        try_command(&rt, rt.alloc(), arguments, (Status::Done, "<\n"))?;
    }
    Ok(())
}

#[test]
fn arguments_that_are_not_a_command(rt: HostRuntime) -> Result<(), NoMemory> {
    for arguments in &usages::USAGES {
        try_command(&rt, rt.alloc(), arguments, (Status::Usage, USAGE))?;
    }
    Ok(())
}

#[test]
fn a_service_prints_its_transcript(rt: HostRuntime) -> Result<(), NoMemory> {
    for (arguments, input, output) in &services::CASES {
        let want = (Status::Done, *output);
        let is_same = runs_to(&rt, rt.alloc(), arguments, input, &CALM, want)?;
        assert!(rt; is_same, "{arguments:?} {input}");
    }
    Ok(())
}

#[test]
fn a_patch_changes_the_feed_that_it_knows(rt: HostRuntime) -> Result<(), NoMemory> {
    for (input, output) in &patches::CASES {
        try_session(&rt, rt.alloc(), input, &CALM, (Status::Done, *output))?;
    }
    Ok(())
}

#[test]
fn a_layer_that_could_not_be_read_is_claimed_again(rt: HostRuntime) -> Result<(), NoMemory> {
    let want = (Status::Done, failures::CLAIMED_AGAIN);
    for desk in &failures::DESK_CALLS {
        let outside = Outside {
            desk: *desk,
            ..CALM
        };
        try_session(&rt, rt.alloc(), failures::SESSION, &outside, want)?;
    }
    Ok(())
}

#[test]
fn a_read_that_fails_is_blamed(rt: HostRuntime) -> Result<(), NoMemory> {
    for (reads, input, output) in &failures::READS {
        let outside = Outside {
            piece: 4096,
            reads: *reads,
            ..CALM
        };
        let want = (Status::ReadFault, *output);
        try_session(&rt, rt.alloc(), input, &outside, want)?;
    }
    Ok(())
}

#[test]
fn the_lines_before_a_failing_write_stand(rt: HostRuntime) -> Result<(), NoMemory> {
    for (writes, output) in &writes::CASES {
        let outside = Outside {
            piece: 4096,
            writes: *writes,
            ..CALM
        };
        let want = (Status::WriteFault, *output);
        try_session(&rt, rt.alloc(), writes::SESSION, &outside, want)?;
    }
    Ok(())
}
