use std::alloc::Global;
use std::process::Abort;
use std::sync::Wait;
use std::thread::Threads;
use test_commands::{
    NoMemory, Outcome, Status, disk_of, hook_of, is_ended, run_before, unless_out_of_memory,
};

/// The service with one worker, whose notifications are pushed.
const PUSH: [&str; 3] = ["push", "--workers", "1"];

/// An image that is indexed, and an update that raises a notification, in three rounds.
const INPUT: &str = r#"{"do":"register","manifest":{"hash":"<1>","layers":[{"hash":"<a>"}]}}


{"do":"update","feed":"deb","advisories":[{"id":"X-1",<openssl>}]}

"#;

/// What is printed of these rounds.
const OUTPUT: &str =
    r#"{"at":1,"event":"register","image":"<1>","lane":0,"line":1,"reply":"registered"}
{"at":2,"event":"claim","layer":"<a>","reply":"claimed","worker":0}
{"at":3,"event":"indexed","layer":"<a>","reply":"entered","worker":0}
{"at":4,"event":"update","feed":"deb","generation":1,"lane":0,"line":4,"reply":"updated","rows":1}
"#;

/// One text after the other.
fn joined(alloc: Global, first: &str, second: &str) -> Result<String, NoMemory> {
    let mut text = String::new(alloc);
    text.push_str(first)?;
    text.push_str(second)?;
    Ok(text)
}

/// Runs the service on the three rounds and what comes after them, before a hook whose first offers end so. Compares how it ends, what it
/// prints after the events, and how many offers there were.
fn try_push<R: Abort + Threads + Wait + Sync>(
    rt: &R,
    alloc: Global,
    outcomes: &[Outcome],
    (after, printed): (&str, &str),
    offers: u64,
) -> Result<(), NoMemory> {
    let input = joined(alloc, INPUT, after)?;
    let output = joined(alloc, OUTPUT, printed)?;
    let mut disk = disk_of(alloc, &[], &[], 0)?;
    let mut hook = hook_of(alloc, outcomes)?;
    let ended = run_before(rt, alloc, &PUSH, input.as_str(), &mut disk, &mut hook)?;
    let is_same = is_ended(alloc, &ended, Status::Done, output.as_str())?;
    let is_offered = unless_out_of_memory(&ended, hook.offers() == offers)?;
    assert!(rt;
        is_same && is_offered && disk.calls().is_empty(),
        "{after:?}"
    );
    Ok(())
}

/// A round without requests makes attempts too.
#[test]
fn what_was_refused_is_offered_again_in_the_next_round(rt: HostRuntime) -> Result<(), NoMemory> {
    let printed = r#"{"hook":"refused","number":1}
{"hook":"taken","number":1}
"#;
    try_push(
        &rt,
        rt.alloc(),
        &[Outcome::Refused, Outcome::Taken],
        ("\n", printed),
        2,
    )
}

#[test]
fn what_was_acknowledged_is_not_offered(rt: HostRuntime) -> Result<(), NoMemory> {
    let printed = r#"{"hook":"refused","number":1}
{"at":5,"event":"ack","lane":0,"line":6,"number":1,"reply":"acked"}
"#;
    let after = r#"{"do":"ack","number":1}"#;
    try_push(
        &rt,
        rt.alloc(),
        &[Outcome::Refused, Outcome::Taken],
        (after, printed),
        1,
    )
}

#[test]
fn a_hook_that_fails_does_not_end_the_service(rt: HostRuntime) -> Result<(), NoMemory> {
    let printed = r#"{"hook":"fault","number":1}
{"hook":"taken","number":1}
"#;
    try_push(
        &rt,
        rt.alloc(),
        &[Outcome::Fault, Outcome::Taken],
        ("\n", printed),
        2,
    )
}

#[test]
fn other_arguments_leave_the_hook_alone(rt: HostRuntime) -> Result<(), NoMemory> {
    let alloc = rt.alloc();
    for arguments in [
        ["serve", "--workers", "1"],
        ["keep", "--workers", "1"],
        ["push", "--workers", "2"],
    ] {
        let mut disk = disk_of(alloc, &[], &[], u64::MAX)?;
        let mut hook = hook_of(alloc, &[])?;
        let ended = run_before(&rt, alloc, &arguments, INPUT, &mut disk, &mut hook)?;
        assert!(rt;
            unless_out_of_memory(&ended, hook.offers() == 0)?,
            "{arguments:?}"
        );
    }
    Ok(())
}
