use std::alloc::Global;
use std::process::Abort;
use std::sync::Wait;
use std::thread::Threads;
use test_commands::{
    Call, MemDisk, MemSink, NoMemory, Status, USAGE, after_one_of, disk_of, is_ended, run_on,
    unless_out_of_memory,
};

/// The service with one worker, whose events are kept.
const KEEP: [&str; 3] = ["keep", "--workers", "1"];

/// A round with an event, one with two, and one without any.
const INPUT: &str = r#"{"do":"register","manifest":{"hash":"<1>","layers":[{"hash":"<a>"}]}}
{"do":"report","image":"<1>"}


{"do":"report","image":"<1>"}"#;

/// What is printed of all three rounds.
const OUTPUT: &str = r#"{"events":0,"generation":0,"reply":"resumed"}
{"at":1,"event":"register","image":"<1>","lane":0,"line":1,"reply":"registered"}
{"at":1,"image":"<1>","lane":0,"layer":"<a>","line":2,"read":"report","reply":"pending"}
{"at":2,"event":"claim","layer":"<a>","reply":"claimed","worker":0}
{"at":3,"event":"indexed","layer":"<a>","reply":"entered","worker":0}
{"at":3,"findings":[],"generation":0,"image":"<1>","lane":0,"line":5,"read":"report","reply":"good"}
"#;

/// What is printed of the first round.
const FIRST: &str = r#"{"events":0,"generation":0,"reply":"resumed"}
{"at":1,"event":"register","image":"<1>","lane":0,"line":1,"reply":"registered"}
{"at":1,"image":"<1>","lane":0,"layer":"<a>","line":2,"read":"report","reply":"pending"}
"#;

/// What is printed on a disk without records, if the input has no line.
const RESUMED: &str = r#"{"events":0,"generation":0,"reply":"resumed"}
"#;

/// What is printed of an input without a line after the first event, and after all three.
const AFTER: [&str; 2] = [
    r#"{"events":1,"generation":0,"reply":"resumed"}
{"at":2,"event":"claim","layer":"<a>","reply":"claimed","worker":0}
{"at":3,"event":"indexed","layer":"<a>","reply":"entered","worker":0}
"#,
    r#"{"events":3,"generation":0,"reply":"resumed"}
"#,
];

/// What is printed of an input without a line after three events of which the last one says that a worker ran out of memory.
const AFTER_MEMORY: [&str; 1] = [
    r#"{"events":3,"generation":0,"reply":"resumed"}
{"at":4,"event":"claim","layer":"<a>","reply":"claimed","worker":0}
{"at":5,"event":"indexed","layer":"<a>","reply":"entered","worker":0}
"#,
];

/// Runs the service on a disk, and compares how it ends and what it prints.
fn try_keep<R: Abort + Threads + Wait + Sync>(
    rt: &R,
    alloc: Global,
    input: &str,
    disk: &mut MemDisk,
    (status, output): (Status, &str),
) -> Result<(), NoMemory> {
    let ended = run_on(rt, alloc, &KEEP, input, disk)?;
    let is_same = is_ended(alloc, &ended, status, output)?;
    assert!(rt; is_same, "{status:?}");
    Ok(())
}

/// A disk on which all three rounds were served.
fn served<R: Abort + Threads + Wait + Sync>(rt: &R, alloc: Global) -> Result<MemDisk, NoMemory> {
    let mut disk = disk_of(alloc, &[], &[], u64::MAX)?;
    try_keep(rt, alloc, INPUT, &mut disk, (Status::Done, OUTPUT))?;
    Ok(disk)
}

#[test]
fn a_service_goes_on_from_its_events(rt: HostRuntime) -> Result<(), NoMemory> {
    let mut disk = served(&rt, rt.alloc())?;
    let output = r#"{"events":3,"generation":0,"reply":"resumed"}
{"at":3,"findings":[],"generation":0,"image":"<1>","lane":0,"line":1,"read":"report","reply":"good"}
"#;
    let input = r#"{"do":"report","image":"<1>"}"#;
    try_keep(&rt, rt.alloc(), input, &mut disk, (Status::Done, output))
}

/// The second record is written by the last four calls. The disk is stopped at each of them.
#[test]
fn a_round_is_kept_or_it_is_not(rt: HostRuntime) -> Result<(), NoMemory> {
    let alloc = rt.alloc();
    let calls = served(&rt, alloc)?.calls().len() as u64;
    for back in 1..=4 {
        let mut disk = disk_of(alloc, &[], &[], calls.saturating_sub(back))?;
        try_keep(&rt, alloc, INPUT, &mut disk, (Status::KeepFault, FIRST))?;
        let ended = run_on(&rt, alloc, &KEEP, "", &mut disk.crashed()?)?;
        if is_one_of(alloc, &ended.1, &AFTER_MEMORY)? {
            // the event stands in the round that was not printed
            return Err(NoMemory);
        }
        let is_right = ended.0 == Status::Done && is_one_of(alloc, &ended.1, &AFTER)?;
        assert!(rt; unless_out_of_memory(&ended, is_right)?, "{back}");
    }
    Ok(())
}

/// Whether this and no more was printed, of one of these texts.
fn is_one_of(alloc: Global, sink: &MemSink, texts: &[&str]) -> Result<bool, NoMemory> {
    Ok(matches!(after_one_of(alloc, sink.bytes(), texts)?, Some([])))
}

#[test]
fn an_open_gate_without_a_record_is_cut(rt: HostRuntime) -> Result<(), NoMemory> {
    let mut disk = disk_of(rt.alloc(), &[1], &[], u64::MAX)?;
    try_keep(&rt, rt.alloc(), "", &mut disk, (Status::Done, RESUMED))
}

/// The fourth sync is the first one of the first record: nothing of the round is printed.
#[test]
fn a_round_that_is_not_kept_is_not_printed(rt: HostRuntime) -> Result<(), NoMemory> {
    let alloc = rt.alloc();
    let whole = served(&rt, alloc)?;
    let Some(fourth) = fourth_sync(whole.calls()) else {
        assert!(rt; false, "there are four syncs");
        return Ok(());
    };
    let mut disk = disk_of(alloc, &[], &[fourth], u64::MAX)?;
    try_keep(&rt, alloc, INPUT, &mut disk, (Status::KeepFault, RESUMED))
}

/// The number of the fourth sync, from 1.
fn fourth_sync(calls: &[Call]) -> Option<u64> {
    let mut number = 0_u64;
    let mut syncs = 0_u64;
    for call in calls {
        number = number.saturating_add(1);
        if matches!(call, Call::Sync(_)) {
            syncs = syncs.saturating_add(1);
            if syncs == 4 {
                return Some(number);
            }
        }
    }
    None
}

#[test]
fn a_bad_record_is_named(rt: HostRuntime) -> Result<(), NoMemory> {
    let alloc = rt.alloc();
    let mut bytes = served(&rt, alloc)?.bytes().to_vec(alloc)?;
    bytes.pop();
    // a whole record without an event
    bytes.extend_from_slice(&[1, 0, 0, 0, 0, 0, 0, 0, 0, 0])?;
    let mut disk = disk_of(alloc, bytes.as_slice(), &[], u64::MAX)?;
    let output = r#"{"record":2,"refused":"bad_keep"}
"#;
    try_keep(&rt, alloc, INPUT, &mut disk, (Status::BadKeep, output))
}

#[test]
fn other_arguments_leave_the_disk_alone(rt: HostRuntime) -> Result<(), NoMemory> {
    let alloc = rt.alloc();
    for (arguments, status, output) in [
        (["keep", "--workers", "2"], Status::Usage, USAGE),
        (["serve", "--workers", "1"], Status::Done, ""),
        (["order", "deb", "1"], Status::Usage, USAGE),
    ] {
        let mut disk = disk_of(alloc, &[], &[], 0)?;
        let ended = run_on(&rt, alloc, &arguments, "", &mut disk)?;
        let is_same = is_ended(alloc, &ended, status, output)?;
        assert!(rt; is_same && disk.calls().is_empty(), "{arguments:?}");
    }
    Ok(())
}
