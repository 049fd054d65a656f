use std::alloc::Global;
use std::process::Abort;
use std::sync::Wait;
use std::thread::Threads;
use test_commands::{
    NoMemory, Status, USAGE, after_one_of, is_ended, run_by_two, unless_out_of_memory,
};

#[test]
fn as_many_workers_as_desks(rt: HostRuntime) -> Result<(), NoMemory> {
    try_serve(&rt, rt.alloc(), &["serve", "--workers=2"], Status::Done, "")?;
    try_serve(
        &rt,
        rt.alloc(),
        &["serve", "--workers", "3"],
        Status::Usage,
        USAGE,
    )
}

/// Serves no input over two desks, and compares how it ends and what it prints.
fn try_serve<R: Abort + Threads + Wait + Sync>(
    rt: &R,
    alloc: Global,
    arguments: &[&str],
    status: Status,
    output: &str,
) -> Result<(), NoMemory> {
    let (ended, _) = run_by_two(rt, alloc, arguments, "", 0)?;
    let is_same = is_ended(alloc, &ended, status, output)?;
    assert!(rt; is_same, "{arguments:?}");
    Ok(())
}

/// An image that is indexed by either of two workers.
static INDEXED: [&str; 2] = [
    r#"{"at":1,"event":"register","image":"<1>","lane":0,"line":1,"reply":"registered"}
{"at":2,"event":"claim","layer":"<a>","reply":"claimed","worker":0}
{"at":3,"event":"indexed","layer":"<a>","reply":"entered","worker":0}
"#,
    r#"{"at":1,"event":"register","image":"<1>","lane":0,"line":1,"reply":"registered"}
{"at":2,"event":"claim","layer":"<a>","reply":"claimed","worker":1}
{"at":3,"event":"indexed","layer":"<a>","reply":"entered","worker":1}
"#,
];

/// A round with an update and two lanes that read: the one of the update sees it, and the other one may see it or not, but no read of
/// a lane sees less than the one before it.
static READ: [&str; 3] = [
    r#"{"at":3,"findings":[],"generation":0,"image":"<1>","lane":0,"line":4,"read":"report","reply":"good"}
{"at":3,"findings":[],"generation":0,"image":"<1>","lane":0,"line":7,"read":"report","reply":"good"}
{"at":4,"event":"update","feed":"deb","generation":1,"lane":1,"line":5,"reply":"updated","rows":1}
{"at":4,"findings":[<openssl-in-deb>],"generation":1,"image":"<1>","lane":1,"line":6,"read":"report","reply":"good"}
"#,
    r#"{"at":3,"findings":[],"generation":0,"image":"<1>","lane":0,"line":4,"read":"report","reply":"good"}
{"at":4,"event":"update","feed":"deb","generation":1,"lane":1,"line":5,"reply":"updated","rows":1}
{"at":4,"findings":[<openssl-in-deb>],"generation":1,"image":"<1>","lane":0,"line":7,"read":"report","reply":"good"}
{"at":4,"findings":[<openssl-in-deb>],"generation":1,"image":"<1>","lane":1,"line":6,"read":"report","reply":"good"}
"#,
    r#"{"at":4,"event":"update","feed":"deb","generation":1,"lane":1,"line":5,"reply":"updated","rows":1}
{"at":4,"findings":[<openssl-in-deb>],"generation":1,"image":"<1>","lane":0,"line":4,"read":"report","reply":"good"}
{"at":4,"findings":[<openssl-in-deb>],"generation":1,"image":"<1>","lane":0,"line":7,"read":"report","reply":"good"}
{"at":4,"findings":[<openssl-in-deb>],"generation":1,"image":"<1>","lane":1,"line":6,"read":"report","reply":"good"}
"#,
];

#[test]
fn a_lane_sees_its_own_update(rt: HostRuntime) -> Result<(), NoMemory> {
    let input = r#"{"do":"register","manifest":{"hash":"<1>","layers":[{"hash":"<a>"}]}}


{"do":"report","image":"<1>"}
{"do":"update","lane":1,"feed":"deb","advisories":[{"id":"X-1",<openssl>}]}
{"do":"report","lane":1,"image":"<1>"}
{"do":"report","image":"<1>"}"#;
    let (ended, _) = run_by_two(&rt, rt.alloc(), &["serve"], input, 0)?;
    let is_right = is_transcript(rt.alloc(), ended.1.bytes())?;
    assert!(rt; unless_out_of_memory(&ended, is_right)?);
    assert_eq!(rt; ended.0, Status::Done);
    Ok(())
}

/// Whether an image is indexed by either worker, and then the lanes read one of the things that they may.
fn is_transcript(alloc: Global, bytes: &[u8]) -> Result<bool, NoMemory> {
    let Some(rest) = after_one_of(alloc, bytes, &INDEXED)? else {
        return Ok(false);
    };
    let end = after_one_of(alloc, rest, &READ)?;
    Ok(matches!(end, Some([])))
}

#[test]
fn two_workers_list_layers_at_once(rt: HostRuntime) -> Result<(), NoMemory> {
    let input =
        r#"{"do":"register","manifest":{"hash":"<1>","layers":[{"hash":"<a>"},{"hash":"<b>"}]}}"#;
    let (ended, is_beside) = run_by_two(&rt, rt.alloc(), &["serve", "--workers", "2"], input, 2)?;
    assert_eq!(rt; ended.0, Status::Done);
    let how = if unless_out_of_memory(&ended, is_beside)? {
        "at once"
    } else {
        "in turn, as without memory for a thread"
    };
    assert_eq!(rt; how, "at once");
    Ok(())
}
