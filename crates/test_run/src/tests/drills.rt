use std::process::Abort;
use std::str;
use test_commands::{MemSink, NoMemory, Status, run_by_two};

#[test]
fn a_drill_prints_the_same_at_each_run(rt: HostRuntime) -> Result<(), NoMemory> {
    let (first, _) = run_by_two(&rt, rt.alloc(), &["drill", "7"], "", 0)?;
    let (second, _) = run_by_two(&rt, rt.alloc(), &["drill", "7"], "", 0)?;
    compare(&rt, &first, &second);
    Ok(())
}

/// Both drills were done, and printed the same summary. It does not say whether memory ran out in a session, which makes
/// its numbers smaller.
fn compare<R: Abort>(rt: &R, first: &(Status, MemSink), second: &(Status, MemSink)) {
    assert_eq!(rt; first.0, Status::Done);
    assert_eq!(rt; second.0, Status::Done);
    let summary = first.1.bytes();
    let front = b"images 64, layers 175, generation 2, notifications 2, rows ";
    let is_same = summary.starts_with(front.as_slice())
        && summary.ends_with(b"\n".as_slice())
        && summary == second.1.bytes();
    let how = if is_same {
        "as wanted"
    } else {
        "otherwise, as where memory runs out in a session"
    };
    assert_eq!(rt;
        how,
        "as wanted",
        "{}",
        str::from_utf8(summary).unwrap_or("")
    );
}
