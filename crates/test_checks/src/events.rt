//! Applies events to the core of the service.
mod replay;
mod script;
mod tally;

use crate::events::replay::{LIMITS, replay_all};
use crate::events::script::run_script;
use crate::service::Service;
use cv_base::NoMemory;
use cv_core::Core;
use std::alloc::Global;
use std::{fs, io};
use test_plain::Lines;

/// Prints for each event its reply and what it leaves: how many events there were, which layers wait for a worker, the notifications,
/// and the reports of all images. First come the events of the file `events.txt`, a line each, and then generated ones, which a plain
/// machine on lists does as well: it is printed how often both say the same.
pub fn apply_events(rt: &HostRuntime) -> io::Result<()> {
    let script = fs::read_to_string(rt, "events.txt")?;
    let mut out = Lines::new(rt.alloc());
    check(rt.alloc(), script.as_str(), &mut out);
    if out.has_failed() {
        return println!(rt; "out of memory");
    }
    print!(rt; "{}", out.as_str())
}

/// The one function that owns a core.
fn check(alloc: Global, script: &str, out: &mut Lines) {
    match Core::new(alloc, LIMITS) {
        Ok(mut core) => check_core(alloc, &mut core, script, out),
        Err(NoMemory) => out.fail(),
    }
}

fn check_core(alloc: Global, core: &mut Service, script: &str, out: &mut Lines) {
    run_script(alloc, core, script, out);
    if replay_all(alloc, core, out).is_err() {
        out.fail();
    }
}
