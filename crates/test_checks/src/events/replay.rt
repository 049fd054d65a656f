use crate::events::tally::{Named, count, show_counts};
use crate::service::{Service, report_step, restart, show_page};
use cv_base::NoMemory;
use cv_core::Limits;
use std::alloc::Global;
use test_plain::{Draws, Lines, Machine, Step};

/// How many runs there are, and how many events each has. Each begins with a new core.
const RUNS: u64 = 8;

const EVENTS: u64 = 250;

/// More rows than an update has.
const SIZE: u64 = 1000;

/// How many images and feeds a core may have.
pub const LIMITS: Limits = Limits {
    images: 5,
    feeds: 2,
};

/// What stands in a text with a report or a row of a sort, and the name of the sort.
const SIGNS: [(&str, &str); 7] = [
    (" good at ", "an image is good"),
    (" waits for ", "an image waits"),
    (" bad: ", "an image is bad"),
    (" another seal at ", "an image has another seal"),
    (" added, ", "the last rows have additions"),
    (" removed, ", "the last rows have removals"),
    (" changed, ", "the last rows have changes"),
];

/// Does the events of all runs by the core and by a plain machine, and writes how often both said the same.
pub fn replay_all(alloc: Global, core: &mut Service, out: &mut Lines) -> Result<(), NoMemory> {
    out.word("\n# GENERATED EVENTS\n");
    let mut counts = Vec::new(alloc);
    for seed in 0..RUNS {
        restart(alloc, core, LIMITS)?;
        replay_run(alloc, core, seed, &mut counts, out)?;
    }
    show_counts(out, &counts);
    Ok(())
}

/// Does the events of a run.
fn replay_run(
    alloc: Global,
    core: &mut Service,
    seed: u64,
    counts: &mut Vec<Named>,
    out: &mut Lines,
) -> Result<(), NoMemory> {
    let mut machine = Machine::new(alloc, LIMITS)?;
    let mut draws = Draws::new(seed);
    for _ in 0..EVENTS {
        let step = draws.step(&machine);
        replay_step(alloc, core, &mut machine, step, counts, out)?;
    }
    Ok(())
}

/// Does an event in both ways. Where they differ, it writes what both say.
fn replay_step(
    alloc: Global,
    core: &mut Service,
    machine: &mut Machine,
    step: Step<'static>,
    counts: &mut Vec<Named>,
    out: &mut Lines,
) -> Result<(), NoMemory> {
    let mut wanted = Lines::new(alloc);
    machine.report_step(alloc, step, &mut wanted)?;
    machine.show_page(&mut wanted, machine.last());
    let mut shown = Lines::new(alloc);
    let reply = report_step(alloc, core, step, &mut shown);
    show_page(&mut shown, core.notices(), machine.last(), SIZE, 1);
    compare(counts, &wanted, &shown, out)?;
    count(counts, reply)?;
    watch(counts, shown.as_str())
}

/// Counts what is seen after an event.
fn watch(counts: &mut Vec<Named>, text: &str) -> Result<(), NoMemory> {
    for (sign, name) in SIGNS {
        if text.contains(sign) {
            count(counts, name)?;
        }
    }
    Ok(())
}

/// Counts whether both ways say the same. If they do not, it writes what both say.
fn compare(
    counts: &mut Vec<Named>,
    wanted: &Lines,
    shown: &Lines,
    out: &mut Lines,
) -> Result<(), NoMemory> {
    count(counts, "events")?;
    if shown.as_str() == wanted.as_str() {
        return count(counts, "agreed");
    }
    count(counts, "differed")?;
    out.word("wanted");
    out.word(wanted.as_str());
    out.word("\nshown");
    out.word(shown.as_str());
    out.word("\n");
    Ok(())
}
