use crate::service::{
    Service, report_step, restart, show_heads, show_page, show_queued, show_report,
};
use cv_core::{Limits, MAX_FEEDS, MAX_IMAGES};
use std::alloc::Global;
use test_plain::{Lines, Patch, Step, Work, code_of, feed_of};

/// Does what each line of a script says, and writes the line and what came of it.
pub fn run_script(alloc: Global, core: &mut Service, script: &str, out: &mut Lines) {
    for line in script.lines() {
        out.word(line);
        run_line(alloc, core, line, out);
        out.word("\n");
    }
}

/// Reads, new cores and headings. All other lines are events.
fn run_line(alloc: Global, core: &mut Service, line: &str, out: &mut Lines) {
    let (verb, rest) = line.split_once(' ').unwrap_or((line, ""));
    match verb {
        "" | "#" => {}
        "limits" => run_limits(alloc, core, rest, out),
        "report" => show_report(out, core, letter_in(rest), " | not registered"),
        "queued" => show_queued(alloc, out, core),
        "heads" => show_heads(alloc, out, core.notices()),
        "page" => run_page(core, rest, out),
        _ => run_event(alloc, core, step_of(verb, rest), out),
    }
}

/// A new core, which may have these numbers of images and feeds.
fn run_limits(alloc: Global, core: &mut Service, words: &str, out: &mut Lines) {
    let (images, feeds) = pair_of(words);
    if images < 1 || images > MAX_IMAGES || feeds < 1 || feeds > MAX_FEEDS {
        return out.word(" | not such limits");
    }
    if restart(alloc, core, Limits { images, feeds }).is_err() {
        out.fail();
    }
}

/// A page by the number of a notification, the size of pages, and the number of the page.
fn run_page(core: &Service, words: &str, out: &mut Lines) {
    let (number, rest) = words.split_once(' ').unwrap_or((words, ""));
    let (size, page) = pair_of(rest);
    show_page(
        out,
        core.notices(),
        u64::from(number_in(number)),
        u64::from(size),
        u64::from(page),
    )
}

fn run_event(alloc: Global, core: &mut Service, step: Option<Step<'_>>, out: &mut Lines) {
    match step {
        Some(step) => {
            let _ = report_step(alloc, core, step, out);
        }
        None => out.word(" | not an event"),
    }
}

/// The event of a line, by its first word and the rest.
fn step_of<'a>(verb: &str, rest: &'a str) -> Option<Step<'a>> {
    match verb {
        "register" => Some(register_of(rest)),
        "drop" => Some(Step::DropImage(letter_in(rest))),
        "claim" => Some(Step::Claim(work_of(rest))),
        "indexed" => Some(Step::Indexed(work_of(rest))),
        "fault" => Some(Step::Fault(work_of(rest))),
        "memory" => Some(Step::Memory(work_of(rest))),
        "update" => update_of(rest),
        "patch" => patch_of(rest),
        "ack" => Some(Step::Ack(u64::from(number_in(rest)))),
        _ => None,
    }
}

/// An image, and its layers, which may be `sealed` with the signs of their seals.
fn register_of(words: &str) -> Step<'_> {
    let (image, rest) = words.split_once(' ').unwrap_or((words, ""));
    let (layers, seals) = rest.split_once(" sealed ").unwrap_or((rest, ""));
    Step::Register {
        image: letter_in(image),
        layers: layers.as_bytes(),
        seals: seals.as_bytes(),
    }
}

/// A worker, and a layer.
fn work_of(words: &str) -> Work {
    let (worker, layer) = words.split_once(' ').unwrap_or((words, ""));
    Work {
        layer: letter_in(layer),
        worker: number_in(worker),
    }
}

/// A feed, and its records.
fn update_of(words: &str) -> Option<Step<'_>> {
    let (name, records) = words.split_once(' ').unwrap_or((words, ""));
    let feed = feed_of(name)?;
    Some(Step::Update {
        feed,
        code: code_of(records),
    })
}

/// A feed, the base, the records that enter, and `without` those that go.
fn patch_of(words: &str) -> Option<Step<'_>> {
    let (name, rest) = words.split_once(' ').unwrap_or((words, ""));
    let (base, records) = rest.split_once(' ').unwrap_or((rest, ""));
    let (entering, gone) = records.split_once("without ").unwrap_or((records, ""));
    let feed = feed_of(name)?;
    Some(Step::Patch(Patch {
        feed,
        base: u64::from(number_in(base)),
        code: code_of(entering),
        gone: code_of(gone),
    }))
}

fn pair_of(words: &str) -> (u32, u32) {
    let (one, other) = words.split_once(' ').unwrap_or((words, ""));
    (number_in(one), number_in(other))
}

fn number_in(word: &str) -> u32 {
    word.parse().unwrap_or(0)
}

/// The first letter of a word.
fn letter_in(word: &str) -> u8 {
    match word.as_bytes() {
        [letter, ..] => *letter,
        [] => b'?',
    }
}
