ghost use Rattle.std.specs.Prelude.{◌≡◌, ◌<◌, ◌^◌, IfOk};
ghost use Rattle.cv_core.specs.Core.{IsSound, act_of, opened};

use crate::events::event;
use crate::shown::{report_by, shown};
use crate::views::Viewed;
use cv_base::{NoMemory, Steps};
use cv_core::{Act, By, Core, Event, EventEntry, Limits};
use std::alloc::Global;
use std::sync::ledger::{Blank, Ledger};
use test_data::SampleDesk;

/// How many images and feeds there may be.
const LIMITS: Limits = Limits {
    images: 10,
    feeds: 2,
};

/// The core before all events.
pub fn new_core(alloc: Global) -> Result<Core<SampleDesk>, NoMemory>
    ensures { IfOk result (λ core. core ≡ opened core.state.limits) }
{
    Core::new(alloc, LIMITS)
}

/// What a core of its own shows after the events of entries, if these are numbered from 1, have the names of their events, and have the
/// core's replies.
pub fn replayed<S: Ledger>(
    alloc: Global,
    blank: Blank,
    entries: &[EventEntry],
) -> Result<Option<String>, NoMemory>
    requires name { blank.name ≡ S.name }
    requires parts { blank.parts ≡ S.parts }
    requires has_parts { 0 < S.parts }
{
    let mut steps = Steps::<S>::open(blank);
    let mut core = new_core(alloc)?;
    if !are_applied(alloc, &mut core, entries, &mut steps)? {
        return Ok(None);
    }
    Ok(Some(shown(alloc, &core)?))
}

/// How many seats have right views, up to the first that has not. A view shows at least the events that its seat had seen and that the view
/// before it showed, and the report of its image is that of a core of its own after as many events of the entries.
pub fn seats_with_right_views<S: Ledger>(
    alloc: Global,
    blank: Blank,
    entries: &[EventEntry],
    views: &[Vec<Viewed>],
) -> Result<usize, NoMemory>
    requires name { blank.name ≡ S.name }
    requires parts { blank.parts ≡ S.parts }
    requires has_parts { 0 < S.parts }
{
    let mut steps = Steps::<S>::open(blank);
    for (seat, views) in views.iter().enumerate() {
        if !are_right(alloc, entries, views, &mut steps)? {
            return Ok(seat);
        }
    }
    Ok(views.len())
}

/// Whether the views of a seat are right.
fn are_right<S: Ledger>(
    alloc: Global,
    entries: &[EventEntry],
    views: &[Viewed],
    steps: &mut Steps<S>,
) -> Result<bool, NoMemory> {
    let mut core = new_core(alloc)?;
    for view in views {
        let more = entries.get(core.count() as usize..view.front as usize);
        let Some(more) = more else {
            return Ok(false);
        };
        if view.front < view.seen || !are_applied(alloc, &mut core, more, steps)? {
            return Ok(false);
        }
        if report_by(alloc, &core, view.image)? != view.report {
            return Ok(false);
        }
    }
    Ok(true)
}

/// Applies the events of entries, as far as each is the next one, has the name of its event, and has the core's reply. Whether all are so.
fn are_applied<S: Ledger>(
    alloc: Global,
    core: &mut Core<SampleDesk>,
    entries: &[EventEntry],
    steps: &mut Steps<S>,
) -> Result<bool, NoMemory> {
    for entry in entries {
        if !is_applied(alloc, core, entry, steps)? {
            return Ok(false);
        }
    }
    Ok(true)
}

/// Applies the event of an entry. Whether it is the next one, has the name of its event, and has the core's reply.
fn is_applied<S: Ledger>(
    alloc: Global,
    core: &mut Core<SampleDesk>,
    entry: &EventEntry,
    steps: &mut Steps<S>,
) -> Result<bool, NoMemory> {
    let By::Lane { lane, line } = entry.by else {
        return Ok(false);
    };
    if core.count() >= 1 << 63 {
        return Ok(false);
    }
    let event = event(alloc, lane, line)?;
    is_replied(alloc, core, event, entry, steps)
}

/// Applies an event. Whether an entry has its name, its number and its reply.
fn is_replied<S: Ledger>(
    alloc: Global,
    core: &mut Core<SampleDesk>,
    event: Event<SampleDesk>,
    entry: &EventEntry,
    steps: &mut Steps<S>,
) -> Result<bool, NoMemory>
    requires room { core.old.count < 2 ^ 63 }
    requires sound { IsSound (act_of event) }
{
    if !is_named(&event, &entry.act)? {
        return Ok(false);
    }
    let reply = core.apply(alloc, event, steps)?;
    Ok(core.count() == entry.number && reply == entry.reply)
}

fn is_named(event: &Event<SampleDesk>, act: &Act) -> Result<bool, NoMemory> {
    Ok(event.name()? == *act)
}
