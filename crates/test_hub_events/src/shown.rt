use crate::draws::{IMAGES, hash};
use crate::seats::entered;
use core::mem::replace_with;
use cv_base::NoMemory;
use cv_core::Core;
use cv_hub::{Hub, Identity, Seat, View};
use std::alloc::Global;
use std::fmt::Debug;
use std::sync::Wait;
use test_data::SampleDesk;

/// The queued layers, the reports and the notifications of a core, a line each.
pub fn shown(alloc: Global, core: &Core<SampleDesk>) -> Result<String, NoMemory> {
    let mut out = String::new(alloc);
    add_core(alloc, &mut out, core)?;
    Ok(out)
}

fn add_core(alloc: Global, out: &mut String, core: &Core<SampleDesk>) -> Result<(), NoMemory> {
    add_line(alloc, out, &core.queued(alloc)?)?;
    for image in 0..IMAGES {
        add_line(alloc, out, &core.report(&hash(image)))?;
    }
    add_line(alloc, out, &core.notices().list(alloc)?)
}

/// The queued layers, the reports and the notifications that a hub whose events were all taken shows the first of its seats, a line each.
pub fn shown_to_first<L: Identity, W: Wait>(
    rt: &W,
    alloc: Global,
    hub: &Hub<SampleDesk, L>,
    seats: &mut [Seat<SampleDesk, L>],
) -> Result<String, NoMemory> {
    let mut out = String::new(alloc);
    if let Some(seat) = seats.first_mut() {
        add_line(alloc, &mut out, &hub.queued(rt, alloc)?)?;
        let viewed = replace_with(seat, (rt, alloc), shown_from)?;
        out.push_str(viewed.as_str())?;
    }
    Ok(out)
}

fn shown_from<L: Identity, W: Wait>(
    seat: Seat<SampleDesk, L>,
    with: (&W, Global),
) -> (Seat<SampleDesk, L>, Result<String, NoMemory>) {
    let (rt, alloc) = with;
    let view = entered(rt, seat);
    let shown = view_shown(alloc, &view);
    (view.close(), shown)
}

/// The reports and the notifications of a view, a line each.
fn view_shown<L: Identity>(alloc: Global, view: &View<SampleDesk, L>) -> Result<String, NoMemory> {
    let mut out = String::new(alloc);
    for image in 0..IMAGES {
        add_line(alloc, &mut out, &view.report(&hash(image)))?;
    }
    add_line(alloc, &mut out, &view.list(alloc)?)?;
    Ok(out)
}

/// The report of an image in a view.
pub fn report_in<L: Identity>(
    alloc: Global,
    view: &View<SampleDesk, L>,
    image: u64,
) -> Result<String, NoMemory> {
    Ok(format!(in alloc; "{:?}", view.report(&hash(image)))?)
}

/// The report of an image by a core.
pub fn report_by(alloc: Global, core: &Core<SampleDesk>, image: u64) -> Result<String, NoMemory> {
    Ok(format!(in alloc; "{:?}", core.report(&hash(image)))?)
}

/// Adds a line with a value.
fn add_line<T: Debug>(alloc: Global, out: &mut String, value: &T) -> Result<(), NoMemory> {
    let line = format!(in alloc; "{value:?}\n")?;
    out.push_str(line.as_str())?;
    Ok(())
}
