use crate::draws::IMAGES;
use crate::seats::entered;
use crate::shown::report_in;
use core::mem::replace_with;
use cv_base::NoMemory;
use cv_hub::{Hub, Identity, Seat};
use std::alloc::Global;
use std::sync::Wait;
use std::thread::yield_now;
use test_data::SampleDesk;

/// The most views that a seat takes.
const VIEWS: u64 = 200_000;

/// After this number of views a seat learns a note.
const EVERY: u64 = 16;

/// What a view showed: the number of its last event, how many events its seat had seen before, and the report of an image.
#[derive(Debug, Drop)]
pub struct Viewed {
    pub front: u64,
    pub seen: u64,
    pub image: u64,
    pub report: String,
}

/// Views a hub until its last event is seen, or for two hundred thousand times. It keeps the first view of each number of events, and all views that
/// show fewer than their seat had seen.
pub fn view_until<L: Identity, W: Wait>(
    rt: &W,
    alloc: Global,
    hub: &Hub<SampleDesk, L>,
    last: u64,
    seat: &mut Seat<SampleDesk, L>,
    views: &mut Vec<Viewed>,
) -> Result<(), NoMemory> {
    for time in 0..VIEWS {
        if time % EVERY == 0 {
            seat.learn(hub.note(rt));
        }
        let viewed = replace_with(seat, (rt, alloc, time % IMAGES), viewed_from)?;
        let front = viewed.front;
        if is_kept(views, &viewed) {
            views.push(viewed)?;
        }
        if front >= last {
            return Ok(());
        }
        yield_now();
    }
    Ok(())
}

fn viewed_from<L: Identity, W: Wait>(
    seat: Seat<SampleDesk, L>,
    asked: (&W, Global, u64),
) -> (Seat<SampleDesk, L>, Result<Viewed, NoMemory>) {
    let (rt, alloc, image) = asked;
    let seen = seat.seen().len();
    let view = entered(rt, seat);
    let front = view.front();
    let report = report_in(alloc, &view, image);
    let seat = view.close();
    match report {
        Ok(report) => (
            seat,
            Ok(Viewed {
                front,
                seen,
                image,
                report,
            }),
        ),
        Err(NoMemory) => (seat, Err(NoMemory)),
    }
}

fn is_kept(views: &[Viewed], viewed: &Viewed) -> bool {
    match views.last() {
        Some(before) => viewed.front != before.front || viewed.front < viewed.seen,
        None => true,
    }
}
