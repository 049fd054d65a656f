ghost use Rattle.std.specs.Prelude.{◌≡◌, ◌<◌, true};
ghost use Rattle.cv_hub.specs.Seats.{AreNumbered};

use cv_base::NoMemory;
use cv_core::EventEntry;
use cv_desk::Desk;
use cv_hub::{Hub, Identity, Seat, View};
use std::sync::Wait;
use test_data::SampleDesk;

/// The first seat learns a note of all events. How many events it has seen then.
pub fn learned<L: Identity, W: Wait>(
    rt: &W,
    hub: &Hub<SampleDesk, L>,
    seats: &mut [Seat<SampleDesk, L>],
) -> u64 {
    let Some(seat) = seats.first_mut() else {
        return 0;
    };
    seat.learn(hub.note(rt));
    seat.seen().len()
}

/// The view that a seat enters. It is tried again for as long as the seat is handed back.
pub fn entered<D: Desk + Drop, L: Identity, W: Wait>(rt: &W, mut seat: Seat<D, L>) -> View<D, L> {
    for _ in rt.forever() {
        match seat.view() {
            Ok(view) => return view,
            Err(back) => seat = back,
        }
    }
    unreachable!()
}

/// The entries that all seats take, if there are `count` of them, in the order of their numbers.
pub fn taken<L: Identity, W: Wait>(
    rt: &W,
    hub: &mut Hub<SampleDesk, L>,
    seats: &mut [Seat<SampleDesk, L>],
    count: usize,
) -> Result<Vec<EventEntry>, NoMemory>
    requires parts { L.parts ≡ count }
    requires has_seats { 0 < count }
{
    if seats.len() != count || !are_numbered(0, seats) {
        return Err(NoMemory);
    }
    Ok(hub.take_events(rt, seats))
}

/// Whether seats have these numbers in turn.
fn are_numbered<L: Identity>(index: u64, seats: &[Seat<SampleDesk, L>]) -> bool
    ensures { result ≡ true → AreNumbered index seats.now }
{
    match seats.split_first() {
        None => true,
        Some((first, rest)) => {
            first.index() == index && index < u64::MAX && are_numbered(index + 1, rest)
        }
    }
}
