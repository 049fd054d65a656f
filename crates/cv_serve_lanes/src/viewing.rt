ghost use Rattle.std.specs.Prelude.{◌≡◌};
ghost use mathlib.Core.List.{IsPrefix};
ghost use Rattle.cv_request.specs.Limits.{IsWithinLimits};
ghost use Rattle.cv_request.specs.declared.request.Act.{Act};
ghost use Rattle.cv_serve_lanes.specs.Seats.{seat_of};
ghost use Rattle.cv_serve_lanes.specs.code.Lane.{Answered, OneStep};
ghost use Rattle.cv_serve_lanes.specs.code.RequestOrigin.{request_of, requested_by};

use crate::reads::{look_up, read_entry};
use crate::request::{Query, RequestOrigin};
use core::mem::replace_with;
use cv_base::NoMemory;
use cv_core_records::ReadEntry;
use cv_desk::Desk;
use cv_hub::{Identity, Seat, View};
use std::alloc::Global;
use std::sync::Wait;

/// That a request ran out of memory, now.
pub fn no_memory_at<D: Desk, L: Identity, W: Wait>(
    rt: &W,
    seat: &mut Seat<D, L>,
    origin: RequestOrigin,
) -> ReadEntry
    ensures { (act : Act) → OneStep D.tree L.limits (request_of origin act) seat.old seat.new (Answered result) }
{
    replace_with(seat, (rt, origin), no_memory_from)
}

fn no_memory_from<D: Desk, L: Identity, W: Wait>(
    seat: Seat<D, L>,
    at: (&W, RequestOrigin),
) -> (Seat<D, L>, ReadEntry)
    ensures { (act : Act) → OneStep D.tree L.limits (request_of at.entry.1 act) seat result.0 (Answered result.1) }
{
    let (rt, origin) = at;
    let view = entered(rt, seat);
    let read = read_entry(&view, origin, Err(NoMemory));
    (view.close(), read)
}

/// The answer to a read, now.
pub fn query_at<D: Desk, L: Identity, W: Wait>(
    rt: &W,
    alloc: Global,
    seat: &mut Seat<D, L>,
    origin: RequestOrigin,
    query: Query,
) -> ReadEntry
    requires within { IsWithinLimits (requested_by query) }
    ensures { OneStep D.tree L.limits (request_of origin (requested_by query)) seat.old seat.new (Answered result) }
{
    replace_with(seat, (rt, alloc, origin, &query), query_from)
}

fn query_from<D: Desk, L: Identity, W: Wait>(
    seat: Seat<D, L>,
    asked: (&W, Global, RequestOrigin, &Query),
) -> (Seat<D, L>, ReadEntry)
    requires within { IsWithinLimits (requested_by asked.3.now) }
    ensures { OneStep D.tree L.limits (request_of asked.entry.2 (requested_by asked.entry.3.now)) seat result.0 (Answered result.1) }
{
    let (rt, alloc, origin, query) = asked;
    let view = entered(rt, seat);
    let answer = look_up(alloc, &view, query);
    let read = read_entry(&view, origin, answer);
    (view.close(), read)
}

/// A view that the seat enters. It is tried again for as long as the seat is handed back.
fn entered<D: Desk, L: Identity, W: Wait>(rt: &W, mut seat: Seat<D, L>) -> View<D, L>
    ensures seen { IsPrefix seat.list result.list }
    ensures seat { result ≡ seat_of seat.index result.list seat.count result.refused }
{
    for _ in rt.forever() {
        match seat.view() {
            Ok(view) => return view,
            Err(back) => seat = back,
        }
    }
    unreachable!()
}
