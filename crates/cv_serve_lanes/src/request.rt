ghost use Rattle.std.specs.Prelude.{◌≡◌, IfErr, IfNone, IfOk, IfSome, Some};
ghost use Rattle.cv_request.specs.declared.request.Act.{Act};
ghost use Rattle.cv_request.specs.Limits.{IsWithinLimits};
ghost use Rattle.cv_core.specs.Core.{IsSound, act_of};
ghost use Rattle.cv_serve_legal.specs.Replay.{event_of};
ghost use Rattle.cv_serve_lanes.specs.code.Lane.{Answered, OneStep, Submitted};
ghost use Rattle.cv_serve_lanes.specs.code.Own.{Placed};
ghost use Rattle.cv_serve_lanes.specs.code.RequestOrigin.{request_of, requested_by};

use crate::viewing::{no_memory_at, query_at};
use cv_base::Digest;
use cv_core::Event;
use cv_core_records::{By, ReadEntry};
use cv_desk::Desk;
use cv_hub::{Hub, Identity, Seat};
use cv_request::{Act, Request};
use cv_serve_legal::Requested;
use std::alloc::Global;
use std::sync::Wait;

/// Where a request stands in the input.
#[derive(Clone, Copy)]
pub struct RequestOrigin {
    pub lane: u8,
    pub line: u64,
}

/// The read of a request.
#[derive(Clone, Copy)]
pub enum Query {
    Report(Digest),
    Page { number: u64, size: u32, page: u64 },
    List,
}

/// Carries out a request. It gives the entry of a read, also if memory ran out: then nothing has changed. For an event there is
/// none: its entry is that of the hub's list.
pub fn carry_out<D: Desk + Drop, L: Identity, W: Wait>(
    rt: &W,
    alloc: Global,
    hub: &Hub<D, L>,
    seat: &mut Seat<D, L>,
    requested: Requested,
) -> Option<ReadEntry>
    requires within { IsWithinLimits requested.request.act }
    ensures event { IfNone result ((placed : Placed) × OneStep D.tree L.limits requested seat.old seat.new (Submitted placed)) }
    ensures read { IfSome result (λ read. OneStep D.tree L.limits requested seat.old seat.new (Answered read)) }
{
    let Requested {
        line,
        request: Request { lane, act },
    } = requested;
    let origin = RequestOrigin { lane, line };
    match event_in(act) {
        Ok(event) => submit(rt, alloc, hub, seat, origin, event),
        Err(query) => Some(query_at(rt, alloc, seat, origin, query)),
    }
}

/// The event of a request, or its read.
fn event_in<D: Desk>(act: Act) -> Result<Event<D>, Query>
    requires within { IsWithinLimits act }
    ensures event { IfOk result (λ event. (event_of act ≡ Some (act_of event)) × IsSound (act_of event)) }
    ensures read { IfErr result (λ query. (act ≡ requested_by query) × IsWithinLimits (requested_by query)) }
{
    match act {
        Act::Register(manifest) => Ok(Event::Register(manifest)),
        Act::DropImage(image) => Ok(Event::DropImage(image)),
        Act::Update { feed, records } => Ok(Event::Update(feed, records)),
        Act::Patch {
            feed,
            base,
            records,
            remove,
        } => Ok(Event::Patch {
            feed,
            base,
            records,
            remove,
        }),
        Act::Report(image) => Err(Query::Report(image)),
        Act::Page { number, size, page } => Err(Query::Page { number, size, page }),
        Act::List => Err(Query::List),
        Act::Ack(number) => Ok(Event::Ack(number)),
    }
}

/// Submits the event of a request.
fn submit<D: Desk + Drop, L: Identity, W: Wait>(
    rt: &W,
    alloc: Global,
    hub: &Hub<D, L>,
    seat: &mut Seat<D, L>,
    origin: RequestOrigin,
    event: Event<D>,
) -> Option<ReadEntry>
    requires sound { IsSound (act_of event) }
    ensures event { (act : Act) → event_of act ≡ Some (act_of event) → IfNone result ((placed : Placed) × OneStep D.tree L.limits (request_of origin act) seat.old seat.new (Submitted placed)) }
    ensures read { (act : Act) → event_of act ≡ Some (act_of event) → IfSome result (λ read. OneStep D.tree L.limits (request_of origin act) seat.old seat.new (Answered read)) }
{
    let by = By::Lane {
        lane: origin.lane,
        line: origin.line,
    };
    let Ok(_receipt) = hub.submit(rt, alloc, seat, by, event) else {
        return Some(no_memory_at(rt, seat, origin));
    };
    None
}
