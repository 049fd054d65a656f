use crate::submission::Submission;
use cv_core::Event;
use cv_core_records::{By, Reply};
use cv_desk::Desk;
use logbook::{Gain, Plain, Play, Rule};
use std::snapshot::Snapshot;

/// The rule of the book that keeps the list of events.
pub struct EventListRule;

impl Rule<Submission, u64> for EventListRule {
    ghost use Rattle.std.specs.Prelude.{[]};
    ghost use base.Fml.{ftrue};
    ghost use Rattle.cv_hub_seats.specs.code.Book.{IsKept};

    ghost holds = { λ cells log. IsKept cells log };

    ghost first = { [] };

    ghost hinted = { λ n log. Unit {0} };

    ghost shows = { λ log. [] };

    ghost keeps = { λ names log. ftrue };

    ghost moves = { λ ask before after answer. Unit {0} };
}

/// Callers trade nothing.
pub struct Nothing;

impl Gain<Submission, u64> for Nothing {
    ghost use base.Fml.{ftrue};

    ghost after = { λ names about answer. ftrue };
}

/// The step that adds an event.
pub struct Add;

impl Play<Submission, u64> for Add {
    ghost use Rattle.cv_hub_seats.specs.code.Book.{Adds};

    ghost then = { Adds };
}

/// An event to be added, as clauses see it: the event and the reply take no memory here.
#[derive(Drop)]
pub struct SubmittedEvent<D: Desk> {
    pub seat: u64,
    pub by: By,
    pub event: Snapshot<Event<D>>,
    pub reply: Snapshot<Reply>,
}

/// The event that the step records, with its reply.
impl<D: Desk> Plain<SubmittedEvent<D>, Submission, u64> for Add {
    ghost use Rattle.std.specs.Prelude.{None};
    ghost use Rattle.cv_hub_seats.specs.code.Book.{submission_of};

    ghost ask = { λ submitted. submission_of submitted };

    ghost state = { λ submitted. None };
}
