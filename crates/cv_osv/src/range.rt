ghost use Rattle.std.specs.Prelude.{◌≡◌, map};
ghost use Rattle.cv_base.specs.Results.{onto};
ghost use Rattle.cv_osv.specs.RecordAnswer.{Reads};
ghost use Rattle.cv_osv.specs.Json.{each_joined};
ghost use Rattle.cv_osv.specs.code.Member.{name_of, make_of};
ghost use Rattle.cv_osv.specs.Record.{kind_of, turn_of, turns_of};
ghost use Rattle.serde_json.specs.View.{items_of};

use crate::json::{items_or, member_at, object_or, optional_text_or, text_or};
use crate::node::{Node, Texts};
use crate::part::{Part, PartRead, push, room_for};
use crate::record_error::{AdvisoryError, RecordWhat};
use cv_base::{Range, RangeKind, Seq, Text, Turn};
use std::alloc::Global;

/// A member of an event that gives a turn.
#[derive(Clone, Copy)]
enum EventMember {
    Introduced,
    Fixed,
    LastAffected,
    Limit,
}

impl EventMember {
    fn name(self) -> &'static str
        ensures { result.now ≡ name_of self }
    {
        match self {
            EventMember::Introduced => "introduced",
            EventMember::Fixed => "fixed",
            EventMember::LastAffected => "last_affected",
            EventMember::Limit => "limit",
        }
    }

    fn turn(self, version: Text) -> Turn
        ensures { result ≡ make_of self version }
    {
        match self {
            EventMember::Introduced => Turn::Introduced(version),
            EventMember::Fixed => Turn::Fixed(version),
            EventMember::LastAffected => Turn::LastAffected(version),
            EventMember::Limit => Turn::Limit(version),
        }
    }
}

impl Part for Range {
    ghost use Rattle.cv_osv.specs.Record.{range_of};

    ghost part_of = { range_of };

    #[tactic(auto, unfolding(crate::specs::Record::range_of))]
    fn read<V: Node<T>, T: Texts>(alloc: Global, texts: &mut T, value: &V) -> PartRead<Range> {
        let kind = kind_of(text_or(member_at(value, "type"), RecordWhat::BadRange)?);
        let events = items_or(member_at(value, "events"), RecordWhat::BadEvent)?;
        let turns = read_turns(alloc, texts, events)?;
        Ok(Range { kind, turns })
    }
}

#[tactic(auto, unfolding(crate::specs::Record::kind_of))]
fn kind_of(name: &str) -> RangeKind
    ensures { result ≡ kind_of name.now }
{
    match name {
        "ECOSYSTEM" => RangeKind::Ecosystem,
        "SEMVER" => RangeKind::Semver,
        _ => RangeKind::Other,
    }
}

/// The turns of the events, in order.
#[tactic(auto, using(crate::proofs::Onto::joined_more, crate::proofs::Onto::joined_bad))]
fn read_turns<V: Node<T>, T: Texts>(
    alloc: Global,
    texts: &mut T,
    events: &[V],
) -> Result<Seq<Turn>, AdvisoryError>
    ensures { Reads (λ turns. turns) result (each_joined turns_of (items_of (map V.data_of events.now))) }
{
    let mut turns = room_for(alloc, events.len())?;
    let mut remaining = events;
    while let [event, rest @ ..] = remaining {
        push_turns(alloc, texts, event, &mut turns)?;
        remaining = rest;
    }
    Ok(Seq::of(turns))
}

/// Appends the turns of an event.
#[tactic(auto, unfolding(crate::specs::Record::turns_of))]
fn push_turns<V: Node<T>, T: Texts>(
    alloc: Global,
    texts: &mut T,
    event: &V,
    turns: &mut Vec<Turn>,
) -> Result<(), AdvisoryError>
    ensures { Reads (λ _. turns.new.items) result (onto turns.old.items (turns_of (V.data_of event.now))) }
{
    object_or(event, RecordWhat::BadEvent)?;
    push_turn(alloc, texts, event, EventMember::Introduced, turns)?;
    push_turn(alloc, texts, event, EventMember::Fixed, turns)?;
    push_turn(alloc, texts, event, EventMember::LastAffected, turns)?;
    push_turn(alloc, texts, event, EventMember::Limit, turns)
}

fn push_turn<V: Node<T>, T: Texts>(
    alloc: Global,
    texts: &mut T,
    event: &V,
    member: EventMember,
    turns: &mut Vec<Turn>,
) -> Result<(), AdvisoryError>
    ensures { Reads (λ _. turns.new.items) result
        (onto turns.old.items (turn_of (name_of member) (make_of member) (V.data_of event.now))) }
{
    let found = member_at(event, member.name());
    if let Some(version) = optional_text_or(found, RecordWhat::BadEvent)? {
        push(turns, member.turn(texts.text(alloc, version)?))?;
    }
    Ok(())
}
