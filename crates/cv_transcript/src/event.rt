ghost use Rattle.std.specs.Prelude.{◌≡◌, IfOk, is_some};
ghost use Rattle.std.specs.List.{list_any};
ghost use Rattle.serde_json.specs.Data.{no_members};
ghost use Rattle.serde_json.specs.View.{members_view, view};
ghost use Rattle.cv_transcript.specs.Event.{act_name, event_data, put_by, put_details, put_reply, put_seals, put_subject, reply_name};
ghost use Rattle.cv_transcript.specs.Members.{digest_data, digests_data, seal_data, seals_data};

use cv_base::{Digest, NoMemory};
use cv_core_records::{Act, By, EventEntry, Reply};
use cv_scan_output::Object;
use serde_json::Value;
use std::alloc::Global;

/// The JSON of an event that was applied, with the reply.
pub fn event_value(alloc: Global, entry: &EventEntry) -> Result<Value, NoMemory>
    ensures { IfOk result (λ value. view value ≡ event_data entry.now) }
{
    let object = with_reply(alloc, Object::new(alloc), &entry.reply)?;
    let object = with_subject(alloc, object, &entry.act)?;
    let object = with_by(alloc, object, entry.by)?;
    Ok(
        object
            .text(alloc, "event", act_name(&entry.act))?
            .value(alloc, "at", Value::from(entry.number))?
            .done(),
    )
}

/// With who submitted the event.
fn with_by(alloc: Global, object: Object, by: By) -> Result<Object, NoMemory>
    ensures { IfOk result (λ o. members_view o.map.entries ≡ put_by by (members_view object.map.entries)) }
{
    match by {
        By::Lane { lane, line } => object
            .value(alloc, "line", Value::from(line))?
            .value(alloc, "lane", Value::from(lane)),
        By::Worker(worker) => object.value(alloc, "worker", Value::from(worker)),
    }
}

/// With what the event is about.
fn with_subject(alloc: Global, object: Object, act: &Act) -> Result<Object, NoMemory>
    ensures { IfOk result (λ o. members_view o.map.entries ≡ put_subject act.now (members_view object.map.entries)) }
{
    match act {
        Act::Register(image) | Act::DropImage(image) => object.digest(alloc, "image", image),
        Act::Claim(layer) | Act::Indexed(layer) | Act::Fault(layer) | Act::Memory(layer) => {
            object.digest(alloc, "layer", layer)
        }
        Act::Update(feed) | Act::Patch(feed) => object.text(alloc, "feed", feed.as_str()),
        Act::Ack(number) => object.value(alloc, "number", Value::from(*number)),
    }
}

/// With the reply.
fn with_reply(alloc: Global, object: Object, reply: &Reply) -> Result<Object, NoMemory>
    ensures { IfOk result (λ o. members_view o.map.entries ≡ put_reply reply.now (members_view object.map.entries)) }
{
    with_details(alloc, object, reply)?.text(alloc, "reply", reply_name(reply))
}

/// With what the reply says besides its word.
fn with_details(alloc: Global, object: Object, reply: &Reply) -> Result<Object, NoMemory>
    ensures { IfOk result (λ o. members_view o.map.entries ≡ put_details reply.now (members_view object.map.entries)) }
{
    match reply {
        Reply::Conflict { kept, kept_seals } => {
            let object = with_seals(alloc, object, kept_seals.as_slice())?;
            object.value(alloc, "kept", digests_value(alloc, kept.as_slice())?)
        }
        Reply::Updated { generation, rows } => object
            .value(alloc, "rows", Value::from(*rows))?
            .value(alloc, "generation", Value::from(*generation)),
        Reply::StaleBase { kept } => object.value(alloc, "kept", Value::from(*kept)),
        Reply::TooManyRecords { would } => object.value(alloc, "would", Value::from(*would)),
        _ => Ok(object),
    }
}

/// With the seals that a conflict keeps, if any layer has one.
fn with_seals(alloc: Global, object: Object, seals: &[Option<Digest>]) -> Result<Object, NoMemory>
    ensures { IfOk result (λ o. members_view o.map.entries ≡ put_seals seals.now (members_view object.map.entries)) }
{
    if !has_seal(seals) {
        return Ok(object);
    }
    object.value(alloc, "kept_seals", seals_value(alloc, seals)?)
}

/// Whether any layer has a seal.
fn has_seal(seals: &[Option<Digest>]) -> bool
    ensures { result ≡ list_any is_some seals.now }
{
    seals.iter().any(|seal| seal.is_some())
}

/// The JSON of a list of seals. A layer without a seal has null.
fn seals_value(alloc: Global, seals: &[Option<Digest>]) -> Result<Value, NoMemory>
    ensures { IfOk result (λ value. view value ≡ seals_data seals.now) }
{
    let mut items = Vec::new(alloc);
    for seal in seals {
        items.push(seal_value(alloc, *seal)?)?;
    }
    Ok(Value::Array(items))
}

fn seal_value(alloc: Global, seal: Option<Digest>) -> Result<Value, NoMemory>
    ensures { IfOk result (λ value. view value ≡ seal_data seal) }
{
    match seal {
        None => Ok(Value::Null),
        Some(digest) => digest_value(alloc, &digest),
    }
}

/// The JSON of a list of digests.
fn digests_value(alloc: Global, digests: &[Digest]) -> Result<Value, NoMemory>
    ensures { IfOk result (λ value. view value ≡ digests_data digests.now) }
{
    let mut items = Vec::new(alloc);
    for digest in digests {
        items.push(digest_value(alloc, digest)?)?;
    }
    Ok(Value::Array(items))
}

fn digest_value(alloc: Global, digest: &Digest) -> Result<Value, NoMemory>
    ensures { IfOk result (λ value. view value ≡ digest_data digest.now) }
{
    let text = digest.text(alloc)?;
    Ok(Value::String(String::from_str(alloc, text.as_str())?))
}

/// The printed name of an event.
fn act_name(act: &Act) -> &'static str
    ensures { result.now ≡ act_name act.now }
{
    match act {
        Act::Register(_) => "register",
        Act::DropImage(_) => "drop",
        Act::Claim(_) => "claim",
        Act::Indexed(_) => "indexed",
        Act::Fault(_) => "fault",
        Act::Memory(_) => "memory",
        Act::Update(_) => "update",
        Act::Patch(_) => "patch",
        Act::Ack(_) => "ack",
    }
}

/// The printed name of a reply.
pub fn reply_name(reply: &Reply) -> &'static str
    ensures { result.now ≡ reply_name reply.now }
{
    match reply {
        Reply::Registered => "registered",
        Reply::Already => "already",
        Reply::Conflict { .. } => "conflict",
        Reply::TooManyImages => "too_many_images",
        Reply::Dropped => "dropped",
        Reply::NotRegistered => "not_registered",
        Reply::Claimed => "claimed",
        Reply::Taken => "taken",
        Reply::Unwanted => "unwanted",
        Reply::Entered => "entered",
        Reply::Discarded => "discarded",
        Reply::Requeued => "requeued",
        Reply::NotClaimed => "not_claimed",
        Reply::Updated { .. } => "updated",
        Reply::TooManyFeeds => "too_many_feeds",
        Reply::NoFeed => "no_feed",
        Reply::StaleBase { .. } => "stale_base",
        Reply::TooManyRecords { .. } => "too_many_records",
        Reply::Acked => "acked",
        Reply::NoNotification => "no_notification",
    }
}
