ghost use Rattle.std.specs.Prelude.{◌≡◌, ◌<◌, ◌≤◌, length, IfOk};
ghost use Rattle.std.specs.Option.{option_map};
ghost use Rattle.cv_base.specs.Answer.{MatchesUnlessOutOfMemory};
ghost use Rattle.cv_osv.specs.Records.{HasDistinctIds};
ghost use Rattle.cv_request.specs.Fault.{fault_of, refusing};
ghost use Rattle.cv_request.specs.Limits.{IsWithinLimits};
ghost use Rattle.cv_request.specs.Request.{act_of, image_of, notification_of, page_of, patch_of, records_or, register_of, request_of, update_of};

use crate::error::{RequestError, RequestWhat};
use crate::limits::{MAX_LANES, MAX_PAGE_ROWS};
use crate::manifest::{digest_or, manifest_of};
use crate::member::{feed_or, lane_or, number_or, object_or, text_or, texts_or};
use crate::node::RequestNode;
use crate::record_list::records_of;
use crate::request::{Act, Request};
use cv_base::{Advisory, Digest, MAX_ADVISORIES, Seq, Text};
use cv_osv::Texts;
use std::alloc::Global;

/// Reads a value as a request: a JSON object whose member `lane` is the number of a lane, or absent for lane 0, and whose
/// member `do` names a command. The commands and their members are `register` with `manifest`; `drop` and `report` with
/// `image`; `update` with `feed` and `advisories`; `patch` with `feed`, `base`, `remove` and `advisories`; `page` with `number`,
/// `size` and `page`; `list`; and `ack` with `number`. `remove` may be absent. Other members are ignored. The first fault is the
/// answer: the object, `lane`, `do`, and then the members in this order. `texts` makes the texts that the records of a feed keep.
#[tactic(auto, unfolding(crate::specs::Request::request_of))]
pub fn read_value<V: RequestNode<T>, T: Texts>(
    alloc: Global,
    texts: &mut T,
    value: &V,
) -> Result<Request, RequestError>
    ensures value { MatchesUnlessOutOfMemory fault_of (λ request. request) result (request_of (V.data_of value.now)) }
    ensures lane { IfOk result (λ request. request.lane < MAX_LANES) }
    ensures limits { IfOk result (λ request. IsWithinLimits request.act) }
{
    object_or(value, RequestWhat::NotObject)?;
    let lane = lane_or(value.member("lane"))?;
    let name = text_or(value.member("do"), RequestWhat::BadDo)?;
    let act = act_of(alloc, texts, name, value)?;
    Ok(Request { lane, act })
}

/// The action of the command of this name.
#[tactic(auto, unfolding(crate::specs::Request::act_of))]
fn act_of<V: RequestNode<T>, T: Texts>(
    alloc: Global,
    texts: &mut T,
    name: &str,
    value: &V,
) -> Result<Act, RequestError>
    ensures value { MatchesUnlessOutOfMemory fault_of (λ act. act) result (act_of name.now (V.data_of value.now)) }
    ensures limits { IfOk result IsWithinLimits }
{
    match name {
        "register" => register_of(alloc, value),
        "drop" => Ok(Act::DropImage(image_of(value)?)),
        "update" => update_of(alloc, texts, value),
        "patch" => patch_of(alloc, texts, value),
        "report" => Ok(Act::Report(image_of(value)?)),
        "page" => Ok(page_of(value)?),
        "list" => Ok(Act::List),
        "ack" => Ok(Act::Ack(notification_of(value)?)),
        _ => Err(RequestError::BadRequest(RequestWhat::BadDo)),
    }
}

#[tactic(auto, unfolding(crate::specs::Request::register_of), using(crate::proofs::LayerLimit::read_some))]
fn register_of<V: RequestNode<T>, T: Texts>(alloc: Global, value: &V) -> Result<Act, RequestError>
    ensures value { MatchesUnlessOutOfMemory fault_of (λ act. act) result (refusing (register_of (V.data_of value.now))) }
    ensures limits { IfOk result IsWithinLimits }
{
    let found = value.member("manifest").ok_or(RequestWhat::BadManifest)?;
    let manifest = manifest_of(alloc, found)?;
    Ok(Act::Register(manifest))
}

fn image_of<V: RequestNode<T>, T: Texts>(value: &V) -> Result<Digest, RequestWhat>
    ensures { result ≡ image_of (V.data_of value.now) }
{
    digest_or(value.member("image"), RequestWhat::BadImage)
}

#[tactic(auto, unfolding(crate::specs::Request::update_of))]
fn update_of<V: RequestNode<T>, T: Texts>(
    alloc: Global,
    texts: &mut T,
    value: &V,
) -> Result<Act, RequestError>
    ensures value { MatchesUnlessOutOfMemory fault_of (λ act. act) result (update_of (V.data_of value.now)) }
    ensures limits { IfOk result IsWithinLimits }
{
    let feed = feed_or(value.member("feed"))?;
    let records = records_or(alloc, texts, value.member("advisories"))?;
    Ok(Act::Update {
        feed: Text::of(alloc, feed)?,
        records,
    })
}

#[tactic(auto, unfolding(crate::specs::Request::patch_of))]
fn patch_of<V: RequestNode<T>, T: Texts>(
    alloc: Global,
    texts: &mut T,
    value: &V,
) -> Result<Act, RequestError>
    ensures value { MatchesUnlessOutOfMemory fault_of (λ act. act) result (patch_of (V.data_of value.now)) }
    ensures limits { IfOk result IsWithinLimits }
{
    let name = feed_or(value.member("feed"))?;
    let base = number_or(value.member("base"), 0, u64::MAX, RequestWhat::BadBase)?;
    let remove = texts_or(alloc, value.member("remove"), RequestWhat::BadRemove)?;
    let records = records_or(alloc, texts, value.member("advisories"))?;
    let feed = Text::of(alloc, name)?;
    Ok(Act::Patch {
        feed,
        base,
        records,
        remove,
    })
}

/// The records of a feed.
#[tactic(auto, using(crate::proofs::Records::records_fail))]
fn records_or<V: RequestNode<T>, T: Texts>(
    alloc: Global,
    texts: &mut T,
    found: Option<&V>,
) -> Result<Seq<Advisory>, RequestError>
    ensures value { MatchesUnlessOutOfMemory fault_of (λ records. records) result (records_or (option_map (λ v. V.data_of v.now) found.entry)) }
    ensures distinct { IfOk result HasDistinctIds }
    ensures within { IfOk result (λ records. length records ≤ MAX_ADVISORIES) }
{
    let found = found.ok_or(RequestWhat::BadAdvisories)?;
    Ok(records_of(alloc, texts, found)?)
}

#[tactic(auto, unfolding(crate::specs::Request::page_of))]
fn page_of<V: RequestNode<T>, T: Texts>(value: &V) -> Result<Act, RequestWhat>
    ensures value { result ≡ page_of (V.data_of value.now) }
    ensures limits { IfOk result IsWithinLimits }
{
    let number = notification_of(value)?;
    let most_rows = u64::from(MAX_PAGE_ROWS);
    let size = number_or(value.member("size"), 1, most_rows, RequestWhat::BadSize)?;
    let page = number_or(value.member("page"), 1, u64::MAX, RequestWhat::BadPage)?;
    Ok(Act::Page {
        number,
        size: size as u32,
        page,
    })
}

/// The number of the notification that a request is about.
fn notification_of<V: RequestNode<T>, T: Texts>(value: &V) -> Result<u64, RequestWhat>
    ensures { result ≡ notification_of (V.data_of value.now) }
{
    number_or(value.member("number"), 0, u64::MAX, RequestWhat::BadNumber)
}
