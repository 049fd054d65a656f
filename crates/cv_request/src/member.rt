//! Members of a request. A member with the value null is present.
ghost use Rattle.std.specs.Prelude.{◌≡◌, ◌<◌, ◌≤◌, ◌++◌, [], ◌∷◌, map, Some, IfOk, OnOk};
ghost use Rattle.std.specs.List.{list_all};
ghost use Rattle.std.specs.Option.{option_map};
ghost use Rattle.serde_json.specs.View.{items_of};
ghost use Rattle.cv_base.specs.Answer.{MatchesUnlessOutOfMemory};
ghost use Rattle.cv_osv.specs.Json.{each, object_or, text_or};
ghost use Rattle.cv_request.specs.Fault.{fault_of, refusing};
ghost use Rattle.cv_request.specs.Manifest.{list_or};
ghost use Rattle.cv_request.specs.Member.{feed_or, is_feed_byte, is_feed_name, lane_or, number_or, text_of, texts_or};

use crate::error::{RequestError, RequestWhat};
use crate::limits::{MAX_FEED_NAME_LEN, MAX_LANES};
use crate::node::RequestNode;
use cv_base::{NoMemory, Seq, Text};
use cv_osv::Texts;
use std::alloc::Global;

pub(crate) fn object_or<V: RequestNode<T>, T: Texts>(
    value: &V,
    bad: RequestWhat,
) -> Result<(), RequestWhat>
    ensures { result ≡ object_or bad (V.data_of value.now) }
{
    if value.is_object() { Ok(()) } else { Err(bad) }
}

pub(crate) fn text_or<V: RequestNode<T>, T: Texts>(
    found: Option<&V>,
    bad: RequestWhat,
) -> Result<&str, RequestWhat>
    ensures { MatchesUnlessOutOfMemory (λ what. Some what) (λ text. text.now) result (text_or bad (option_map (λ v. V.data_of v.now) found.entry)) }
{
    match found {
        None => Err(bad),
        Some(value) => value.text().ok_or(bad),
    }
}

pub(crate) fn list_or<V: RequestNode<T>, T: Texts>(
    found: Option<&V>,
    bad: RequestWhat,
) -> Result<&[V], RequestWhat>
    ensures { MatchesUnlessOutOfMemory (λ what. Some what) (λ items. items_of (map V.data_of items.now)) result (list_or bad (option_map (λ v. V.data_of v.now) found.entry)) }
{
    match found {
        None => Err(bad),
        Some(value) => match value.items() {
            None => Err(bad),
            Some(items) => Ok(items),
        },
    }
}

/// A whole number from `least` to `most`.
pub(crate) fn number_or<V: RequestNode<T>, T: Texts>(
    found: Option<&V>,
    least: u64,
    most: u64,
    bad: RequestWhat,
) -> Result<u64, RequestWhat>
    ensures value { result ≡ number_or least most bad (option_map (λ v. V.data_of v.now) found.entry) }
    ensures least { IfOk result (λ number. least ≤ number) }
    ensures most { IfOk result (λ number. number ≤ most) }
{
    let Some(value) = found else {
        return Err(bad);
    };
    match value.whole_number() {
        Some(number) if least <= number && number <= most => Ok(number),
        _ => Err(bad),
    }
}

/// The number of a lane, which is 0 if the member is absent.
pub(crate) fn lane_or<V: RequestNode<T>, T: Texts>(found: Option<&V>) -> Result<u8, RequestWhat>
    ensures value { result ≡ lane_or (option_map (λ v. V.data_of v.now) found.entry) }
    ensures lane { IfOk result (λ lane. lane < MAX_LANES) }
{
    if found.is_none() {
        return Ok(0);
    }
    let lane = number_or(found, 0, u64::from(MAX_LANES - 1), RequestWhat::BadLane)?;
    Ok(lane as u8)
}

pub(crate) fn feed_or<V: RequestNode<T>, T: Texts>(found: Option<&V>) -> Result<&str, RequestWhat>
    ensures { MatchesUnlessOutOfMemory (λ what. Some what) (λ text. text.now) result (feed_or (option_map (λ v. V.data_of v.now) found.entry)) }
{
    let Some(value) = found else {
        return Err(RequestWhat::BadFeed);
    };
    match value.text() {
        Some(text) if is_feed_name(text.as_bytes()) => Ok(text),
        _ => Err(RequestWhat::BadFeed),
    }
}

fn is_feed_name(text: &[u8]) -> bool
    ensures { result ≡ is_feed_name text.now }
{
    1 <= text.len() && text.len() <= MAX_FEED_NAME_LEN && are_feed_bytes(text)
}

fn are_feed_bytes(text: &[u8]) -> bool
    ensures { result ≡ list_all is_feed_byte text.now }
{
    text.iter().all(|byte| is_feed_byte(*byte))
}

fn is_feed_byte(byte: u8) -> bool
    ensures { result ≡ is_feed_byte byte }
{
    matches!(byte, b'a'..=b'z' | b'0'..=b'9' | b'.' | b'_' | b'-')
}

/// The texts of a list, which is empty if the member is absent.
pub(crate) fn texts_or<V: RequestNode<T>, T: Texts>(
    alloc: Global,
    found: Option<&V>,
    bad: RequestWhat,
) -> Result<Seq<Text>, RequestError>
    ensures { MatchesUnlessOutOfMemory fault_of (λ texts. texts) result (refusing (texts_or bad (option_map (λ v. V.data_of v.now) found.entry))) }
{
    if found.is_none() {
        return Ok(Seq::of(Vec::new(alloc)));
    }
    let items = list_or(found, bad)?;
    read_texts(alloc, items, bad)
}

/// The texts that the items of a list are.
#[tactic(auto, using(crate::proofs::Texts::texts_more, crate::proofs::Texts::texts_bad))]
fn read_texts<V: RequestNode<T>, T: Texts>(
    alloc: Global,
    items: &[V],
    bad: RequestWhat,
) -> Result<Seq<Text>, RequestError>
    ensures { MatchesUnlessOutOfMemory fault_of (λ texts. texts) result (refusing (each (text_of bad) (items_of (map V.data_of items.now)))) }
{
    let mut texts = Vec::new(alloc);
    let mut remaining = items;
    while let [item, rest @ ..] = remaining {
        let text = text_or(Some(item), bad)?;
        push_text(alloc, &mut texts, text)?;
        remaining = rest;
    }
    Ok(Seq::of(texts))
}

fn push_text(alloc: Global, texts: &mut Vec<Text>, text: &str) -> Result<(), NoMemory>
    ensures { OnOk result (texts.new.items ≡ texts.old.items ++ text.now ∷ []) }
{
    texts.push(Text::of(alloc, text)?)?;
    Ok(())
}
