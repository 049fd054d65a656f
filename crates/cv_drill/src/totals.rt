ghost use Rattle.std.specs.Prelude.{◌≡◌, None, map, option_map, sum, unwrap_or, []};
ghost use Rattle.serde_json.specs.View.{view};
ghost use Rattle.cv_drill.specs.Summary.{count, findings, generation, last_notifications, notifications, replies, rows, standing, totals_of};

use crate::report::good_findings;
use crate::transcript::{list, number_at, says};
use serde_json::Value;

/// The numbers of a summary.
#[derive(Clone, Copy, Debug, PartialEq, Eq)]
pub(crate) struct Totals {
    /// How many images were registered.
    pub images: usize,
    /// How many layers were entered.
    pub layers: usize,
    /// The greatest generation of an update.
    pub generation: u64,
    /// How many notifications the last list has.
    pub notifications: usize,
    /// How many rows they have together.
    pub rows: u128,
    /// How many findings all good reports have together.
    pub findings: u128,
}

/// The numbers of some objects.
pub(crate) fn totals_of(values: &[Value]) -> Totals
    ensures { result ≡ totals_of (map view values.now) }
{
    let standing = standing(values);
    Totals {
        images: replies(values, "registered"),
        layers: replies(values, "entered"),
        generation: generation(values),
        notifications: standing.len(),
        rows: rows(standing),
        findings: findings(values),
    }
}

/// How many objects have this reply.
fn replies(values: &[Value], word: &str) -> usize
    ensures { result ≡ replies word.now (map view values.now) }
{
    let mut count = 0;
    for value in values {
        if says(value, "reply", word) {
            count += 1;
        }
    }
    count
}

/// The greatest generation of an update; 0 if there is none.
fn generation(values: &[Value]) -> u64
    ensures { result ≡ generation (map view values.now) }
{
    let mut greatest: u64 = 0;
    for value in values {
        if says(value, "event", "update") {
            greatest = greatest.max(number_at(value, "generation"));
        }
    }
    greatest
}

/// The notifications of the last list; none if there is no list.
fn standing(values: &[Value]) -> &[Value]
    ensures { map view result.now ≡ standing (map view values.now) }
{
    match last_notifications(values) {
        Some(notices) => notices,
        None => &[],
    }
}

fn last_notifications(values: &[Value]) -> Option<&[Value]>
    ensures { option_map (λ notices. map view notices.now) result ≡ last_notifications (map view values.now) }
{
    let mut last = None;
    for value in values {
        if let Some(notices) = notifications(value) {
            last = Some(notices);
        }
    }
    last
}

fn notifications(value: &Value) -> Option<&[Value]>
    ensures { option_map (λ notices. map view notices.now) result ≡ notifications (view value.now) }
{
    let found = value.get("notifications")?;
    list(found)
}

/// The sum of the rows of notifications.
fn rows(notices: &[Value]) -> u128
    ensures { result ≡ rows (map view notices.now) }
{
    let mut sum: u128 = 0;
    for notice in notices {
        sum += u128::from(number_at(notice, "rows"));
    }
    sum
}

/// How many findings all good reports have.
fn findings(values: &[Value]) -> u128
    ensures { result ≡ findings (map view values.now) }
{
    let mut sum: u128 = 0;
    for value in values {
        if let Some(found) = good_findings(value) {
            sum += count(found) as u128;
        }
    }
    sum
}

/// How many values a list has.
fn count(value: &Value) -> usize
    ensures { result ≡ count (view value.now) }
{
    match list(value) {
        Some(values) => values.len(),
        None => 0,
    }
}
