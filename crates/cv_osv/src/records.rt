ghost use Rattle.std.specs.Prelude.{◌≡◌, ◌≤◌, [], length, map, IfOk};
ghost use Rattle.cv_base.specs.Answer.{MatchesUnlessOutOfMemory};
ghost use Rattle.cv_osv.specs.Answer.{fault_of};
ghost use Rattle.cv_osv.specs.Records.{HasDistinctIds, records_of};
ghost use Rattle.cv_osv.specs.code.Appended.{all_appended};
ghost use Rattle.serde_json.specs.View.{view};

use crate::error::OsvError;
use crate::record_list::RecordList;
use cv_base::{Advisory, MAX_ADVISORIES, Seq};
use serde_json::Value;
use std::alloc::Global;

/// Reads a list of records, each as `read_advisory` does, with distinct ids. `NotList` if the value is not a list, and
/// `TooMany` if it has more than 200,000 items; then the first fault of a record, or the first id that an earlier record
/// has, whichever stands first.
#[tactic(auto, using(crate::proofs::Appended::records_none, crate::proofs::Appended::records_over, crate::proofs::Appended::records_within))]
pub fn read_records(alloc: Global, value: &Value) -> Result<Seq<Advisory>, OsvError>
    ensures value { MatchesUnlessOutOfMemory fault_of (λ records. records) result (records_of (view value.now)) }
    ensures distinct { IfOk result HasDistinctIds }
    ensures within { IfOk result (λ records. length records ≤ MAX_ADVISORIES) }
{
    let Some(items) = value.as_array() else {
        return Err(OsvError::NotList);
    };
    if items.len() > MAX_ADVISORIES {
        return Err(OsvError::TooMany);
    }
    read_all(alloc, items.as_slice())
}

fn read_all(alloc: Global, items: &[Value]) -> Result<Seq<Advisory>, OsvError>
    requires { length items.now ≤ MAX_ADVISORIES }
    ensures value { MatchesUnlessOutOfMemory fault_of (λ records. records) result (all_appended [] (map view items.now)) }
    ensures distinct { IfOk result HasDistinctIds }
    ensures count { IfOk result (λ records. length records ≡ length items.now) }
{
    let mut records = RecordList::new(alloc);
    let mut remaining = items;
    while let [item, rest @ ..] = remaining {
        records = records.read(alloc, item)?;
        remaining = rest;
    }
    Ok(records.into_seq())
}
