ghost use Rattle.std.specs.Prelude.{◌≡◌, ◌+◌, ◌<◌, ◌≤◌, [], length, map, IfOk};
ghost use Rattle.cv_base.specs.Answer.{MatchesUnlessOutOfMemory};
ghost use Rattle.cv_osv.specs.Answer.{fault_of};
ghost use Rattle.cv_osv.specs.Record.{advisory_of};
ghost use Rattle.cv_osv.specs.Records.{HasDistinctIds, appended, records_of};
ghost use Rattle.cv_osv.specs.code.Appended.{all_appended};

use crate::node::RequestNode;
use cv_base::{Advisory, MAX_ADVISORIES, Seq};
use cv_osv::{AdvisoryError, OsvError, RecordList, Texts, read_node};
use std::alloc::Global;

/// Reads a list of records as `read_records` of cv_osv does, from a value of any kind.
#[tactic(auto, using(crate::proofs::Lists::records_none, crate::proofs::Lists::records_over, crate::proofs::Lists::records_within))]
pub(crate) fn records_of<V: RequestNode<T>, T: Texts>(
    alloc: Global,
    texts: &mut T,
    value: &V,
) -> Result<Seq<Advisory>, OsvError>
    ensures value { MatchesUnlessOutOfMemory fault_of (λ records. records) result (records_of (V.data_of value.now)) }
    ensures distinct { IfOk result HasDistinctIds }
    ensures within { IfOk result (λ records. length records ≤ MAX_ADVISORIES) }
{
    let Some(items) = value.items() else {
        return Err(OsvError::NotList);
    };
    if items.len() > MAX_ADVISORIES {
        return Err(OsvError::TooMany);
    }
    read_all(alloc, texts, items)
}

fn read_all<V: RequestNode<T>, T: Texts>(
    alloc: Global,
    texts: &mut T,
    items: &[V],
) -> Result<Seq<Advisory>, OsvError>
    requires { length items.now ≤ MAX_ADVISORIES }
    ensures value { MatchesUnlessOutOfMemory fault_of (λ records. records) result (all_appended [] (map V.data_of items.now)) }
    ensures distinct { IfOk result HasDistinctIds }
    ensures count { IfOk result (λ records. length records ≡ length items.now) }
{
    let mut records = RecordList::new(alloc);
    let mut remaining = items;
    while let [item, rest @ ..] = remaining {
        records = read_one(alloc, texts, records, item)?;
        remaining = rest;
    }
    Ok(records.into_seq())
}

/// Reads a record, and appends it.
fn read_one<V: RequestNode<T>, T: Texts>(
    alloc: Global,
    texts: &mut T,
    records: RecordList,
    value: &V,
) -> Result<RecordList, OsvError>
    requires room { length records < MAX_ADVISORIES }
    ensures value { MatchesUnlessOutOfMemory fault_of (λ more. more) result (appended records (advisory_of (V.data_of value.now))) }
    ensures count { IfOk result (λ more. length more ≡ length records + 1) }
{
    match read_node(alloc, texts, value) {
        Ok(record) => records.append(Ok(record)),
        Err(AdvisoryError::Bad(what)) => records.append(Err(what)),
        Err(AdvisoryError::NoMemory) => Err(OsvError::NoMemory),
    }
}
