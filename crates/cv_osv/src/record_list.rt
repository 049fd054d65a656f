ghost use Rattle.std.specs.Prelude.{◌≡◌, ◌+◌, ◌<◌, ◌≤◌, [], ◌∷◌, ◌++◌, length, nat_le, IfOk, OnOk};
ghost use Rattle.std.specs.BTreeMap.{get};
ghost use Rattle.std.specs.Cmp.Lexicographic.{slice_cmp};
ghost use Rattle.std.specs.Ordering.{nat_cmp};
ghost use Rattle.cv_base.specs.Answer.{MatchesUnlessOutOfMemory};
ghost use Rattle.cv_osv.specs.Answer.{fault_of};
ghost use Rattle.cv_osv.specs.Record.{advisory_of};
ghost use Rattle.cv_osv.specs.Records.{HasDistinctIds, appended};
ghost use Rattle.cv_osv.specs.code.Appended.{at_index, Indexes, IsIndexed, pushed_reading};
ghost use Rattle.serde_json.specs.View.{view};

use crate::error::OsvError;
use crate::record::{RecordRead, read_advisory};
use crate::record_error::AdvisoryError;
use cv_base::{Advisory, MAX_ADVISORIES, NoMemory, Seq, Text};
use serde_json::Value;
use std::alloc::Global;
use std::collections::BTreeMap;
use std::marker::Model;

/// Records with distinct ids that are appended one by one, seen as the list of them.
#[derive(Drop)]
pub struct RecordList {
    records: Vec<Advisory>,
    /// The index of each id.
    indices: BTreeMap<Text, u32>,
}

impl Model for RecordList {
    ghost use Rattle.std.specs.Prelude.{◌≤◌, List, length};
    ghost use Rattle.cv_base.specs.declared.limits.TheConstants.{MAX_ADVISORIES};
    ghost use Rattle.cv_base.specs.declared.advisory.Advisory.{Advisory};
    ghost use Rattle.cv_osv.specs.Records.{HasDistinctIds};
    ghost use Rattle.cv_osv.specs.code.Appended.{Indexes};

    ghost Value = { List Advisory };

    ghost view = { λ list. list.records.items };

    ghost invariant = { λ list. Indexes list.indices list.records.items × HasDistinctIds list.records.items × (length list.records.items ≤ MAX_ADVISORIES) };
}

impl RecordList {
    /// No records. It takes no memory yet: the allocator is for what will be appended.
    #[tactic(auto, using(crate::proofs::Indices::distinct_none))]
    pub fn new(alloc: Global) -> RecordList
        ensures { result ≡ [] }
    {
        RecordList {
            records: Vec::new(alloc),
            indices: BTreeMap::new(alloc),
        }
    }

    /// Whether no further record may be appended.
    pub fn is_full(&self) -> bool
        ensures { result ≡ nat_le MAX_ADVISORIES (length self.now) }
    {
        self.records.len() >= MAX_ADVISORIES
    }

    /// Reads a record as `read_advisory` does, and appends it. Its own fault is answered first, and then an earlier
    /// record with its id. A refusal drops the list.
    pub fn read(self, alloc: Global, value: &Value) -> Result<RecordList, OsvError>
        requires room { length self < MAX_ADVISORIES }
        ensures value { MatchesUnlessOutOfMemory fault_of (λ records. records) result (appended self (advisory_of (view value.now))) }
        ensures count { IfOk result (λ records. length records ≡ length self + 1) }
    {
        match read_advisory(alloc, value) {
            Ok(record) => self.append(Ok(record)),
            Err(AdvisoryError::Bad(what)) => self.append(Err(what)),
            Err(AdvisoryError::NoMemory) => Err(OsvError::NoMemory),
        }
    }

    /// Appends a record that was read. Its own fault is answered first, and then an earlier record with its id. A refusal
    /// drops the list.
    #[tactic(auto, using(crate::proofs::Appended::pushed_reading_is))]
    pub fn append(mut self, found: RecordRead) -> Result<RecordList, OsvError>
        requires room { length self < MAX_ADVISORIES }
        ensures value { MatchesUnlessOutOfMemory fault_of (λ records. records) result (appended self found) }
        ensures count { IfOk result (λ records. length records ≡ length self + 1) }
    {
        push_record(found, &mut self.records, &mut self.indices)?;
        Ok(self)
    }

    /// The records, in the order in which they were appended. It takes no memory.
    pub fn into_seq(self) -> Seq<Advisory>
        ensures value { result ≡ self }
        ensures distinct { HasDistinctIds result }
        ensures within { length result ≤ MAX_ADVISORIES }
    {
        Seq::of(self.records)
    }
}

/// Appends a record. `indices` has the index of each id.
fn push_record(
    found: RecordRead,
    records: &mut Vec<Advisory>,
    indices: &mut BTreeMap<Text, u32>,
) -> Result<(), OsvError>
    requires room { length records.old.items < MAX_ADVISORIES }
    requires indexed { Indexes indices.old records.old.items }
    requires distinct { HasDistinctIds records.old.items }
    ensures value { MatchesUnlessOutOfMemory fault_of (λ _. records.new.items) result (pushed_reading records.old.items found) }
    ensures indexed { OnOk result (Indexes indices.new records.new.items) }
    ensures distinct { OnOk result (HasDistinctIds records.new.items) }
    ensures count { OnOk result (length records.new.items ≡ length records.old.items + 1) }
{
    let index = records.len() as u32;
    let record = record_at(found, index)?;
    if let Some(first) = replace_index(indices, &record.id, index)? {
        return Err(OsvError::DuplicateId {
            first,
            second: index,
        });
    }
    push(records, record)?;
    Ok(())
}

/// Gives an id this index, and answers the one that it had.
fn replace_index(
    indices: &mut BTreeMap<Text, u32>,
    id: &Text,
    index: u32,
) -> Result<Option<u32>, NoMemory>
    ensures old { IfOk result (λ first. first ≡ get (slice_cmp nat_cmp) indices.old id.now) }
    ensures new { OnOk result (IsIndexed indices.old indices.new id.now index) }
{
    Ok(indices.insert(id.clone()?, index)?)
}

fn push(records: &mut Vec<Advisory>, advisory: Advisory) -> Result<(), NoMemory>
    ensures { OnOk result (records.new.items ≡ records.old.items ++ advisory ∷ []) }
{
    Ok(records.push(advisory)?)
}

/// The record, whose fault has this index.
fn record_at(found: RecordRead, index: u32) -> Result<Advisory, OsvError>
    ensures { MatchesUnlessOutOfMemory fault_of (λ record_read. record_read) result (at_index index found) }
{
    match found {
        Ok(record) => Ok(record),
        Err(what) => Err(OsvError::BadAdvisory { index, what }),
    }
}
