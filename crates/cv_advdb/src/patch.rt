ghost use Rattle.std.specs.Prelude.{◌≡◌, ◌++◌, IfOk, OnOk, filter, map, not};
ghost use Rattle.std.specs.List.Sorted.{IsStrictlySortedBy};
ghost use Rattle.cv_base.specs.InOrder.{in_order};
ghost use Rattle.cv_match.specs.Findings.{text_cmp};
ghost use Rattle.cv_advdb.specs.Feeds.{by_id, id_cmp};
ghost use Rattle.cv_advdb.specs.Patch.{patched_records};
ghost use Rattle.cv_advdb.specs.code.Changes.{IsChange, has_id};

use crate::record::{StoredRecord, in_id_order};
use cv_base::{Advisory, NoMemory, Seq, Text};
use std::alloc::Global;
use std::cmp::Ordering;
use std::collections::BTreeSet;

/// A patch of some records, prepared: the ids of which it says something, its own records and the records that go, both in the
/// order of their ids, and all records after it.
#[derive(Drop)]
pub struct Change {
    pub ids: BTreeSet<Text>,
    pub news: Vec<StoredRecord>,
    pub gone: Vec<StoredRecord>,
    pub all: Vec<StoredRecord>,
}

/// Prepares a patch of sorted records. The time is n log n in the patch, and linear in the records but for a search of each id.
pub fn change_of(
    alloc: Global,
    olds: &[StoredRecord],
    records: Seq<Advisory>,
    remove: &[Text],
) -> Result<Change, NoMemory>
    requires { IsStrictlySortedBy id_cmp olds.now }
    ensures change { IfOk result (λ change. IsChange olds.now change.ids.keys change.news.items change.gone.items change.all.items) }
    ensures value { IfOk result (λ change. change.all.items ≡ patched_records olds.now records remove.now) }
{
    let ids = patch_ids(alloc, records.as_slice(), remove)?;
    let news = in_id_order(alloc, records.into_vec())?;
    let (others, gone) = split_by(alloc, olds, &ids)?;
    let all = merge(alloc, &others, &news)?;
    Ok(Change {
        ids,
        news,
        gone,
        all,
    })
}

/// All ids of which a patch says something. The time is n log n in them.
pub fn patch_ids(
    alloc: Global,
    records: &[Advisory],
    remove: &[Text],
) -> Result<BTreeSet<Text>, NoMemory>
    ensures { IfOk result (λ ids. ids.keys ≡ in_order text_cmp (remove.now ++ map (λ a. a.id) records.now)) }
{
    let mut ids = Vec::new(alloc);
    for id in remove {
        ids.push(id.clone()?)?;
    }
    for record in records {
        ids.push(record.id.clone()?)?;
    }
    id_set(alloc, ids)
}

#[tactic(auto, using(cv_base::proofs::Ordered::put_last, cv_base::proofs::Ordered::put_none))]
fn id_set(alloc: Global, mut ids: Vec<Text>) -> Result<BTreeSet<Text>, NoMemory>
    ensures { IfOk result (λ set. set.keys ≡ in_order text_cmp ids.items) }
{
    let mut set = BTreeSet::new(alloc);
    while let Some(id) = ids.pop() {
        set.insert(id)?;
    }
    Ok(set)
}

/// The records of other ids, and those of these ids.
pub fn split_by(
    alloc: Global,
    records: &[StoredRecord],
    ids: &BTreeSet<Text>,
) -> Result<(Vec<StoredRecord>, Vec<StoredRecord>), NoMemory>
    ensures others { IfOk result (λ parts. parts.0.items ≡ filter (λ a. not (has_id ids.now.keys a)) records.now) }
    ensures of_these { IfOk result (λ parts. parts.1.items ≡ filter (has_id ids.now.keys) records.now) }
{
    let mut others = Vec::new(alloc);
    let mut of_these = Vec::new(alloc);
    for record in records {
        if has_id(ids, record) {
            of_these.push(record.clone()?)?;
        } else {
            others.push(record.clone()?)?;
        }
    }
    Ok((others, of_these))
}

fn has_id(ids: &BTreeSet<Text>, record: &StoredRecord) -> bool
    ensures { result ≡ has_id ids.now.keys record.now }
{
    ids.contains(&record.advisory().id)
}

/// Two lists as one, in the order of ids. Of two records of one id that of the second list stays. The time is linear.
pub fn merge(
    alloc: Global,
    left: &[StoredRecord],
    right: &[StoredRecord],
) -> Result<Vec<StoredRecord>, NoMemory>
    requires left_sorted { IsStrictlySortedBy id_cmp left.now }
    requires right_sorted { IsStrictlySortedBy id_cmp right.now }
    ensures { IfOk result (λ all. all.items ≡ by_id (left.now ++ right.now)) }
{
    let mut all = Vec::new(alloc);
    let (mut lefts, mut rights) = (left, right);
    while let Some((one, ones)) = lefts.split_first() {
        let Some((two, twos)) = rights.split_first() else {
            push_all(&mut all, lefts)?;
            return Ok(all);
        };
        match one.cmp(two) {
            Ordering::Less => {
                all.push(one.clone()?)?;
                lefts = ones;
            }
            Ordering::Equal => {
                all.push(two.clone()?)?;
                lefts = ones;
                rights = twos;
            }
            Ordering::Greater => {
                all.push(two.clone()?)?;
                rights = twos;
            }
        }
    }
    push_all(&mut all, rights)?;
    Ok(all)
}

fn push_all(all: &mut Vec<StoredRecord>, records: &[StoredRecord]) -> Result<(), NoMemory>
    ensures { OnOk result (all.new.items ≡ all.old.items ++ records.now) }
{
    for record in records {
        all.push(record.clone()?)?;
    }
    Ok(())
}
