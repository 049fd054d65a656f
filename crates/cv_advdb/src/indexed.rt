ghost use Rattle.std.specs.Prelude.{◌≡◌, ◌++◌, IfOk, OnOk, Some, filter, if◌then◌else◌};
ghost use Rattle.std.specs.List.Sorted.{IsStrictlySortedBy};
ghost use Rattle.cv_base.specs.declared.package.PackageName.{PackageName};
ghost use Rattle.cv_match.specs.Keys.{is_key, is_named};
ghost use Rattle.cv_advdb.specs.Feeds.{id_cmp};
ghost use Rattle.cv_advdb.specs.Touched.{IsTouched, has_name, records_under};
ghost use Rattle.cv_advdb.specs.code.Changes.{IsChange, put_together};
ghost use Rattle.cv_advdb.specs.code.Index.{found_under};

use crate::difference::touched_keys;
use crate::index::{index_records, list_under};
use crate::list::RecordList;
use crate::patch::{Change, merge, split_by};
use crate::record::StoredRecord;
use crate::touch::Touched;
use cv_base::{NoMemory, PackageName, Text};
use std::alloc::Global;
use std::collections::{BTreeMap, BTreeSet};
use std::marker::Model;

/// Records in the order of their ids, and those under each name.
#[derive(Drop)]
pub struct IndexedRecords {
    records: Vec<StoredRecord>,
    index: BTreeMap<PackageName, RecordList>,
}

impl Model for IndexedRecords {
    ghost use Rattle.std.specs.Prelude.{List};
    ghost use Rattle.cv_base.specs.declared.advisory.Advisory.{Advisory};
    ghost use Rattle.cv_advdb.specs.code.Index.{AreIndexed};

    ghost Value = { List Advisory };

    ghost view = { λ s. s.records.items };

    ghost invariant = { λ s. AreIndexed s.records.items s.index.entries };
}

impl IndexedRecords {
    /// Indexes sorted records.
    pub fn of(alloc: Global, records: Vec<StoredRecord>) -> Result<IndexedRecords, NoMemory>
        requires { IsStrictlySortedBy id_cmp records.items }
        ensures { IfOk result (λ indexed. indexed ≡ records.items) }
    {
        let index = index_records(alloc, &records)?;
        Ok(IndexedRecords { records, index })
    }

    /// The records.
    pub fn records(&self) -> &[StoredRecord]
        ensures value { result.now ≡ self.now }
        ensures sorted { IsStrictlySortedBy id_cmp self.now }
    {
        self.records.as_slice()
    }

    /// The records under a name.
    pub fn under(&self, key: &PackageName) -> &[StoredRecord]
        ensures { result.now ≡ filter (is_named key.now) self.now }
    {
        list_under(&self.index, key)
    }

    /// The names under which other records stand after a change: those under which the records that go and the new ones differ.
    pub fn touched(&self, alloc: Global, change: &Change) -> Result<Touched, NoMemory>
        requires { IsChange self.now change.now.ids.keys change.now.news.items change.now.gone.items change.now.all.items }
        ensures { IfOk result (λ touched. IsTouched self.now change.now.all.items touched.keys) }
    {
        let keys = touched_keys(alloc, &change.gone, &change.news)?;
        Ok(Touched { keys })
    }

    /// All records after a change. Only the lists under names that it touches are recomputed.
    pub fn changed(
        &self,
        alloc: Global,
        change: Change,
        touched: &Touched,
    ) -> Result<IndexedRecords, NoMemory>
        requires change { IsChange self.now change.ids.keys change.news.items change.gone.items change.all.items }
        requires touched { IsTouched self.now change.all.items touched.now.keys }
        ensures { IfOk result (λ indexed. indexed ≡ change.all.items) }
    {
        let index = self.changed_index(alloc, &change, touched.keys.as_slice())?;
        let Change { all, .. } = change;
        Ok(IndexedRecords {
            records: all,
            index,
        })
    }

    /// The lists under names, of which those under these names are recomputed.
    fn changed_index(
        &self,
        alloc: Global,
        change: &Change,
        keys: &[PackageName],
    ) -> Result<BTreeMap<PackageName, RecordList>, NoMemory>
        requires { IsChange self.now change.now.ids.keys change.now.news.items change.now.gone.items change.now.all.items }
        ensures { IfOk result (λ index. (key : PackageName) → found_under key index.entries ≡ (if has_name key keys.now then put_together change.now.ids.keys (records_under key self.now) (records_under key change.now.news.items) else records_under key self.now)) }
    {
        let added = index_records(alloc, &change.news)?;
        let mut index = self.copied_index()?;
        for key in keys {
            self.put_under(alloc, &mut index, change, &added, key)?;
        }
        Ok(index)
    }

    /// The lists under names, which share all records.
    fn copied_index(&self) -> Result<BTreeMap<PackageName, RecordList>, NoMemory>
        ensures { IfOk result (λ index. (key : PackageName) → found_under key index.entries ≡ records_under key self.now) }
    {
        Ok(self.index.clone()?)
    }

    /// Puts the list under a name anew.
    fn put_under(
        &self,
        alloc: Global,
        index: &mut BTreeMap<PackageName, RecordList>,
        change: &Change,
        added: &BTreeMap<PackageName, RecordList>,
        key: &PackageName,
    ) -> Result<(), NoMemory>
        requires change { IsChange self.now change.now.ids.keys change.now.news.items change.now.gone.items change.now.all.items }
        requires added { (name : PackageName) → found_under name added.now.entries ≡ records_under name change.now.news.items }
        ensures { OnOk result ((name : PackageName) → found_under name index.new.entries ≡ (if is_key name (Some key.now) then put_together change.now.ids.keys (records_under key.now self.now) (records_under key.now change.now.news.items) else found_under name index.old.entries)) }
    {
        let (others, _) = split_by(alloc, self.under(key), &change.ids)?;
        let list = merge(alloc, &others, list_under(added, key))?;
        put_list(index, key, list)
    }
}

/// Puts a list under a name.
fn put_list(
    index: &mut BTreeMap<PackageName, RecordList>,
    key: &PackageName,
    list: Vec<StoredRecord>,
) -> Result<(), NoMemory>
    ensures { OnOk result ((name : PackageName) → found_under name index.new.entries ≡ (if is_key name (Some key.now) then list.items else found_under name index.old.entries)) }
{
    index.insert(key.clone()?, RecordList::of(list))?;
    Ok(())
}
