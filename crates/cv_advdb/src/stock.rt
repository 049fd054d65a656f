ghost use Rattle.std.specs.Prelude.{◌≡◌, ◌≤◌, IfOk, IfErr, filter, length};
ghost use Rattle.std.specs.List.Sorted.{IsStrictlySortedBy};
ghost use Rattle.cv_base.specs.declared.limits.TheConstants.{MAX_ADVISORIES};
ghost use Rattle.cv_match.specs.Keys.{is_named};
ghost use Rattle.cv_advdb.specs.Feeds.{by_id, id_cmp};
ghost use Rattle.cv_advdb.specs.Patch.{CountsTooMany, patched_records};
ghost use Rattle.cv_advdb.specs.Touched.{IsTouched};
ghost use Rattle.cv_advdb.specs.code.Changes.{IsChange};
ghost use Rattle.cv_advdb.specs.declared.error.PatchError.TheVariants.{NoFeed};

use crate::error::PatchError;
use crate::indexed::IndexedRecords;
use crate::patch::{Change, change_of};
use crate::record::{StoredRecord, in_id_order};
use crate::touch::Touched;
use cv_base::{Advisory, MAX_ADVISORIES, NoMemory, PackageName, Seq, Text};
use std::alloc::{AllocError, Global};
use std::marker::Model;
use std::sync::Arc;

/// The records of a feed, in the order of their ids. Contracts see them as a list. A clone shares all with its source.
#[derive(Drop)]
pub struct Stock {
    inner: Arc<IndexedRecords, Global>,
}

impl Model for Stock {
    ghost use Rattle.std.specs.Prelude.{List};
    ghost use Rattle.std.specs.Arc.{arc_value};
    ghost use Rattle.cv_base.specs.declared.advisory.Advisory.{Advisory};

    ghost Value = { List Advisory };

    ghost view = { λ s. arc_value s.inner };
}

impl Stock {
    /// Sorts, prepares and indexes the records of a feed.
    pub fn of(alloc: Global, records: Vec<Advisory>) -> Result<Stock, NoMemory>
        ensures { IfOk result (λ stock. stock ≡ by_id records.items) }
    {
        let sorted = in_id_order(alloc, records)?;
        Stock::sorted(alloc, sorted)
    }

    /// The records after a patch, but not more than a feed may have, and the names under which other records stand then. The time
    /// is n log n in what the patch has and what stands under these names, and that of copying a pointer for each record.
    pub fn patched(
        &self,
        alloc: Global,
        records: Seq<Advisory>,
        remove: &[Text],
    ) -> Result<(Stock, Touched), PatchError>
        ensures value { IfOk result (λ made. made.0 ≡ patched_records self.now records remove.now) }
        ensures touched { IfOk result (λ made. IsTouched self.now (patched_records self.now records remove.now) made.1.keys) }
        ensures sorted { IsStrictlySortedBy id_cmp self.now }
        ensures room { IfOk result (λ _. length (patched_records self.now records remove.now) ≤ MAX_ADVISORIES) }
        ensures too_many { IfErr result (CountsTooMany (length (patched_records self.now records remove.now))) }
        ensures stands { IfErr result (λ e. ¬ (e ≡ NoFeed)) }
    {
        let change = change_of(alloc, self.records(), records, remove)?;
        if change.all.len() > MAX_ADVISORIES {
            return Err(PatchError::TooManyRecords {
                would: change.all.len() as u64,
            });
        }
        Ok(self.changed(alloc, change)?)
    }

    /// The records after a change, and the names under which other records stand then.
    fn changed(&self, alloc: Global, change: Change) -> Result<(Stock, Touched), NoMemory>
        requires { IsChange self.now change.ids.keys change.news.items change.gone.items change.all.items }
        ensures value { IfOk result (λ made. made.0 ≡ change.all.items) }
        ensures touched { IfOk result (λ made. IsTouched self.now change.all.items made.1.keys) }
    {
        let touched = self.inner.touched(alloc, &change)?;
        let indexed = self.inner.changed(alloc, change, &touched)?;
        let stock = Stock::indexed(alloc, indexed)?;
        Ok((stock, touched))
    }

    fn indexed(alloc: Global, indexed: IndexedRecords) -> Result<Stock, NoMemory>
        ensures { IfOk result (λ stock. stock ≡ indexed) }
    {
        Ok(Stock {
            inner: Arc::new(alloc, indexed)?,
        })
    }

    /// Indexes sorted records.
    fn sorted(alloc: Global, records: Vec<StoredRecord>) -> Result<Stock, NoMemory>
        requires { IsStrictlySortedBy id_cmp records.items }
        ensures { IfOk result (λ stock. stock ≡ records.items) }
    {
        let indexed = IndexedRecords::of(alloc, records)?;
        Stock::indexed(alloc, indexed)
    }

    /// The records, in the order of their ids.
    pub fn records(&self) -> &[StoredRecord]
        ensures value { result.now ≡ self.now }
        ensures sorted { IsStrictlySortedBy id_cmp self.now }
    {
        self.inner.records()
    }

    /// The records that name a key, in the order of their ids.
    pub fn under(&self, key: &PackageName) -> &[StoredRecord]
        ensures { result.now ≡ filter (is_named key.now) self.now }
    {
        self.inner.under(key)
    }
}

/// A clone is one more owner. It takes no memory, and fails only at the last value of the count of owners.
impl Clone for Stock {
    ghost is_clone = { λ x y. y ≡ x };

    fn clone(&self) -> Result<Stock, AllocError> {
        Ok(Stock {
            inner: self.inner.clone()?,
        })
    }
}
