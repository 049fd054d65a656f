ghost use Rattle.std.specs.Prelude.{◌≡◌, ◌↔◌, ◌≤◌, [], false, length, IfOk, IfErr, IfSome, IsErrOf, IsTrue, OnOk, OnErr};
ghost use Rattle.std.specs.BTreeMap.{insert_entry};
ghost use Rattle.std.specs.List.{slice_get};
ghost use Rattle.std.specs.List.Sorted.{IsStrictlySortedBy};
ghost use Rattle.std.specs.Map.{keys_of};
ghost use Rattle.std.specs.Option.{option_map};
ghost use Rattle.cv_base.specs.declared.package.Package.{Package};
ghost use Rattle.cv_base.specs.declared.limits.TheConstants.{MAX_ADVISORIES};
ghost use Rattle.cv_match.specs.Findings.{found_in, text_cmp};
ghost use Rattle.cv_match.specs.Prepared.{prepared_for};
ghost use Rattle.cv_advdb.specs.Feeds.{AreSorted, by_id, has_feed, id_cmp, is_full, listed_under, records_of, replaced};
ghost use Rattle.cv_advdb.specs.Patch.{CountsTooMany, patch_count, patched, patched_records};
ghost use Rattle.cv_advdb.specs.Touched.{IsTouched, is_touched};

use crate::difference::touched_keys;
use crate::error::{AdvError, PatchError};
use crate::record::StoredRecord;
use crate::stock::Stock;
use crate::touch::Touched;
use cv_base::{Advisory, NoMemory, PackageKind, PackageName, Seq, Text};
use cv_match::ReadyAdvisory;
use std::alloc::Global;
use std::collections::BTreeMap;
use std::marker::Model;

/// The feeds by name, each with its records in the order of their ids. Contracts see them as a list, with the limit on their
/// number.
#[derive(Drop)]
pub struct Feeds {
    feeds: BTreeMap<Text, Stock>,
    limit: u32,
}

impl Model for Feeds {
    ghost use Rattle.cv_advdb.specs.Feeds.{AreSorted, FeedTable};

    ghost Value = { FeedTable };

    ghost view = { λ f. record { feeds = f.feeds.entries; limit = f.limit } };

    ghost invariant = { λ f. AreSorted f.feeds.entries };
}

/// A record of a feed, and the same record as it is prepared for a kind of package.
#[derive(Clone, Copy)]
pub struct Listed<'a> {
    pub feed: &'a Text,
    pub advisory: &'a Advisory,
    pub ready: &'a ReadyAdvisory,
}

impl Feeds {
    /// No feeds. There may be as many as `limit` says.
    pub fn new(alloc: Global, limit: u32) -> Result<Feeds, NoMemory>
        ensures { IfOk result (λ feeds. feeds ≡ record { feeds = []; limit = limit }) }
    {
        Ok(Feeds {
            feeds: BTreeMap::new(alloc),
            limit,
        })
    }

    /// Replaces all records of a feed, or adds the feed if it is new, and returns the keys under which a record was added, removed
    /// or changed. Of records that have one id the last one stays. `TooManyFeeds` is tested first. The time is n log n in the old
    /// and new records of this feed and their names; other feeds cost nothing.
    pub fn replace(
        &mut self,
        alloc: Global,
        feed: Text,
        records: Seq<Advisory>,
    ) -> Result<Touched, AdvError>
        ensures value { IfOk result (λ _. self.new ≡ replaced self.old feed records) }
        ensures touched { IfOk result (λ touched. IsTouched (records_of feed self.old.feeds) (by_id records) touched.keys) }
        ensures full { IsErrOf result AdvError.TooManyFeeds ↔ IsTrue (is_full self.old feed) }
        ensures err { IfErr result (λ _. self.new ≡ self.old) }
        ensures untouched { IfOk result (λ touched. (p : Package) → is_touched touched.keys p ≡ false → found_in self.new.feeds p ≡ found_in self.old.feeds p) }
    {
        if self.is_full(&feed) {
            return Err(AdvError::TooManyFeeds);
        }
        let stock = Stock::of(alloc, records.into_vec())?;
        let touched = self.touched_by(alloc, &feed, &stock)?;
        self.put(feed, stock)?;
        Ok(touched)
    }

    /// Patches a feed: removes the records of some ids and those of which the patch has new ones of the same id, adds the new
    /// ones, and returns the keys under which a record was added, removed or changed. An id to remove of which there is no record
    /// is passed over, and one that has a new record has it afterwards. Of new records that have one id the last one stays.
    /// `NoFeed` is tested first. `TooManyRecords` comes if the feed would have more than 200,000 records, and says how many. The
    /// time is n log n in the patch and in what stands under the names that it touches, and that of copying a pointer for each
    /// record of the feed; other feeds cost nothing.
    pub fn patch(
        &mut self,
        alloc: Global,
        feed: &Text,
        records: Seq<Advisory>,
        remove: &[Text],
    ) -> Result<Touched, PatchError>
        ensures value { IfOk result (λ _. self.new ≡ patched self.old feed.now records remove.now) }
        ensures touched { IfOk result (λ touched. IsTouched (records_of feed.now self.old.feeds) (patched_records (records_of feed.now self.old.feeds) records remove.now) touched.keys) }
        ensures room { IfOk result (λ _. patch_count self.old feed.now records remove.now ≤ MAX_ADVISORIES) }
        ensures no_feed { IsErrOf result PatchError.NoFeed ↔ has_feed feed.now self.old.feeds ≡ false }
        ensures too_many { IfErr result (CountsTooMany (patch_count self.old feed.now records remove.now)) }
        ensures err { IfErr result (λ _. self.new ≡ self.old) }
        ensures untouched { IfOk result (λ touched. (p : Package) → is_touched touched.keys p ≡ false → found_in self.new.feeds p ≡ found_in self.old.feeds p) }
    {
        self.sorted_law();
        let Some(stock) = self.feeds.get(feed) else {
            return Err(PatchError::NoFeed);
        };
        let (stock, touched) = stock.patched(alloc, records, remove)?;
        self.put_copied(feed, stock)?;
        Ok(touched)
    }

    /// Equal feeds, which share all records.
    pub fn copy(&self) -> Result<Feeds, NoMemory>
        ensures { IfOk result (λ feeds. feeds ≡ self.now) }
    {
        Ok(Feeds {
            feeds: self.feeds.clone()?,
            limit: self.limit,
        })
    }

    /// The record with this index, from 0, among those that have an entry about the key, in the order of feed and id, and as it is
    /// prepared for a kind of package; `None` if there are at most `index` of them. It takes no memory. The time is log n in the
    /// names that the records of each feed have.
    pub fn under(&self, key: &PackageName, kind: PackageKind, index: u64) -> Option<Listed<'_>>
        ensures value { option_map (λ listed. (listed.feed.now, listed.advisory.now)) result ≡ slice_get (listed_under key.now self.now.feeds) index }
        ensures prepared { IfSome result (λ listed. listed.ready.now ≡ prepared_for kind listed.advisory.now) }
    {
        let mut skipped = index;
        for (name, stock) in &self.feeds {
            let found = stock.under(key);
            let count = found.len() as u64;
            if skipped < count {
                let record = &found[skipped as usize];
                return Some(Listed {
                    feed: name,
                    advisory: record.advisory(),
                    ready: record.prepared_for(kind),
                });
            }
            skipped -= count;
        }
        None
    }

    /// Whether there is a feed of this name. It takes no memory.
    pub fn has_feed(&self, feed: &Text) -> bool
        ensures { result ≡ has_feed feed.now self.now.feeds }
    {
        self.feeds.contains_key(feed)
    }

    /// Whether this feed is new, and there are as many as there may be.
    fn is_full(&self, feed: &Text) -> bool
        ensures value { result ≡ is_full self.now feed.now }
        ensures sorted { IsStrictlySortedBy text_cmp (keys_of self.now.feeds) }
    {
        let count = self.feeds.len() as u64;
        count >= u64::from(self.limit) && !self.feeds.contains_key(feed)
    }

    /// The records of a feed, in the order of their ids, and none if there is no such feed.
    fn records_of(&self, feed: &Text) -> &[StoredRecord]
        ensures value { result.now ≡ records_of feed.now self.now.feeds }
        ensures sorted { IsStrictlySortedBy id_cmp result.now }
    {
        match self.feeds.get(feed) {
            Some(stock) => stock.records(),
            None => &[],
        }
    }

    /// What is touched when this stock takes the place of the records of a feed.
    fn touched_by(&self, alloc: Global, feed: &Text, stock: &Stock) -> Result<Touched, NoMemory>
        ensures touched { IfOk result (λ touched. IsTouched (records_of feed.now self.now.feeds) stock.now touched.keys) }
        ensures before_sorted { IfOk result (λ touched. IsStrictlySortedBy id_cmp (records_of feed.now self.now.feeds)) }
    {
        let keys = touched_keys(alloc, self.records_of(feed), stock.records())?;
        Ok(Touched { keys })
    }

    /// Replaces the records of a feed, or adds the feed, under a copy of the name.
    fn put_copied(&mut self, feed: &Text, stock: Stock) -> Result<(), NoMemory>
        requires { IsStrictlySortedBy id_cmp stock }
        ensures value { OnOk result (self.new ≡ record { feeds = insert_entry text_cmp self.old.feeds feed.now stock; limit = self.old.limit }) }
        ensures err { OnErr result (self.new ≡ self.old) }
    {
        let name = feed.clone()?;
        self.put(name, stock)
    }

    /// Replaces the records of a feed, or adds the feed.
    #[tactic(auto, using(crate::proofs::FeedLemmas::put_sorted))]
    fn put(&mut self, feed: Text, stock: Stock) -> Result<(), NoMemory>
        requires { IsStrictlySortedBy id_cmp stock }
        ensures value { OnOk result (self.new ≡ record { feeds = insert_entry text_cmp self.old.feeds feed stock; limit = self.old.limit }) }
        ensures err { OnErr result (self.new ≡ self.old) }
    {
        self.feeds.insert(feed, stock)?;
        Ok(())
    }

    /// The feeds are in the order of their names, each once, and the records of each feed are in the order of their ids, each
    /// id once. It does nothing.
    pub fn sorted_law(&self)
        ensures names { IsStrictlySortedBy text_cmp (keys_of self.now.feeds) }
        ensures records { AreSorted self.now.feeds }
    {
        let _count = self.feeds.len();
    }
}
