ghost use Rattle.std.specs.Prelude.{◌≡◌, ◌≤◌, ◌<◌, ◌+◌, true, false, List, IfOk, IfErr, IsErrOf};
ghost use Rattle.cv_advdb.specs.Feeds.{has_feed, records_of};
ghost use Rattle.cv_advdb.specs.Patch.{CountsTooMany, patch_count, patched, patched_records};
ghost use Rattle.cv_advdb.specs.Touched.{IsTouched};
ghost use Rattle.cv_base.specs.declared.package.PackageName.{PackageName};
ghost use Rattle.cv_base.specs.declared.limits.TheConstants.{MAX_ADVISORIES};
ghost use Rattle.cv_findings.specs.Rematch.{AgreeOnUntouched};
ghost use Rattle.cv_core_machine.specs.Matching.{touched_pairs};
ghost use Rattle.cv_core_machine.specs.Rows.{rows_of};
ghost use Rattle.cv_core_machine.specs.Scans.{StatesEveryLayer, trees_of};
ghost use Rattle.cv_core_machine.specs.State.{State, with_value};
ghost use Rattle.cv_core_inventory.specs.Holdings.{feed_table, holding};

use crate::inventory::Inventory;
use cv_advdb::{Feeds, PatchError, Touched, touched_laws};
use cv_base::{Advisory, Row, Seq, Steps, Text};
use cv_desk::Desk;
use std::alloc::Global;
use std::sync::ledger::Ledger;

impl<D: Desk + Drop> Inventory<D> {
    /// The inventory after a patch of a feed, which has these records in place of those of their ids and of those to remove, and
    /// the rows to notify of, as for `update`. `NoFeed` if there is no such feed, or else `TooManyRecords` if the feed would have
    /// more records than may be, and how many; then nothing is matched. An id to remove of which there is no record is passed
    /// over. What is matched, and how many tries that takes, is as for `update`.
    pub fn patch<L: Ledger>(
        &self,
        alloc: Global,
        feed: &Text,
        records: Seq<Advisory>,
        remove: &[Text],
        steps: &mut Steps<L>,
    ) -> Result<(Inventory<D>, Seq<Row>), PatchError>
        ensures value { IfOk result (λ after. after.0 ≡ record self.now { feeds = with_value self.now.feeds feed.now (patched_records (records_of feed.now self.now.feeds) records remove.now) }) }
        ensures rows { StatesEveryLayer D.tree → IfOk result (λ after. (state : State) → after.1 ≡ rows_of (trees_of D.tree) (holding state self.now) (with_value self.now.feeds feed.now (patched_records (records_of feed.now self.now.feeds) records remove.now))) }
        ensures stands { IfOk result (λ _. has_feed feed.now self.now.feeds ≡ true) }
        ensures room { IfOk result (λ _. patch_count (feed_table self.now) feed.now records remove.now ≤ MAX_ADVISORIES) }
        ensures no_feed { IsErrOf result PatchError.NoFeed → has_feed feed.now self.now.feeds ≡ false }
        ensures too_many { IfErr result (CountsTooMany (patch_count (feed_table self.now) feed.now records remove.now)) }
        ensures refused { MAX_ADVISORIES < patch_count (feed_table self.now) feed.now records remove.now → steps.new ≤ steps.old }
        ensures counted { StatesEveryLayer D.tree → (state : State) (keys : List PackageName) → IsTouched (records_of feed.now self.now.feeds) (patched_records (records_of feed.now self.now.feeds) records remove.now) keys → steps.new ≤ steps.old + touched_pairs (trees_of D.tree) (holding state self.now) (with_value self.now.feeds feed.now (patched_records (records_of feed.now self.now.feeds) records remove.now)) keys }
    {
        touched_laws();
        self.regular_law();
        let (feeds, touched) = self.patched(alloc, feed, records, remove)?;
        Ok(self.with_feeds(alloc, feeds, &touched, steps)?)
    }

    /// The feeds after a patch of one, and the keys that it touches.
    fn patched(
        &self,
        alloc: Global,
        feed: &Text,
        records: Seq<Advisory>,
        remove: &[Text],
    ) -> Result<(Feeds, Touched), PatchError>
        ensures value { IfOk result (λ after. after.0 ≡ patched (feed_table self.now) feed.now records remove.now) }
        ensures touched { IfOk result (λ after. IsTouched (records_of feed.now self.now.feeds) (patched_records (records_of feed.now self.now.feeds) records remove.now) after.1.keys) }
        ensures untouched { IfOk result (λ after. AgreeOnUntouched after.1.keys self.now.feeds after.0.feeds) }
        ensures stands { IfOk result (λ _. has_feed feed.now self.now.feeds ≡ true) }
        ensures room { IfOk result (λ _. patch_count (feed_table self.now) feed.now records remove.now ≤ MAX_ADVISORIES) }
        ensures no_feed { IsErrOf result PatchError.NoFeed → has_feed feed.now self.now.feeds ≡ false }
        ensures too_many { IfErr result (CountsTooMany (patch_count (feed_table self.now) feed.now records remove.now)) }
    {
        let mut feeds = self.knowledge.feeds().copy()?;
        let touched = feeds.patch(alloc, feed, records, remove)?;
        Ok((feeds, touched))
    }
}
