ghost use Rattle.std.specs.Prelude.{◌≡◌, ◌≤◌, ◌+◌, true, false, length, IfOk, IsErrOf};
ghost use Rattle.cv_advdb.specs.Feeds.{by_id, is_full, records_of, replaced};
ghost use Rattle.cv_advdb.specs.Touched.{IsTouched};
ghost use Rattle.cv_findings.specs.Rematch.{AgreeOnUntouched};
ghost use Rattle.cv_core_machine.specs.Matching.{IsStepCount, touched_pairs};
ghost use Rattle.cv_core_machine.specs.Rows.{rows_of};
ghost use Rattle.cv_core_machine.specs.Scans.{StatesEveryLayer, trees_of};
ghost use Rattle.cv_core_machine.specs.State.{State, with_value};
ghost use Rattle.cv_core_machine.specs.declared.event.MachineEvent.{MachineEvent};
ghost use Rattle.cv_core_inventory.specs.Holdings.{feed_table, holding};
ghost use Rattle.cv_core_inventory.specs.code.Kept.{holdings_of, registrations};

use crate::inventory::Inventory;
use cv_advdb::{AdvError, Feeds, Touched, touched_laws};
use cv_base::{Advisory, NoMemory, Row, Seq, Steps, Text};
use cv_desk::Desk;
use cv_tree::Share;
use std::alloc::Global;
use std::sync::ledger::Ledger;

impl<D: Desk + Drop> Inventory<D> {
    /// The inventory after an update of a feed, which has these records in place of those before, and the rows to notify of: what
    /// the update changes in the findings of the images that are indexed. `TooManyFeeds` if the feed is new and there are as many
    /// as may be; then nothing is matched. Only the packages that have a touched key are matched again, and only images with a
    /// layer that has such a package's name are looked at. `counted` says how many tries that takes at most, also where memory
    /// is wanting.
    pub fn update<L: Ledger>(
        &self,
        alloc: Global,
        feed: Text,
        records: Seq<Advisory>,
        steps: &mut Steps<L>,
    ) -> Result<(Inventory<D>, Seq<Row>), AdvError>
        ensures value { IfOk result (λ after. after.0 ≡ record self.now { feeds = with_value self.now.feeds feed (by_id records) }) }
        ensures rows { StatesEveryLayer D.tree → IfOk result (λ after. (state : State) → after.1 ≡ rows_of (trees_of D.tree) (holding state self.now) (with_value self.now.feeds feed (by_id records))) }
        ensures room { IfOk result (λ _. is_full (feed_table self.now) feed ≡ false) }
        ensures full { IsErrOf result AdvError.TooManyFeeds → is_full (feed_table self.now) feed ≡ true }
        ensures counted { StatesEveryLayer D.tree → (state : State) → IsStepCount (trees_of D.tree) (holding state self.now) (MachineEvent.Update feed records) steps.old steps.new }
    {
        touched_laws();
        self.regular_law();
        let (feeds, touched) = self.replaced(alloc, feed, records)?;
        Ok(self.with_feeds(alloc, feeds, &touched, steps)?)
    }

    /// The feeds after an update of one, and the keys that it touches.
    fn replaced(
        &self,
        alloc: Global,
        feed: Text,
        records: Seq<Advisory>,
    ) -> Result<(Feeds, Touched), AdvError>
        ensures value { IfOk result (λ after. after.0 ≡ replaced (feed_table self.now) feed records) }
        ensures touched { IfOk result (λ after. IsTouched (records_of feed self.now.feeds) (by_id records) after.1.keys) }
        ensures untouched { IfOk result (λ after. AgreeOnUntouched after.1.keys self.now.feeds after.0.feeds) }
        ensures room { IfOk result (λ _. is_full (feed_table self.now) feed ≡ false) }
        ensures full { IsErrOf result AdvError.TooManyFeeds → is_full (feed_table self.now) feed ≡ true }
    {
        let mut feeds = self.knowledge.feeds().copy()?;
        let touched = feeds.replace(alloc, feed, records)?;
        Ok((feeds, touched))
    }

    /// The inventory with feeds that an update with these touched keys leaves, and the rows that they add.
    pub(crate) fn with_feeds<L: Ledger>(
        &self,
        alloc: Global,
        feeds: Feeds,
        touched: &Touched,
        steps: &mut Steps<L>,
    ) -> Result<(Inventory<D>, Seq<Row>), NoMemory>
        requires within_limit { length feeds.feeds ≤ feeds.limit }
        requires untouched { AgreeOnUntouched touched.now.keys self.now.feeds feeds.feeds }
        ensures value { IfOk result (λ after. after.0 ≡ holdings_of (registrations self.now) feeds) }
        ensures rows { StatesEveryLayer D.tree → IfOk result (λ after. (state : State) → after.1 ≡ rows_of (trees_of D.tree) (holding state self.now) feeds.feeds) }
        ensures counted { StatesEveryLayer D.tree → (state : State) → steps.new ≤ steps.old + touched_pairs (trees_of D.tree) (holding state self.now) feeds.feeds touched.now.keys }
    {
        let registry = self.registry.share()?;
        let (knowledge, rows) = self
            .knowledge
            .with_feeds(alloc, feeds, touched, &self.registry, steps)?;
        Ok((Inventory::of(registry, knowledge), rows))
    }
}
