ghost use Rattle.std.specs.Prelude.{◌≡◌, IfOk};
ghost use Rattle.std.specs.Option.{option_map};
ghost use Rattle.cv_advdb.specs.Feeds.{has_feed};
ghost use Rattle.cv_core_machine.specs.Answer.{report_of};
ghost use Rattle.cv_core_machine.specs.Board.{board_of};
ghost use Rattle.cv_core_machine.specs.Layers.{queued};
ghost use Rattle.cv_core_machine.specs.Scans.{StatesEveryLayer, trees_of};
ghost use Rattle.cv_core_machine.specs.State.{State};
ghost use Rattle.cv_core_outcome.specs.Truth.{report_with};
ghost use Rattle.cv_tree.specs.Entries.{map_values};
ghost use Rattle.cv_core_inventory.specs.Knowledge.{AreOutcomesOf, IsOutcomeOf, report_by};
ghost use Rattle.cv_core_inventory.specs.Holdings.{holding};

use crate::inventory::Inventory;
use crate::knowledge::Outcomes;
use cv_base::{Digest, NoMemory, Text};
use cv_core_outcome::Outcome;
use cv_desk::Desk;
use std::alloc::Global;

impl<D: Desk + Drop> Inventory<D> {
    /// The outcome of an image, or None if it is not registered, which is that of the facts of its layers, of their stated seals and
    /// of the feeds. It takes no memory.
    pub fn outcome(&self, image: &Digest) -> Option<&Outcome>
        ensures known { IsOutcomeOf D.tree self.now image.now (option_map (λ outcome. outcome.now) result) }
        ensures report { StatesEveryLayer D.tree → (state : State) → report_by state.generation (option_map (λ outcome. outcome.now) result) ≡ report_of (trees_of D.tree) (holding state self.now) image.now }
    {
        self.knowledge.outcome(image)
    }

    /// The outcomes of all images by hash, shared. Each is that of the facts of its image's layers, of their stated seals and of the
    /// feeds.
    pub fn outcomes(&self) -> Result<Outcomes, NoMemory>
        ensures known { IfOk result (λ outcomes. AreOutcomesOf D.tree self.now outcomes) }
        ensures reports { StatesEveryLayer D.tree → IfOk result (λ outcomes. (state : State) → map_values (report_with state.generation) outcomes ≡ (board_of (trees_of D.tree) (holding state self.now)).reports) }
    {
        self.knowledge.outcomes()
    }

    /// Whether there is a feed of this name.
    pub fn has_feed(&self, feed: &Text) -> bool
        ensures { result ≡ has_feed feed.now self.now.feeds }
    {
        self.knowledge.feeds().has_feed(feed)
    }

    /// The layers that wait for a worker, in ascending order.
    pub fn queued(&self, alloc: Global) -> Result<Vec<Digest>, NoMemory>
        ensures { IfOk result (λ layers. layers.items ≡ queued self.now.layers) }
    {
        self.registry.queued(alloc)
    }
}
