ghost use Rattle.std.specs.Prelude.{◌≡◌, ◌≤◌, ◌+◌, ◌++◌, IfOk, OnOk};
ghost use Rattle.std.specs.List.{flat_map};
ghost use Rattle.cv_base.specs.InOrder.{in_order};
ghost use Rattle.cv_core_outcome.specs.Outcome.{outcome_at};
ghost use Rattle.cv_core_outcome.specs.Update.{rematch_pairs, rematched, update_rows};
ghost use Rattle.cv_findings.specs.Rematch.{AgreeOnUntouched};
ghost use Rattle.cv_core_registry.specs.Registrations.{users_of};
ghost use Rattle.cv_match.specs.Findings.{text_cmp};
ghost use Rattle.cv_tree.specs.Entries.{costs_of, map_values, remade_entries, rows_of};
ghost use Rattle.cv_core_inventory.specs.code.Changes.{feeds_replaced};

use crate::knowledge::{Knowledge, Outcomes};
use crate::named::push_all;
use cv_advdb::{Feeds, Touched};
use cv_base::{Digest, NoMemory, Row, Seq, Steps, in_order};
use cv_core_outcome::{Rematch, update_laws};
use cv_core_registry::Registry;
use cv_desk::Desk;
use cv_layer_names::names_law;
use cv_tree::{Share, Shared};
use std::alloc::Global;
use std::sync::ledger::Ledger;

impl<D: Desk + Drop> Knowledge<D> {
    /// The knowledge with feeds that an update with these touched keys leaves, and the rows of the images whose findings it
    /// changes. Only images with a layer that has a name of these keys are looked at, and of these only the packages that have
    /// one of the keys are matched.
    pub(crate) fn with_feeds<L: Ledger>(
        &self,
        alloc: Global,
        feeds: Feeds,
        touched: &Touched,
        registry: &Registry,
        steps: &mut Steps<L>,
    ) -> Result<(Knowledge<D>, Seq<Row>), NoMemory>
        requires untouched { AgreeOnUntouched touched.now.keys self.now.feeds.feeds feeds.feeds }
        requires made { self.now.outcomes ≡ map_values (outcome_at self.now.facts self.now.feeds.feeds) registry.now.images }
        ensures value { IfOk result (λ after. after.0 ≡ feeds_replaced self.now feeds) }
        ensures rows { IfOk result (λ after. after.1 ≡ rows_of (update_rows feeds.feeds) self.now.outcomes) }
        ensures counted { steps.new ≤ steps.old + costs_of (λ _. rematch_pairs touched.now.keys feeds.feeds) self.now.outcomes }
    {
        let facts = self.facts.share()?;
        let mut rows = Vec::new(alloc);
        let outcomes = self.outcomes_after(alloc, &feeds, touched, registry, &mut rows, steps)?;
        let feeds = Shared::of(alloc, feeds)?;
        let knowledge = Knowledge {
            facts,
            outcomes,
            feeds,
        };
        Ok((knowledge, Seq::of(rows)))
    }

    /// The outcomes with these feeds. The rows are added.
    fn outcomes_after<L: Ledger>(
        &self,
        alloc: Global,
        feeds: &Feeds,
        touched: &Touched,
        registry: &Registry,
        rows: &mut Vec<Row>,
        steps: &mut Steps<L>,
    ) -> Result<Outcomes, NoMemory>
        requires untouched { AgreeOnUntouched touched.now.keys self.now.feeds.feeds feeds.now.feeds }
        requires made { self.now.outcomes ≡ map_values (outcome_at self.now.facts self.now.feeds.feeds) registry.now.images }
        ensures value { IfOk result (λ after. after ≡ remade_entries (λ _. rematched feeds.now.feeds) self.now.outcomes) }
        ensures rows { OnOk result (rows.new.items ≡ rows.old.items ++ rows_of (update_rows feeds.now.feeds) self.now.outcomes) }
        ensures counted { steps.new ≤ steps.old + costs_of (λ _. rematch_pairs touched.now.keys feeds.now.feeds) self.now.outcomes }
    {
        registry.regular_law();
        names_law();
        update_laws();
        let keys = touched.keys.as_slice();
        let layers = self.facts.layers_named(alloc, keys)?;
        let images = users_of_all(alloc, registry, &layers)?;
        let maker = Rematch::<L>::new(feeds, touched);
        let outcomes = self
            .outcomes
            .remake_at(alloc, &images, &maker, rows, steps)?;
        Ok(outcomes)
    }
}

/// The images that name one of these layers, in ascending order, each once.
fn users_of_all(
    alloc: Global,
    registry: &Registry,
    layers: &[Digest],
) -> Result<Vec<Digest>, NoMemory>
    ensures { IfOk result (λ images. images.items ≡ in_order text_cmp (flat_map (users_of registry.now.images) layers.now)) }
{
    let mut images = Vec::new(alloc);
    for layer in layers {
        let users = registry.users_of(alloc, layer)?;
        push_all(&mut images, users)?;
    }
    in_order(alloc, images)
}
