ghost use Rattle.std.specs.Prelude.{◌≡◌, ◌↔◌, ℕ, true, false, List, [], Option, Some};
ghost use Rattle.cv_base.specs.Texts.{has_text};
ghost use Rattle.cv_base.specs.declared.package.PackageName.{PackageName};
ghost use Rattle.cv_desk.specs.Stored.{Stored};
ghost use Rattle.cv_facts.specs.Reduction.{Known};
ghost use Rattle.cv_findings.specs.Rematch.{AgreeOnUntouched};
ghost use Rattle.cv_core_machine.specs.Answer.{report_at};
ghost use Rattle.cv_core_machine.specs.Board.{board_of};
ghost use Rattle.cv_core_machine.specs.Layers.{first_pending};
ghost use Rattle.cv_core_machine.specs.Matching.{touched_pairs};
ghost use Rattle.cv_core_machine.specs.Rows.{rows_of as machine_rows};
ghost use Rattle.cv_core_machine.specs.Scans.{StatesEveryLayer, trees_of};
ghost use Rattle.cv_core_machine.specs.State.{Feeds, Images, State, value_at, with_value};
ghost use Rattle.cv_core_machine.specs.declared.image.Image.{Image};
ghost use Rattle.cv_core_outcome.specs.Facts.{pending_layer, waits_for};
ghost use Rattle.cv_core_outcome.specs.Outcome.{FactTable, first_unknown, has_facts, outcome_at};
ghost use Rattle.cv_core_outcome.specs.Truth.{AreFactsOf, report_with};
ghost use Rattle.cv_core_outcome.specs.Update.{has_touched, rematch_pairs, rematched, rematched_by, rows_by, update_rows};
ghost use Rattle.cv_core_outcome.specs.declared.outcome.Outcome.{Outcome};
ghost use Rattle.cv_core_records.specs.declared.read.ReportOutcome.{ReportOutcome};
ghost use Rattle.cv_tree.specs.Entries.{costs_of, map_values, remade_entries, rows_of};

use cv_findings::rematch_laws;

/// Why reports are read from outcomes. If a desk's type is known, and the facts are those of the Indexed layers, the report by an
/// image's outcome is that of the machine, `report`, and the reports of all images are those of the machine's board, `board`.
pub fn image_laws()
    ensures report { (tree : List ℕ → Option (Option (List Stored))) (state : State) (facts : FactTable) (image : Image) → StatesEveryLayer tree → AreFactsOf tree state.layers facts
        → report_with state.generation (outcome_at facts state.feeds image) ≡ report_at (Some image) (trees_of tree) state }
    ensures board { (tree : List ℕ → Option (Option (List Stored))) (state : State) (facts : FactTable) → StatesEveryLayer tree → AreFactsOf tree state.layers facts
        → map_values (report_with state.generation) (map_values (outcome_at facts state.feeds) state.images) ≡ (board_of (trees_of tree) state).reports }
{}

/// Why it is known which images wait, and for which layer, whatever a desk's type says and whatever the feeds are. If the facts
/// are those of the Indexed layers, the first of an image's layers that has no facts is the first that is not Indexed, `first`. It
/// is the layer for whose facts the image waits, `waiting`. The outcome is `Pending` of a layer exactly if the layer is this one,
/// `outcome`, and then so is the report, in each generation, `report`.
pub fn pending_laws()
    ensures first { (tree : List ℕ → Option (Option (List Stored))) (state : State) (facts : FactTable) (layers : List (List ℕ)) → AreFactsOf tree state.layers facts
        → first_unknown facts layers ≡ first_pending state.layers layers }
    ensures waiting { (tree : List ℕ → Option (Option (List Stored))) (state : State) (facts : FactTable) (feeds : Feeds) (image : Image) → AreFactsOf tree state.layers facts
        → pending_layer (outcome_at facts feeds image) ≡ first_pending state.layers image.layers }
    ensures outcome { (tree : List ℕ → Option (Option (List Stored))) (state : State) (facts : FactTable) (feeds : Feeds) (image : Image) (layer : List ℕ) → AreFactsOf tree state.layers facts
        → outcome_at facts feeds image ≡ Outcome.Pending layer ↔ first_pending state.layers image.layers ≡ Some layer }
    ensures report { (tree : List ℕ → Option (Option (List Stored))) (state : State) (facts : FactTable) (feeds : Feeds) (image : Image) (layer : List ℕ) (generation : ℕ) → AreFactsOf tree state.layers facts
        → first_pending state.layers image.layers ≡ Some layer → report_with generation (outcome_at facts feeds image) ≡ ReportOutcome.Pending layer }
{}

/// Where an outcome changes with the facts of layers. Of these it depends on those of the image's layers alone, `agree`, so that those
/// of a layer that the image does not name change nothing, `unnamed`. The first facts of a layer change nothing but for the images that
/// wait for this layer, `fresh`.
pub fn fact_laws()
    ensures agree { (ones others : FactTable) (feeds : Feeds) (image : Image) → ((layer : List ℕ) → has_text image.layers layer ≡ true → value_at ones layer ≡ value_at others layer)
        → outcome_at ones feeds image ≡ outcome_at others feeds image }
    ensures unnamed { (facts : FactTable) (layer : List ℕ) (known : Known) (feeds : Feeds) (image : Image) → has_text image.layers layer ≡ false
        → outcome_at (with_value facts layer known) feeds image ≡ outcome_at facts feeds image }
    ensures fresh { (facts : FactTable) (layer : List ℕ) (known : Known) (feeds : Feeds) (image : Image) → has_facts facts layer ≡ false
        → waits_for layer (outcome_at facts feeds image) ≡ false → outcome_at (with_value facts layer known) feeds image ≡ outcome_at facts feeds image }
{}

/// Why an update needs the outcomes alone. Those that it makes are the outcomes with the feeds after it, of one image, `image`, and
/// of all, `images`. The rows that it adds are those of the machine, if a desk's type is known, and the facts are those of the
/// Indexed layers, `rows`. If each package without a touched key has the same findings with the feeds before and after it, then the
/// outcome that is made by these keys is the same, `again`, and so are its rows, `again_rows`; where no package has such a key,
/// neither changes, `untouched`. The tries that it takes are those of the machine, under the conditions of `rows`: `pairs`.
pub fn update_laws()
    ensures image { (facts : FactTable) (before after : Feeds) (image : Image) → rematched after (outcome_at facts before image) ≡ outcome_at facts after image }
    ensures images { (facts : FactTable) (before after : Feeds) (images : Images)
        → remade_entries (λ _. rematched after) (map_values (outcome_at facts before) images) ≡ map_values (outcome_at facts after) images }
    ensures rows { (tree : List ℕ → Option (Option (List Stored))) (state : State) (facts : FactTable) (after : Feeds) → StatesEveryLayer tree → AreFactsOf tree state.layers facts
        → rows_of (update_rows after) (map_values (outcome_at facts state.feeds) state.images) ≡ machine_rows (trees_of tree) state after }
    ensures again { (facts : FactTable) (before after : Feeds) (touched : List PackageName) (image : Image) → AgreeOnUntouched touched before after
        → rematched_by touched after (outcome_at facts before image) ≡ outcome_at facts after image }
    ensures again_rows { (facts : FactTable) (before after : Feeds) (touched : List PackageName) (hash : List ℕ) (image : Image) → AgreeOnUntouched touched before after
        → rows_by touched after hash (outcome_at facts before image) ≡ update_rows after hash (outcome_at facts before image) }
    ensures untouched { (facts : FactTable) (before after : Feeds) (touched : List PackageName) (hash : List ℕ) (image : Image) → AgreeOnUntouched touched before after
        → has_touched touched (outcome_at facts before image) ≡ false
        → (outcome_at facts after image ≡ outcome_at facts before image) × (update_rows after hash (outcome_at facts before image) ≡ []) }
    ensures pairs { (tree : List ℕ → Option (Option (List Stored))) (state : State) (facts : FactTable) (after : Feeds) (touched : List PackageName) → StatesEveryLayer tree → AreFactsOf tree state.layers facts
        → costs_of (λ _. rematch_pairs touched after) (map_values (outcome_at facts state.feeds) state.images) ≡ touched_pairs (trees_of tree) state after touched }
{
    rematch_laws();
}
