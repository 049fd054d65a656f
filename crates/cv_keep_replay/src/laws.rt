ghost use Rattle.std.specs.Prelude.{◌≡◌, ℕ, List};
ghost use Rattle.cv_core_machine.specs.Scans.{Trees};
ghost use Rattle.cv_keep_record.specs.declared.event.KeptEvent.{KeptEvent};
ghost use Rattle.cv_keep_replay.specs.Good.{AreGoodFrom, IsFirstBad};
ghost use Rattle.cv_serve_legal.specs.Replay.{Moment};

/// What holds of all records. If they are good one after the other, none of them is the first that is not good, `not_both`, and one at
/// most is, `one`.
pub fn good_laws()
    ensures not_both { (trees : Trees) (start after : Moment) (records : List (List ℕ)) (events : List KeptEvent) (k : ℕ) → AreGoodFrom trees start records events after → IsFirstBad trees start records k → ⊥ }
    ensures one { (trees : Trees) (start : Moment) (records : List (List ℕ)) (k l : ℕ) → IsFirstBad trees start records k → IsFirstBad trees start records l → k ≡ l }
{}
