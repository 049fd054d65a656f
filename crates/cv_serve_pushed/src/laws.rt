ghost use Rattle.std.specs.Prelude.{◌≡◌, ◌++◌, ◌∷◌, [], ℕ, List, Option, Some};
ghost use Rattle.std.specs.List.{Contains};
ghost use Rattle.std.specs.Map.{keys_of};
ghost use Rattle.cv_core_machine.specs.Scans.{StatesEveryLayer, trees_of};
ghost use Rattle.cv_hook.specs.Attempts.{new_outbox};
ghost use Rattle.cv_hook.specs.declared.offer.HookLine.{HookLine};
ghost use Rattle.cv_hook.specs.declared.offer.Offer.{Offer};
ghost use Rattle.cv_hub_seats.specs.Events.{DeskTrees};
ghost use Rattle.cv_serve_legal.specs.Replay.{Moment, beginning};
ghost use Rattle.cv_serve_legal.specs.Whole.{WholeRound};
ghost use Rattle.cv_serve_round.specs.Done.{AreDone};
ghost use Rattle.cv_serve_round.specs.Written.{WithBytes};
ghost use Rattle.cv_serve_pushed.specs.Pushes.{PushState, Pushes, push_state};
ghost use Rattle.cv_serve_pushed.specs.Rounds.{AreAttempts, AreAttemptsInParts, ArePushed, AreTakenOnce, AreTakenOrWait, all_lines, first_offered, last_untaken};

/// What the rounds of a push that were carried out are by lists, at whatever end, `rounds`. The first ones of some rounds lead to a moment
/// from which the later ones go on, `parts`. So what is said of the last two of some rounds holds of any two that follow each other: what
/// was not taken after the first of them is offered first after the second, if its notification stands there, `again`. A number that was
/// taken is not offered again, nor is a lower one, `once`. And none is skipped, `waits`: after any rounds from the beginning, with a new
/// outbox, each notification that stands either was taken, or has a number above the last one taken, where the next round begins. The last
/// three hold over desks whose type states every layer.
pub fn push_laws()
    ensures rounds { (tree : DeskTrees) (workers : ℕ) (start : Moment) (before : WithBytes PushState) (rounds : List WholeRound) (after : Moment) (now : WithBytes PushState)
        → AreDone (StatesEveryLayer tree) (trees_of tree) workers (Pushes tree) start before rounds after now → ArePushed tree workers start before rounds after now }
    ensures parts { (tree : DeskTrees) (workers : ℕ) (start : Moment) (before : PushState) (first later : List WholeRound) (hook_lines : List (List HookLine)) (after : Moment) (now : PushState)
        → AreAttempts tree workers start before (first ++ later) hook_lines after now → AreAttemptsInParts tree workers start before first later hook_lines after now }
    ensures again { (tree : DeskTrees) (workers : ℕ) (before : PushState) (earlier : List WholeRound) (first second : WholeRound) (earlier_lines : List (List HookLine)) (lines next : List HookLine)
        (after : Moment) (now : PushState) (number : ℕ) → StatesEveryLayer tree
        → AreAttempts tree workers beginning before (earlier ++ first ∷ second ∷ []) (earlier_lines ++ lines ∷ next ∷ []) after now
        → last_untaken lines ≡ Some number → Contains (keys_of after.state.notifications) number → first_offered next ≡ Some number }
    ensures once { (tree : DeskTrees) (workers : ℕ) (start : Moment) (before : PushState) (rounds : List WholeRound) (hook_lines : List (List HookLine)) (after : Moment) (now : PushState)
        → StatesEveryLayer tree → AreAttempts tree workers start before rounds hook_lines after now → AreTakenOnce (all_lines hook_lines) }
    ensures waits { (tree : DeskTrees) (workers : ℕ) (offers : Option (List Offer)) (faults : ℕ) (rounds : List WholeRound) (hook_lines : List (List HookLine)) (after : Moment) (now : PushState)
        → StatesEveryLayer tree → AreAttempts tree workers beginning (push_state new_outbox offers faults) rounds hook_lines after now
        → AreTakenOrWait (keys_of after.state.notifications) now.outbox.last (all_lines hook_lines) }
{}
