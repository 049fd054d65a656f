ghost use Rattle.std.specs.Prelude.{◌≡◌, ◌<◌, ℕ, Bool, true, List, filter, flat_map};
ghost use Rattle.std.specs.List.{AllByRecursion};
ghost use Rattle.cv_base.specs.Lines.{Line};
ghost use Rattle.cv_transcript.specs.Order.{events_of};
ghost use Rattle.cv_transcript.specs.declared.entry.Entry.{Entry};
ghost use Rattle.cv_core_machine.specs.Scans.{Trees};
ghost use Rattle.cv_serve_legal.specs.Division.{AreRounds, IsShort};
ghost use Rattle.cv_serve_legal.specs.Laws.{IsHistory, NeverFall, generations, has_text};
ghost use Rattle.cv_serve_legal.specs.Legal.{AreLegal};
ghost use Rattle.cv_serve_legal.specs.Replay.{Moment};
ghost use Rattle.cv_serve_legal.specs.Rounds.{Round, RoundLimits, cut_lines, input_lines, rounds_of};

use cv_core_machine::step_laws;

/// What holds of the rounds of every input, if a round may have a line. Each ends for one of three reasons, and the one that
/// has begun could have one more line, `ends`. No other rounds of these lines are so, `unique`. Those of an input that ended
/// have each line that is not empty once, in order, `lines`. None is too long, `short`.
pub fn round_laws()
    ensures ends { (limits : RoundLimits) (lines : List Line) → 0 < limits.lines → AreRounds limits (cut_lines limits lines).rounds (cut_lines limits lines).begun lines }
    ensures unique { (limits : RoundLimits) (rounds : List Round) (begun : Round) (lines : List Line) → AreRounds limits rounds begun lines → cut_lines limits lines ≡ record { rounds = rounds; begun = begun } }
    ensures lines { (limits : RoundLimits) (bytes : List ℕ) → 0 < limits.lines → flat_map (λ round. round) (rounds_of limits bytes true) ≡ filter has_text (input_lines bytes true) }
    ensures short { (limits : RoundLimits) (bytes : List ℕ) (ended : Bool) → 0 < limits.lines → AllByRecursion (IsShort limits) (rounds_of limits bytes ended) }
{}

/// The events of all legal rounds are one history of the machine. The history has some acts of these names and replies: that an
/// act is the whole of what was asked for is said by `AreLegal`, and not by the history.
pub fn history_law()
    ensures { (trees : Trees) (workers : ℕ) (before : Moment) (rounds : List Round) (entries : List Entry) (after : Moment) → AreLegal trees workers before rounds entries after → IsHistory trees before (events_of entries) after }
{}

/// The generations that the entries of all legal rounds name never fall, whichever lane reads them.
pub fn generation_law()
    ensures { (trees : Trees) (workers : ℕ) (before : Moment) (rounds : List Round) (entries : List Entry) (after : Moment) → AreLegal trees workers before rounds entries after → NeverFall before.state.generation (generations entries) after.state.generation }
{
    step_laws();
}
