ghost use Rattle.std.specs.Prelude.{ℕ, [], List};
ghost use Rattle.cv_serve_legal.specs.Complete.{AreAllIndexed, AreDivided, ArePendingRecent, HasNoFault};
ghost use Rattle.cv_serve_legal.specs.Legal.{AreLegal, IsLegal};
ghost use Rattle.cv_serve_legal.specs.Replay.{Moment, beginning};
ghost use Rattle.cv_serve_legal.specs.Rounds.{Round};
ghost use Rattle.cv_core_machine.specs.Scans.{Trees};
ghost use Rattle.cv_core_machine.specs.State.{State};
ghost use Rattle.cv_transcript.specs.declared.entry.Entry.{Entry};

/// What holds of every legal transcript in which no worker gives a layer back, even if memory ran out for some of its lines. At its
/// end each layer of each registered image is Indexed, `indexed`, and so it is in the state to which a legal output leads, `ended`. The
/// entries of every legal transcript are divided into those of its rounds, `divided`. However they are so divided, a report is
/// pending only for an image that is registered before it, in its round or in the round before, `pending`.
pub fn completeness_laws()
    ensures indexed { (trees : Trees) (workers : ℕ) (rounds : List Round) (entries : List Entry) (after : Moment) → AreLegal trees workers beginning rounds entries after
        → HasNoFault entries → AreAllIndexed after.state }
    ensures ended { (trees : Trees) (input output : List ℕ) (workers : ℕ) (state : State) (legal : IsLegal trees input output workers state)
        → HasNoFault legal.entries → AreAllIndexed state }
    ensures divided { (trees : Trees) (workers : ℕ) (before : Moment) (rounds : List Round) (entries : List Entry) (after : Moment) → AreLegal trees workers before rounds entries after
        → AreDivided trees workers before rounds entries after }
    ensures pending { (trees : Trees) (workers : ℕ) (rounds : List Round) (entries : List Entry) (after : Moment) (division : AreDivided trees workers beginning rounds entries after)
        → HasNoFault entries → ArePendingRecent [] division.parts }
{}
