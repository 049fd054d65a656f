ghost use Rattle.std.specs.Prelude.{◌≡◌, ◌<◌, ◌≤◌, ℕ, List, Option, Some, All, true, false};
ghost use Rattle.std.specs.List.{Contains};
ghost use Rattle.cv_hook.specs.Attempts.{IsDue, IsRound, IsRoundFrom, OutboxState, after_line, begun, is_taken};
ghost use Rattle.cv_hook.specs.declared.offer.HookLine.{HookLine};

/// What an outbox and whoever offers what is due of it do in each round, and over several rounds.
pub fn attempt_laws()
    // One number at most is due.
    ensures one { (outbox : OutboxState) (standing : List ℕ) (due other : Option ℕ) →
        IsDue outbox standing due → IsDue outbox standing other → due ≡ other }
    // Who begins a round, and offers what is due until nothing is, makes the attempts of a round.
    ensures round { (outbox : OutboxState) (standing : List ℕ) (lines : List HookLine) →
        IsRoundFrom (begun outbox) standing lines → IsRound outbox.last standing lines }
    // What was not taken is due again in the next round, if it stands then, and none below it is new.
    ensures again { (outbox : OutboxState) (standing later : List ℕ) (line : HookLine) →
        IsDue outbox standing (Some line.number) → is_taken line.outcome ≡ false → Contains later line.number →
        All (λ number. number < line.number → Contains standing number) later →
        IsDue (begun (after_line outbox line)) later (Some line.number) }
    // What is acknowledged is not due.
    ensures stands { (outbox : OutboxState) (standing : List ℕ) (number : ℕ) →
        IsDue outbox standing (Some number) → Contains standing number }
    // What was taken, or has a lower number, is never due again, since the last number taken never falls.
    ensures above { (outbox : OutboxState) (standing : List ℕ) (number : ℕ) →
        IsDue outbox standing (Some number) → outbox.last < number }
    ensures taken { (outbox : OutboxState) (line : HookLine) → is_taken line.outcome ≡ true → (after_line outbox line).last ≡ line.number }
    ensures later { (outbox : OutboxState) (line : HookLine) → outbox.last < line.number → outbox.last ≤ (after_line outbox line).last }
{}
