ghost use Rattle.std.specs.Prelude.{◌≡◌, ◌<◌, ◌++◌, ◌∷◌, [], ℕ, List, IfSome};
ghost use Rattle.std.specs.List.{Contains};
ghost use Rattle.cv_hook.specs.Attempts.{IsDue, IsLeast, after_line, begun, new_outbox, numbers};

use crate::took::Outcome;
use cv_notice::NoticeHead;
use std::marker::Model;

/// Which notification is offered next. It knows the last number that was taken, and the last outcome of this round. None of its
/// calls takes memory.
#[derive(Debug, Drop)]
pub struct Outbox {
    last: u64,
    noted: Option<Outcome>,
}

impl Model for Outbox {
    ghost use Rattle.cv_hook.specs.Attempts.{OutboxState};

    ghost Value = { OutboxState };

    ghost view = { λ o. record { last = o.last; noted = o.noted } };
}

impl Outbox {
    /// Nothing was taken yet, and a round begins.
    pub fn new() -> Outbox
        ensures { result ≡ new_outbox }
    {
        Outbox {
            last: 0,
            noted: None,
        }
    }

    /// Begins a round: what was refused before is due again.
    pub fn begin_round(&mut self)
        ensures { self.new ≡ begun self.old }
    {
        self.noted = None;
    }

    /// The number that is to be offered next, where these notifications stand.
    #[tactic(auto, using(crate::proofs::LeastLemmas::least_stands, crate::proofs::LeastLemmas::least_is_above))]
    pub fn due(&self, heads: &[NoticeHead]) -> Option<u64>
        ensures due { IsDue self.now (numbers heads.now) result }
        ensures stands { IfSome result (Contains (numbers heads.now)) }
        ensures above { IfSome result (λ number. self.now.last < number) }
    {
        match self.noted {
            None | Some(Outcome::Taken) => least_above(self.last, heads),
            Some(Outcome::Refused | Outcome::Fault) => None,
        }
    }

    /// Notes how an offer ended. The number of one that was taken is the last one taken from then on.
    pub fn note(&mut self, number: u64, outcome: Outcome)
        requires above { self.old.last < number }
        ensures { self.new ≡ after_line self.old (record { number = number; outcome = outcome }) }
    {
        if outcome == Outcome::Taken {
            self.last = number;
        }
        self.noted = Some(outcome);
    }
}

/// The least number above `last` of these notifications.
fn least_above(last: u64, heads: &[NoticeHead]) -> Option<u64>
    ensures { IsLeast last (numbers heads.now) result }
{
    let mut least = None;
    for head in heads {
        least = lesser(last, least, head.number);
    }
    least
}

/// The least number above `last`, after one number more.
fn lesser(last: u64, least: Option<u64>, number: u64) -> Option<u64>
    ensures { (standing : List ℕ) → IsLeast last standing least → IsLeast last (standing ++ number ∷ []) result }
{
    if number <= last {
        return least;
    }
    match least {
        Some(least) if least <= number => Some(least),
        _ => Some(number),
    }
}
