ghost use Rattle.std.specs.Prelude.{◌≡◌, ◌++◌, ◌∷◌, [], Some, length, option_map, IfOk, IfSome, OnOk, OnErr};
ghost use Rattle.cv_seq.specs.Cause.{CausedBy};
ghost use Rattle.cv_hook.specs.Memory.{answer_of, faults_in, next_outcome};
ghost use Rattle.cv_hook.specs.Offers.{added_offer, is_failed, outcome_of};

use crate::fault::HookFault;
use crate::hook::Hook;
use crate::offer::Offer;
use crate::took::{Outcome, Took};
use cv_base::{NoMemory, Row, Seq};
use std::alloc::Global;
use std::marker::Model;

/// A hook that keeps its offers in memory. Their outcomes are those of a list, and after it each one is taken. An offer that
/// runs out of memory is not kept.
#[derive(Debug, Drop)]
pub struct MemHook {
    outcomes: Vec<Outcome>,
    offers: Vec<Offer>,
}

impl Model for MemHook {
    ghost use Rattle.cv_hook.specs.Memory.{MemoryHook};

    ghost Value = { MemoryHook };

    ghost view = { λ h. record { outcomes = h.outcomes.items; offers = h.offers.items } };
}

impl MemHook {
    /// No offer yet. It takes no memory.
    pub fn new(outcomes: Seq<Outcome>) -> MemHook
        ensures { result ≡ record { outcomes = outcomes; offers = [] } }
    {
        let outcomes = outcomes.into_vec();
        let offers = Vec::new(*outcomes.allocator());
        MemHook { outcomes, offers }
    }

    /// How many offers it has. It takes no memory.
    pub fn offers(&self) -> u64
        ensures { result ≡ length self.now.offers }
    {
        self.offers.len() as u64
    }

    /// Keeps one more offer.
    fn keep(&mut self, offer: Offer) -> Result<(), NoMemory>
        ensures ok { OnOk result (self.new ≡ record self.old { offers = self.old.offers ++ offer ∷ [] }) }
        ensures err { OnErr result (self.new ≡ self.old) }
    {
        self.offers.push(offer)?;
        Ok(())
    }

    /// The outcome of the next offer.
    fn next_outcome(&self) -> Outcome
        ensures { result ≡ next_outcome self.now }
    {
        match self.outcomes.get(self.offers.len()) {
            Some(outcome) => *outcome,
            None => Outcome::Taken,
        }
    }
}

/// Rows that are equal to these.
fn copy_rows(alloc: Global, rows: &[Row]) -> Result<Seq<Row>, NoMemory>
    ensures { IfOk result (λ copy. copy ≡ rows.now) }
{
    let mut copy = Vec::new(alloc);
    for row in rows {
        copy.push(row.clone()?)?;
    }
    Ok(Seq::of(copy))
}

/// The answer to an offer of this outcome.
fn answer_of(outcome: Outcome) -> Result<Took, HookFault>
    ensures { result ≡ answer_of outcome }
{
    match outcome {
        Outcome::Taken => Ok(Took::Taken),
        Outcome::Refused => Ok(Took::Refused),
        Outcome::Fault => Err(HookFault::Failed),
    }
}

impl Hook for MemHook {
    ghost offers = { λ h. Some h.offers };

    ghost faults = { λ h. faults_in h.offers };

    fn offer(&mut self, number: u64, rows: &[Row]) -> Result<Took, HookFault>
        ensures offers { Some self.new.offers ≡ option_map (λ made. made ++ added_offer number rows.now result) (Some self.old.offers) }
        ensures cause { CausedBy (faults_in self.old.offers) (faults_in self.new.offers) (is_failed result) }
        ensures outcomes { self.new.outcomes ≡ self.old.outcomes }
        ensures outcome { IfSome (outcome_of result) (λ outcome. outcome ≡ next_outcome self.old) }
    {
        let outcome = self.next_outcome();
        let rows = copy_rows(*self.offers.allocator(), rows)?;
        self.keep(Offer {
            number,
            rows,
            outcome,
        })?;
        answer_of(outcome)
    }
}
