ghost use Rattle.std.specs.Prelude.{◌+◌, ◌<◌, ◌≤◌, ◌^◌, ℕ, length, OnOk};
ghost use Rattle.std.specs.Thread.{IsSend, IsSync};
ghost use Rattle.cv_serve_crew.specs.code.Team.{AreLater, ArePreparedFrom, EachDidFrom};

use cv_seq::NoMemory;
use std::thread::{Threads, join_mut};

/// Work that threads do concurrently, each with a number, a hand, a seat and a desk of its own.
pub trait Crew<H, S, K> {
    /// What has to hold before.
    ghost prepared: { Self → ℕ → H → S → K → Type 0 };

    /// What was done.
    ghost did: { Self → ℕ → H → H → S → S → K → K → Type 0 };

    /// What a desk counts of its work. It never counts back, also if the work fails.
    ghost listed: { K → ℕ };

    /// What a desk counts of its failures. It never counts back, also if the work fails.
    ghost failed: { K → ℕ };

    /// Whether there is too little work for threads to be worth it.
    fn is_idle(&self) -> bool;

    /// Does the work of one number.
    fn run(&self, number: u32, hand: &mut H, seat: &mut S, desk: &mut K) -> Result<(), NoMemory>
        requires { prepared self.now number hand.old seat.old desk.old }
        ensures did { OnOk result (did self.now number hand.old hand.new seat.old seat.new desk.old desk.new) }
        ensures listed { listed desk.old ≤ listed desk.new }
        ensures failed { failed desk.old ≤ failed desk.new };
}

/// Does the work of all numbers from one on concurrently, as far as all slices go. The last one has no thread of its own, and
/// none has if the crew is idle.
#[cycle(crew)]
#[tactic(auto, using(crate::proofs::Later::later_same))]
pub fn run_crew<H: Send, S: Send, K: Send, T: Crew<H, S, K> + Sync, W: Threads + Sync>(
    rt: &W,
    crew: &T,
    number: u32,
    hands: &mut [H],
    seats: &mut [S],
    desks: &mut [K],
) -> Result<(), NoMemory>
    requires in_range { number + length desks.old < 2 ^ 32 }
    requires prepared { ArePreparedFrom (T.prepared crew.now) number hands.old seats.old desks.old }
    ensures did { OnOk result (EachDidFrom (T.did crew.now) number hands.old hands.new seats.old seats.new desks.old desks.new) }
    ensures listed { AreLater T.listed desks.old desks.new }
    ensures failed { AreLater T.failed desks.old desks.new }
{
    let Some((hand, hands)) = hands.split_first_mut() else {
        return Ok(());
    };
    let Some((seat, seats)) = seats.split_first_mut() else {
        return Ok(());
    };
    let Some((desk, desks)) = desks.split_first_mut() else {
        return Ok(());
    };
    crew_from(rt, crew, number, hand, hands, seat, seats, desk, desks)
}

/// Does the work of one number, and beside it that of the numbers after it.
#[cycle(crew)]
#[tactic(auto, using(crate::proofs::Later::later_same))]
fn crew_from<H: Send, S: Send, K: Send, T: Crew<H, S, K> + Sync, W: Threads + Sync>(
    rt: &W,
    crew: &T,
    number: u32,
    hand: &mut H,
    hands: &mut [H],
    seat: &mut S,
    seats: &mut [S],
    desk: &mut K,
    desks: &mut [K],
) -> Result<(), NoMemory>
    requires in_range { number + 1 + length desks.old < 2 ^ 32 }
    requires first { T.prepared crew.now number hand.old seat.old desk.old }
    requires prepared { ArePreparedFrom (T.prepared crew.now) (number + 1) hands.old seats.old desks.old }
    ensures first { OnOk result (T.did crew.now number hand.old hand.new seat.old seat.new desk.old desk.new) }
    ensures others { OnOk result (EachDidFrom (T.did crew.now) (number + 1) hands.old hands.new seats.old seats.new desks.old desks.new) }
    ensures first_listed { T.listed desk.old ≤ T.listed desk.new }
    ensures first_failed { T.failed desk.old ≤ T.failed desk.new }
    ensures others_listed { AreLater T.listed desks.old desks.new }
    ensures others_failed { AreLater T.failed desks.old desks.new }
{
    if desks.is_empty() || crew.is_idle() {
        crew.run(number, hand, seat, desk)?;
        return run_crew(rt, crew, number + 1, hands, seats, desks);
    }
    let (first, others) = join_mut(
        rt,
        &mut || -> Result<(), NoMemory>
            requires { T.prepared crew.now number hand.now seat.now desk.now }
            ensures did { OnOk result (T.did crew.entry.now number hand.entry.now hand.exit.now seat.entry.now seat.exit.now desk.entry.now desk.exit.now) }
            ensures listed { T.listed desk.entry.now ≤ T.listed desk.exit.now }
            ensures failed { T.failed desk.entry.now ≤ T.failed desk.exit.now }
        { crew.run(number, hand, seat, desk) },
        &mut || -> Result<(), NoMemory>
            requires { IsSync W.row × IsSync T.row × IsSend H.row × IsSend S.row × IsSend K.row × (number + 1 + length desks.now < 2 ^ 32) × ArePreparedFrom (T.prepared crew.now) (number + 1) hands.now seats.now desks.now }
            ensures did { OnOk result (EachDidFrom (T.did crew.entry.now) (number + 1) hands.entry.now hands.exit.now seats.entry.now seats.exit.now desks.entry.now desks.exit.now) }
            ensures listed { AreLater T.listed desks.entry.now desks.exit.now }
            ensures failed { AreLater T.failed desks.entry.now desks.exit.now }
        { run_crew(rt, crew, number + 1, hands, seats, desks) },
    );
    first?;
    others
}
