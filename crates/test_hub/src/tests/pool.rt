ghost use Rattle.std.specs.Prelude.{◌≡◌, ◌<◌, ◌∷◌, []};
ghost use Rattle.std.specs.Thread.{IsSync};
ghost use Rattle.cv_pool.specs.Hands.{IsSameHand, AreSameHands};

use cv_pool::{Hand, Taken, fill, gather};
use std::alloc::Global;
use std::sync::Wait;
use std::test::Fail;
use std::thread::{Threads, join_mut};

fn is_shared<T: Send + Sync>() {}

#[test]
fn hands_are_shared_by_threads() {
    is_shared::<Hand>();
    is_shared::<Taken>();
}

/// Whether the next answers of a hand are these.
fn answers<R: Wait>(rt: &R, hand: &mut Hand, wanted: &[Option<u32>]) -> bool
    ensures { IsSameHand hand.old hand.new }
{
    for answer in wanted {
        if hand.next(rt) != *answer {
            return false;
        }
    }
    true
}

/// Whether the lists of the hands that were gathered are these.
fn are_lists(taken: &Taken, wanted: &[&[u32]]) -> bool {
    let lists = taken.lists.as_slice();
    lists.len() == wanted.len()
        && lists
            .iter()
            .zip(wanted)
            .all(|(list, wanted)| list.as_slice() == *wanted)
}

#[test]
fn one_hand_without_jobs_takes_none(rt: HostRuntime) -> Result<(), Fail> {
    let mut hands = fill(rt.alloc(), 0, 1)?;
    let is_answered = answers(&rt, &mut hands[0], &[None, None]);
    assert!(rt; is_answered && are_lists(&gather(hands), &[&[]]));
    Ok(())
}

#[test]
fn the_first_hand_takes_its_own_jobs_and_then_the_others(rt: HostRuntime) -> Result<(), Fail> {
    let mut hands = fill(rt.alloc(), 5, 2)?;
    let jobs = [Some(0), Some(2), Some(4), Some(1), Some(3), None];
    let is_first = answers(&rt, &mut hands[0], &jobs);
    let is_second = answers(&rt, &mut hands[1], &[None]);
    let are_listed = are_lists(&gather(hands), &[&[0, 2, 4, 1, 3], &[]]);
    assert!(rt; is_first && is_second && are_listed);
    Ok(())
}

#[test]
fn the_second_hand_takes_its_own_job_and_then_the_others(rt: HostRuntime) -> Result<(), Fail> {
    let mut hands = fill(rt.alloc(), 3, 2)?;
    let is_second = answers(&rt, &mut hands[1], &[Some(1), Some(0), Some(2), None]);
    let is_first = answers(&rt, &mut hands[0], &[None]);
    let are_listed = are_lists(&gather(hands), &[&[], &[1, 0, 2]]);
    assert!(rt; is_second && is_first && are_listed);
    Ok(())
}

/// Takes jobs until there are none left.
fn take_all<R: Wait>(rt: &R, hand: &mut Hand)
    ensures { IsSameHand hand.old hand.new }
{
    for _ in rt.forever() {
        if hand.next(rt).is_none() {
            break;
        }
    }
}

/// Each hand does so in a thread of its own.
fn run_all<R: Threads + Wait + Sync>(rt: &R, hands: &mut [Hand])
    ensures { AreSameHands hands.old hands.new }
{
    let Some((hand, others)) = hands.split_first_mut() else {
        return;
    };
    join_mut(
        rt,
        &mut ||
            requires { IsSync R.row }
            ensures { IsSameHand hand.entry.now hand.exit.now }
        { take_all(rt, hand) },
        &mut ||
            requires { IsSync R.row }
            ensures { AreSameHands others.entry.now others.exit.now }
        { run_all(rt, others) },
    );
}

/// Each hand does so, or each hand but the first.
fn run<R: Threads + Wait + Sync>(rt: &R, hands: &mut [Hand], is_first_idle: bool)
    ensures { AreSameHands hands.old hands.new }
{
    if !is_first_idle {
        return run_all(rt, hands);
    }
    let Some((_first, others)) = hands.split_first_mut() else {
        return;
    };
    run_all(rt, others);
}

/// Whether the lists have each job below a number once, and no other.
fn has_each_once(alloc: Global, taken: &Taken, jobs: usize) -> Result<bool, Fail> {
    let mut all = Vec::new(alloc);
    for list in taken.lists.as_slice() {
        all.extend_from_slice(list.as_slice())?;
    }
    all.sort()?;
    Ok(
        all.len() == jobs
            && all
                .iter()
                .enumerate()
                .all(|(index, job)| index == *job as usize),
    )
}

#[test]
fn threads_take_each_job_once(rt: HostRuntime) -> Result<(), Fail> {
    for is_first_idle in [false, true] {
        let mut hands = fill(rt.alloc(), 1000, 4)?;
        run(&rt, hands.as_mut_slice(), is_first_idle);
        let taken = gather(hands);
        let lists = taken.lists.as_slice();
        let is_kept = !is_first_idle || lists[0].as_slice().is_empty();
        let has_each = has_each_once(rt.alloc(), &taken, 1000)?;
        assert!(rt; lists.len() == 4 && is_kept && has_each);
    }
    Ok(())
}
