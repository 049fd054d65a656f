use cv_base::{NoMemory, Seq};
use cv_hook::{Hook, HookFault, HookLine, MemHook, Outbox, Outcome, Took};
use cv_notice::NoticeHead;
use std::alloc::Global;
use std::test::Fail;

fn is_shared<T: Send + Sync>() {}

#[test]
fn outboxes_and_hooks_are_shared_by_threads() {
    is_shared::<(Outbox, MemHook, HookLine)>();
}

/// A notification of one row.
fn head(number: u64) -> NoticeHead {
    NoticeHead { number, rows: 1 }
}

fn taken(number: u64) -> Option<HookLine> {
    Some(HookLine {
        number,
        outcome: Outcome::Taken,
    })
}

fn refused(number: u64) -> Option<HookLine> {
    Some(HookLine {
        number,
        outcome: Outcome::Refused,
    })
}

fn failed(number: u64) -> Option<HookLine> {
    Some(HookLine {
        number,
        outcome: Outcome::Fault,
    })
}

/// Offers what is due, if anything is, with no rows.
fn attempt(
    outbox: &mut Outbox,
    heads: &[NoticeHead],
    hook: &mut MemHook,
) -> Result<Option<HookLine>, NoMemory> {
    let Some(number) = outbox.due(heads) else {
        return Ok(None);
    };
    let outcome = match hook.offer(number, &[]) {
        Ok(Took::Taken) => Outcome::Taken,
        Ok(Took::Refused) => Outcome::Refused,
        Err(HookFault::Failed) => Outcome::Fault,
        Err(HookFault::NoMemory) => return Err(NoMemory),
    };
    outbox.note(number, outcome);
    Ok(Some(HookLine { number, outcome }))
}

/// The first three attempts of a round.
type Lines = (Option<HookLine>, Option<HookLine>, Option<HookLine>);

fn round(outbox: &mut Outbox, heads: &[NoticeHead], hook: &mut MemHook) -> Result<Lines, NoMemory> {
    outbox.begin_round();
    let first = attempt(outbox, heads, hook)?;
    let second = attempt(outbox, heads, hook)?;
    let third = attempt(outbox, heads, hook)?;
    Ok((first, second, third))
}

fn hook_of(alloc: Global, outcomes: &[Outcome]) -> Result<MemHook, NoMemory> {
    Ok(MemHook::new(Seq::of(outcomes.to_vec(alloc)?)))
}

#[test]
fn what_was_refused_is_taken_in_the_next_round(rt: HostRuntime) -> Result<(), Fail> {
    let mut outbox = Outbox::new();
    let mut hook = hook_of(rt.alloc(), &[Outcome::Refused])?;
    let heads = [head(2), head(1)];
    let first = round(&mut outbox, &heads, &mut hook)?;
    let second = round(&mut outbox, &heads, &mut hook)?;
    assert_eq!(rt; first, (refused(1), None, None));
    assert_eq!(rt; second, (taken(1), taken(2), None));
    Ok(())
}

#[test]
fn what_is_acknowledged_is_not_offered(rt: HostRuntime) -> Result<(), Fail> {
    let mut outbox = Outbox::new();
    let mut hook = hook_of(rt.alloc(), &[Outcome::Refused])?;
    let first = round(&mut outbox, &[head(1), head(2)], &mut hook)?;
    let second = round(&mut outbox, &[head(2)], &mut hook)?;
    assert_eq!(rt;
        (first, second),
        ((refused(1), None, None), (taken(2), None, None))
    );
    assert_eq!(rt; hook.offers(), 2);
    Ok(())
}

#[test]
fn a_fault_ends_the_attempts_of_a_round(rt: HostRuntime) -> Result<(), Fail> {
    let mut outbox = Outbox::new();
    let mut hook = hook_of(rt.alloc(), &[Outcome::Taken, Outcome::Fault])?;
    let heads = [head(1), head(2), head(3)];
    let first = round(&mut outbox, &heads, &mut hook)?;
    let second = round(&mut outbox, &heads, &mut hook)?;
    assert_eq!(rt; first, (taken(1), failed(2), None));
    assert_eq!(rt; second, (taken(2), taken(3), None));
    Ok(())
}

#[test]
fn a_hook_in_memory_answers_by_its_list(rt: HostRuntime) -> Result<(), Fail> {
    let mut hook = hook_of(rt.alloc(), &[Outcome::Refused, Outcome::Fault])?;
    let first = hook.offer(1, &[]);
    let second = hook.offer(1, &[]);
    let third = hook.offer(1, &[]);
    assert_eq!(rt;
        (first, second, third),
        (Ok(Took::Refused), Err(HookFault::Failed), Ok(Took::Taken))
    );
    assert_eq!(rt; hook.offers(), 3);
    Ok(())
}
