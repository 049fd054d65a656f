ghost use Rattle.std.specs.Prelude.{◌≡◌, ◌+◌, ◌-◌, ◌<◌, ◌≤◌, ◌++◌, ◌∷◌, [], ℕ, List, length, map, IfOk, OnOk};
ghost use Rattle.std.specs.List.{AllByRecursion};
ghost use Rattle.cv_pool.specs.declared.seat.Seat.{Seat};
ghost use Rattle.cv_pool.specs.Hands.{IsNewFill, new_hand, new_hands};
ghost use Rattle.cv_pool.specs.code.Owners.{owner_deque, IsOwner, owners_dealt};
ghost use Rattle.cv_pool.specs.code.Filling.{AreOwners, AreParts, Seated, SeatedAt, fill_of, owner_jobs};

use crate::account::{Added, Share};
use crate::hand::Hand;
use crate::queue_owners::QueueOwners;
use crate::seat::Seat;
use crate::task::{MARKS, Owner, Task};
use cv_seq::NoMemory;
use std::alloc::Global;

/// Owners of empty deques, one for each hand.
fn open_all(alloc: Global, jobs: u32, hands: u32) -> Result<Vec<Owner>, NoMemory>
    requires { 0 < hands }
    ensures { IfOk result (λ v. AreOwners 0 9 0 v.items × (length v.items ≡ hands)) }
{
    let capacity = (jobs / hands) as usize + 1 + MARKS as usize;
    let mut owners = Vec::with_capacity(alloc, hands as usize)?;
    for _ in 0..hands {
        owners.push(Owner::fifo_as(alloc, capacity)?)?;
    }
    Ok(owners)
}

/// Adds a job to a deque.
fn deal_job(owner: &mut Owner, job: u32) -> Result<(), NoMemory>
    requires { IsOwner 9 0 owner.old }
    ensures owner { OnOk result (IsOwner 9 0 owner.new) }
    ensures dealt { OnOk result (owner_jobs owner.new ≡ owner_jobs owner.old ++ job ∷ []) }
{
    match owner.push_as::<Added>(Task::Job(job)) {
        Ok(()) => Ok(()),
        Err(_) => Err(NoMemory),
    }
}

/// Deals the jobs in turn.
fn deal(owners: &mut [Owner], jobs: u32) -> Result<(), NoMemory>
    requires { AreOwners 0 9 0 owners.old × (0 < length owners.old) × (length owners.old ≤ 8) }
    ensures { OnOk result (AreOwners jobs 9 0 owners.new × (length owners.new ≡ length owners.old)) }
{
    let hands = owners.len() as u32;
    for job in 0..jobs {
        deal_job(&mut owners[(job % hands) as usize], job)?;
    }
    Ok(())
}

/// Adds a mark to a deque.
fn add_mark(owner: &mut Owner) -> Result<(), NoMemory>
    requires { (ends : ℕ) × IsOwner 9 ends owner.old }
    ensures owner { (ends : ℕ) → IsOwner 9 ends owner.old → OnOk result (IsOwner 9 (ends + 1) owner.new) }
    ensures dealt { OnOk result (owner_jobs owner.new ≡ owner_jobs owner.old) }
{
    match owner.push_as::<Added>(Task::End) {
        Ok(()) => Ok(()),
        Err(_) => Err(NoMemory),
    }
}

/// Adds all marks to a deque.
fn mark(owner: &mut Owner) -> Result<(), NoMemory>
    requires { IsOwner 9 0 owner.old }
    ensures owner { OnOk result (IsOwner 9 9 owner.new) }
    ensures dealt { OnOk result (owner_jobs owner.new ≡ owner_jobs owner.old) }
{
    for _ in 0..MARKS {
        add_mark(owner)?;
    }
    Ok(())
}

/// Adds all marks to each deque.
fn mark_all(owners: &mut [Owner]) -> Result<(), NoMemory>
    requires { AllByRecursion (IsOwner 9 0) owners.old }
    ensures owners { OnOk result (AllByRecursion (IsOwner 9 9) owners.new) }
    ensures dealt { OnOk result (map owner_jobs owners.new ≡ map owner_jobs owners.old) }
{
    let Some((owner, owners)) = owners.split_first_mut() else {
        return Ok(());
    };
    mark(owner)?;
    mark_all(owners)
}

/// A seat at a deque.
fn seat(owner: &mut Owner) -> Result<Seat, NoMemory>
    requires { (kept : ℕ) × (0 < kept) × IsOwner (kept + 1) 9 owner.old }
    ensures { IfOk result (λ s. SeatedAt owner.old s owner.new) }
{
    let thief = owner.stealer()?;
    let pass = owner.another::<Share>();
    Ok(Seat {
        thief,
        pass,
        more: true,
    })
}

/// Appends a seat at each deque.
fn seat_all(owners: &mut [Owner], seats: &mut Vec<Seat>) -> Result<(), NoMemory>
    requires { (kept : ℕ) × (0 < kept) × AllByRecursion (IsOwner (kept + 1) 9) owners.old }
    ensures { OnOk result ((added : List Seat) × (seats.new.items ≡ seats.old.items ++ added) × Seated owners.old added owners.new) }
{
    let Some((owner, owners)) = owners.split_first_mut() else {
        return Ok(());
    };
    seats.push(seat(owner)?)?;
    seat_all(owners, seats)
}

/// A seat at each deque.
fn new_seats(alloc: Global, owners: &mut [Owner]) -> Result<Vec<Seat>, NoMemory>
    requires { (kept : ℕ) × (0 < kept) × AllByRecursion (IsOwner (kept + 1) 9) owners.old }
    ensures { IfOk result (λ v. Seated owners.old v.items owners.new) }
{
    let mut seats = Vec::with_capacity(alloc, owners.len())?;
    seat_all(owners, &mut seats)?;
    Ok(seats)
}

/// A hand other than the first, that has taken nothing.
fn other_hand(
    alloc: Global,
    jobs: u32,
    index: usize,
    owners: &mut [Owner],
) -> Result<Hand, NoMemory>
    requires index { (0 < index) × (index < length owners.old) }
    requires owners { (kept : ℕ) × (0 < kept) × AreOwners jobs (kept + 1) 9 owners.old }
    ensures hand { IfOk result (λ hand. hand ≡ new_hand (fill_of jobs owners.old) index) }
    ensures owners { (kept : ℕ) → AreOwners jobs (kept + 1) 9 owners.old → OnOk result (AreOwners jobs kept 9 owners.new) }
    ensures fill { OnOk result (fill_of jobs owners.new ≡ fill_of jobs owners.old) }
{
    let seats = new_seats(alloc, owners)?;
    let list = Vec::with_capacity(alloc, jobs as usize)?;
    Ok(Hand {
        jobs,
        index,
        seats,
        list,
        queue_owners: None,
    })
}

/// The hands other than the first.
fn other_hands(alloc: Global, jobs: u32, owners: &mut [Owner]) -> Result<Vec<Hand>, NoMemory>
    requires count { (0 < length owners.old) × (length owners.old ≤ 8) }
    requires owners { AreOwners jobs 8 9 owners.old }
    ensures hands { IfOk result (λ v. (n : ℕ) × (n + 1 ≡ length owners.old) × (v.items ≡ new_hands (fill_of jobs owners.old) 1 n)) }
    ensures owners { OnOk result ((kept : ℕ) × (kept + length owners.old ≡ 9) × AreOwners jobs kept 9 owners.new) }
    ensures fill { OnOk result (fill_of jobs owners.new ≡ fill_of jobs owners.old) }
{
    let count = owners.len();
    let mut hands = Vec::with_capacity(alloc, count)?;
    for index in 1..count {
        hands.push(other_hand(alloc, jobs, index, owners)?)?;
    }
    Ok(hands)
}

/// Fills the deques and makes the seats of the first hand, and the other hands.
fn fill_owners(
    alloc: Global,
    jobs: u32,
    owners: &mut [Owner],
) -> Result<(Vec<Seat>, Vec<Hand>), NoMemory>
    requires { AreOwners 0 9 0 owners.old × (0 < length owners.old) × (length owners.old ≤ 8) }
    ensures { IfOk result (λ parts. AreParts jobs owners.old parts.0.items parts.1.items owners.new) }
{
    deal(owners, jobs)?;
    mark_all(owners)?;
    let seats = new_seats(alloc, owners)?;
    let hands = other_hands(alloc, jobs, owners)?;
    Ok((seats, hands))
}

/// Hands that have taken nothing, with the jobs below a number dealt to their deques: job k to hand k mod `hands`.
/// `NoMemory` if there is not enough memory, of which each hand takes a number of 32 bits for each job.
pub fn fill(alloc: Global, jobs: u32, hands: u32) -> Result<Vec<Hand>, NoMemory>
    requires { (1 ≤ hands) × (hands ≤ 8) }
    ensures { IfOk result (λ all. IsNewFill jobs hands all.items) }
{
    let mut owners = open_all(alloc, jobs, hands)?;
    let (seats, mut all) = fill_owners(alloc, jobs, owners.as_mut_slice())?;
    let list = Vec::with_capacity(alloc, jobs as usize)?;
    let lists = Vec::with_capacity(alloc, hands as usize)?;
    let first = Hand {
        jobs,
        index: 0,
        seats,
        list,
        queue_owners: Some(QueueOwners { owners, lists }),
    };
    all.insert(0, first)?;
    Ok(all)
}
