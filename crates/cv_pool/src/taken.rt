ghost use Rattle.std.specs.Prelude.{◌≡◌, ◌+◌, ◌<◌, ◌≤◌, ◌++◌, ◌∷◌, ◌||◌, [], ℕ, true, not, map, length};
ghost use Rattle.std.specs.List.{AllByRecursion};
ghost use Rattle.std.specs.Vec.{vec_len, vec_capacity};
ghost use Rattle.cv_pool.specs.Jobs.{weigh, lists_weigh, weigh_below};
ghost use Rattle.cv_pool.specs.Hands.{Fill, AreHandsOf, lists_of, any_done};
ghost use Rattle.cv_pool.specs.code.HandParts.{hand_state};
ghost use Rattle.cv_pool.specs.code.Seats.{seat_deque, seats_weigh, any_more, IsSeated};
ghost use Rattle.cv_pool.specs.code.Owners.{owner_deque, IsOwner, HasShares, owners_dealt};
ghost use Rattle.cv_pool.specs.code.Gathering.{AreSeatsOf, AreOfDeques, Absorbed, AbsorbedAt, Gathered, HasShare, HasSettled};

use crate::account::{Settled, Share};
use crate::hand::Hand;
use crate::queue_owners::QueueOwners;
use crate::seat::Seat;
use crate::task::Owner;
use cv_seq::Seq;
use std::collections::VecDeque;

/// What the hands of a fill took.
#[derive(Drop)]
pub struct Taken {
    /// A list for each hand, in their order, with its jobs in the order taken.
    pub lists: Seq<Seq<u32>>,
}

/// The owner takes the account of a seat into its own.
fn absorb(owner: &mut Owner, seat: Seat)
    requires { (seat_deque seat ≡ owner_deque owner.old) × IsSeated seat × HasShare owner.old }
    ensures { AbsorbedAt owner.old seat owner.new }
{
    let Seat {
        thief: _,
        pass,
        more: _,
    } = seat;
    owner.absorb::<Share>(pass);
}

/// Each owner takes the account of a seat into its own.
fn absorb_all(owners: &mut [Owner], mut seats: VecDeque<Seat>)
    requires { AreSeatsOf owners.old seats.items }
    ensures { Absorbed owners.old seats.items owners.new }
{
    let Some((owner, owners)) = owners.split_first_mut() else {
        return;
    };
    let Some(seat) = seats.pop_front() else {
        return;
    };
    absorb(owner, seat);
    absorb_all(owners, seats);
}

/// The accounts of a hand go back to the owners, and its list goes to the others.
fn gather_hand(owners: &mut [Owner], seats: Vec<Seat>, list: Vec<u32>, lists: &mut Vec<Seq<u32>>)
    requires seats { AllByRecursion IsSeated seats.items × (map seat_deque seats.items ≡ map owner_deque owners.old) }
    requires weights { (h : ℕ → ℕ) → weigh h list.items ≡ seats_weigh h seats.items }
    requires shares { AllByRecursion HasShare owners.old }
    requires room { vec_len lists.old < vec_capacity lists.old }
    ensures owners { (jobs index : ℕ) → Gathered owners.old (hand_state jobs index seats.items list.items ∷ []) owners.new }
    ensures lists { lists.new.items ≡ lists.old.items ++ list.items ∷ [] }
    ensures room { (vec_capacity lists.new ≡ vec_capacity lists.old) × (vec_len lists.new ≡ vec_len lists.old + 1) }
{
    absorb_all(owners, VecDeque::from_vec(seats));
    lists.push_reserved(Seq::of(list));
}

/// The same for some hands.
fn gather_hands(owners: &mut [Owner], mut hands: VecDeque<Hand>, lists: &mut Vec<Seq<u32>>)
    requires hands { AreOfDeques (map owner_deque owners.old) hands.items }
    requires shares { AllByRecursion HasShare owners.old }
    requires room { vec_len lists.old + length hands.items ≤ vec_capacity lists.old }
    ensures owners { Gathered owners.old hands.items owners.new }
    ensures lists { lists.new.items ≡ lists.old.items ++ lists_of hands.items }
{
    let Some(hand) = hands.pop_front() else {
        return;
    };
    let Hand {
        jobs: _,
        index: _,
        seats,
        list,
        queue_owners: _,
    } = hand;
    gather_hand(owners, seats, list, lists);
    gather_hands(owners, hands, lists);
}

/// The owner learns that what was taken is within what was dealt, and all of it if a mark was taken.
fn settle(owner: &mut Owner)
    requires { HasShares 9 owner.old }
    ensures { HasSettled owner.old }
{
    let _ = owner.len_as::<Settled>();
}

/// Each owner learns this.
fn settle_all(owners: &mut [Owner])
    requires { AllByRecursion (HasShares 9) owners.old }
    ensures { AllByRecursion HasSettled owners.old }
{
    let Some((owner, owners)) = owners.split_first_mut() else {
        return;
    };
    settle(owner);
    settle_all(owners);
}

/// The accounts of the first hand and of the others go back to the owners, which then settle.
fn gather_all(
    owners: &mut [Owner],
    seats: Vec<Seat>,
    list: Vec<u32>,
    hands: VecDeque<Hand>,
    lists: &mut Vec<Seq<u32>>,
)
    requires seats { AllByRecursion IsSeated seats.items × (map seat_deque seats.items ≡ map owner_deque owners.old) }
    requires weights { (h : ℕ → ℕ) → weigh h list.items ≡ seats_weigh h seats.items }
    requires hands { AreOfDeques (map owner_deque owners.old) hands.items }
    requires shares { (kept : ℕ) × (0 < kept) × (kept + 1 + length hands.items ≡ 9) × AllByRecursion (IsOwner kept 9) owners.old }
    requires room { vec_len lists.old + 1 + length hands.items ≤ vec_capacity lists.old }
    ensures lists { lists.new.items ≡ lists.old.items ++ list.items ∷ lists_of hands.items }
    ensures at_most { (h : ℕ → ℕ) → lists_weigh h (list.items ∷ lists_of hands.items) ≤ owners_dealt h owners.old }
    ensures all { not (any_more seats.items) || any_done hands.items ≡ true → (h : ℕ → ℕ) → lists_weigh h (list.items ∷ lists_of hands.items) ≡ owners_dealt h owners.old }
{
    gather_hand(owners, seats, list, lists);
    gather_hands(owners, hands, lists);
    settle_all(owners);
}

/// The lists of all hands of a fill, each with its jobs in the order taken. No job is in them twice, and each is below the
/// number of jobs. If the `next` of some hand has given None, each job below this number is in them once. The hands are
/// all those that one `fill` gave, in order. It takes no memory.
pub fn gather(hands: Vec<Hand>) -> Taken
    requires { (fill : Fill) × AreHandsOf fill hands.items }
    ensures lists { result.lists ≡ lists_of hands.items }
    ensures at_most { (fill : Fill) → AreHandsOf fill hands.items → (h : ℕ → ℕ) → lists_weigh h result.lists ≤ weigh_below h fill.jobs }
    ensures all { (fill : Fill) → AreHandsOf fill hands.items → any_done hands.items ≡ true → (h : ℕ → ℕ) → lists_weigh h result.lists ≡ weigh_below h fill.jobs }
{
    let mut hands = VecDeque::from_vec(hands);
    let Some(first) = hands.pop_front() else {
        unreachable!()
    };
    let Hand {
        jobs: _,
        index: _,
        seats,
        list,
        queue_owners,
    } = first;
    let Some(queue_owners) = queue_owners else {
        unreachable!()
    };
    let QueueOwners {
        mut owners,
        mut lists,
    } = queue_owners;
    gather_all(owners.as_mut_slice(), seats, list, hands, &mut lists);
    Taken {
        lists: Seq::of(lists),
    }
}
