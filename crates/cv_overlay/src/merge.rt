ghost use Rattle.std.specs.Prelude.{◌≡◌, ◌+◌, ◌<◌, ◌≤◌, [], ◌∷◌, ◌++◌, drop, length, take, Some, vec_len, vec_capacity};
ghost use Rattle.cv_overlay.specs.code.Merge.{merged, order_of_fronts};

use cv_base::TreeEntry;
use std::cmp::Ordering;
use std::collections::VecDeque;

/// Puts an entry where there is room for it.
pub fn put(room: &mut Vec<TreeEntry>, entry: TreeEntry)
    requires { vec_len room.old < vec_capacity room.old }
    ensures items { room.new.items ≡ room.old.items ++ entry ∷ [] }
    ensures len { vec_len room.new ≡ vec_len room.old + 1 }
    ensures capacity { vec_capacity room.old ≤ vec_capacity room.new }
{
    match room.push(entry) {
        Ok(()) => {}
        Err(_) => unreachable!(),
    }
}

/// Two lists in path order in one. At a path of both the upper entry stands.
pub fn merge(
    mut room: Vec<TreeEntry>,
    lower: Vec<TreeEntry>,
    upper: Vec<TreeEntry>,
) -> Vec<TreeEntry>
    requires empty { room.items ≡ [] }
    requires room { vec_len room + (length lower.items + length upper.items) ≤ vec_capacity room }
    ensures { result.items ≡ merged lower.items upper.items }
{
    let mut low = VecDeque::from(lower);
    let mut high = VecDeque::from(upper);
    while let Some(order) = order_of_fronts(&low, &high) {
        take_first(order, &mut room, &mut low, &mut high);
    }
    put_all(&mut room, low);
    put_all(&mut room, high);
    room
}

/// The order of the first entries of two queues, if both have one.
fn order_of_fronts(low: &VecDeque<TreeEntry>, high: &VecDeque<TreeEntry>) -> Option<Ordering>
    ensures { result ≡ order_of_fronts low.now.items high.now.items }
{
    let x = low.front()?;
    let y = high.front()?;
    Some(x.path.cmp(&y.path))
}

/// Moves the first entry of two queues to the end of a list, or drops a lower one in whose place an upper one stands.
fn take_first(
    order: Ordering,
    room: &mut Vec<TreeEntry>,
    low: &mut VecDeque<TreeEntry>,
    high: &mut VecDeque<TreeEntry>,
)
    requires order { order_of_fronts low.old.items high.old.items ≡ Some order }
    requires room { vec_len room.old + (length low.old.items + length high.old.items) ≤ vec_capacity room.old }
    ensures items { room.new.items ++ merged low.new.items high.new.items ≡ room.old.items ++ merged low.old.items high.old.items }
    ensures smaller { length low.new.items + length high.new.items < length low.old.items + length high.old.items }
    ensures room { vec_len room.new + (length low.new.items + length high.new.items) ≤ vec_capacity room.new }
{
    match order {
        Ordering::Less => put_front(room, low),
        Ordering::Equal => drop_front(low),
        Ordering::Greater => put_front(room, high),
    }
}

/// Moves the first entry of a queue to the end of a list.
fn put_front(room: &mut Vec<TreeEntry>, queue: &mut VecDeque<TreeEntry>)
    requires { vec_len room.old < vec_capacity room.old }
    ensures room { room.new.items ≡ room.old.items ++ take 1 queue.old.items }
    ensures queue { queue.new.items ≡ drop 1 queue.old.items }
    ensures len { vec_len room.new ≤ vec_len room.old + 1 }
    ensures capacity { vec_capacity room.old ≤ vec_capacity room.new }
{
    if let Some(entry) = queue.pop_front() {
        put(room, entry);
    }
}

/// Drops the first entry of a queue.
fn drop_front(queue: &mut VecDeque<TreeEntry>)
    ensures { queue.new.items ≡ drop 1 queue.old.items }
{
    let _first = queue.pop_front();
}

/// Moves all that a queue holds to the end of a list.
fn put_all(room: &mut Vec<TreeEntry>, mut rest: VecDeque<TreeEntry>)
    requires { vec_len room.old + length rest.items ≤ vec_capacity room.old }
    ensures items { room.new.items ≡ room.old.items ++ rest.items }
    ensures len { vec_len room.new ≡ vec_len room.old + length rest.items }
    ensures capacity { vec_capacity room.old ≤ vec_capacity room.new }
{
    while let Some(entry) = rest.pop_front() {
        put(room, entry);
    }
}
