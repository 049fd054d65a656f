ghost use Rattle.std.specs.Prelude.{◌≡◌, ◌+◌, ◌<◌, ◌++◌, drop, length, map, take, Some, IfOk, OnOk};
ghost use Rattle.cv_coalesce.specs.code.Merged.{merged};
ghost use Rattle.cv_coalesce.specs.code.Fronts.{order_of_fronts};

use cv_base::NoMemory;
use cv_facts::FileFound;
use std::alloc::Global;
use std::cmp::Ordering;
use std::collections::VecDeque;

/// Two lists in path order in one. At a path of both the upper file stands.
pub fn merge<'a>(
    alloc: Global,
    lower: Vec<&'a FileFound>,
    upper: Vec<&'a FileFound>,
) -> Result<Vec<&'a FileFound>, NoMemory>
    ensures { IfOk result (λ out. map (λ f. f.now) out.items ≡ merged (map (λ f. f.now) lower.entry.items) (map (λ f. f.now) upper.entry.items)) }
{
    let mut out = Vec::new(alloc);
    let mut low = VecDeque::from(lower);
    let mut high = VecDeque::from(upper);
    while let Some(order) = order_of_fronts(&low, &high) {
        take_first(order, &mut out, &mut low, &mut high)?;
    }
    move_all(&mut out, low)?;
    move_all(&mut out, high)?;
    Ok(out)
}

/// The order of the first files of two queues, if both have one.
fn order_of_fronts(low: &VecDeque<&FileFound>, high: &VecDeque<&FileFound>) -> Option<Ordering>
    ensures { result ≡ order_of_fronts (map (λ f. f.now) low.now.items) (map (λ f. f.now) high.now.items) }
{
    let x = low.front()?;
    let y = high.front()?;
    Some(x.path.cmp(&y.path))
}

/// Moves the first file of two queues to the end of a list, or drops a lower one in whose place an upper one stands.
fn take_first<'a>(
    order: Ordering,
    out: &mut Vec<&'a FileFound>,
    low: &mut VecDeque<&'a FileFound>,
    high: &mut VecDeque<&'a FileFound>,
) -> Result<(), NoMemory>
    requires { order_of_fronts (map (λ f. f.now) low.old.items) (map (λ f. f.now) high.old.items) ≡ Some order }
    ensures files { OnOk result (map (λ f. f.now) out.new.items ++ merged (map (λ f. f.now) low.new.items) (map (λ f. f.now) high.new.items) ≡ map (λ f. f.now) out.old.items ++ merged (map (λ f. f.now) low.old.items) (map (λ f. f.now) high.old.items)) }
    ensures smaller { OnOk result (length low.new.items + length high.new.items < length low.old.items + length high.old.items) }
{
    match order {
        Ordering::Less => move_front(out, low),
        Ordering::Equal => {
            drop_front(low);
            Ok(())
        }
        Ordering::Greater => move_front(out, high),
    }
}

/// Moves the first file of a queue to the end of a list.
fn move_front<'a>(
    out: &mut Vec<&'a FileFound>,
    queue: &mut VecDeque<&'a FileFound>,
) -> Result<(), NoMemory>
    ensures out { OnOk result (map (λ f. f.now) out.new.items ≡ map (λ f. f.now) out.old.items ++ take 1 (map (λ f. f.now) queue.old.items)) }
    ensures queue { OnOk result (queue.new.items ≡ drop 1 queue.old.items) }
{
    if let Some(file) = queue.pop_front() {
        out.push(file)?;
    }
    Ok(())
}

/// Drops the first file of a queue.
fn drop_front(queue: &mut VecDeque<&FileFound>)
    ensures { queue.new.items ≡ drop 1 queue.old.items }
{
    let _first = queue.pop_front();
}

/// Moves all files of a queue to the end of a list.
fn move_all<'a>(
    out: &mut Vec<&'a FileFound>,
    mut rest: VecDeque<&'a FileFound>,
) -> Result<(), NoMemory>
    ensures { OnOk result (map (λ f. f.now) out.new.items ≡ map (λ f. f.now) out.old.items ++ map (λ f. f.now) rest.entry.items) }
{
    while let Some(file) = rest.pop_front() {
        out.push(file)?;
    }
    Ok(())
}
