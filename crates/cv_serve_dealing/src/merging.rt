ghost use Rattle.std.specs.Prelude.{◌≡◌, ℕ, ◌∷◌, [], ◌<◌, get_or, length, map, IfNone, IfOk, IfSome};
ghost use Rattle.std.specs.List.Sorted.{IsPermutation};
ghost use Rattle.std.specs.VecDeque.{deque_items};
ghost use Rattle.cv_transcript.specs.Order.{AreAscending, AreByLane, entries_of, events_of, reads_by, reads_of};
ghost use Rattle.cv_serve_dealing.specs.code.Merge.{first_number, front_before, merged, next_lane};
ghost use Rattle.cv_transcript.specs.declared.entry.Entry.TheVariants.{Event};

use cv_base::{NoMemory, Seq};
use cv_core_records::{EventEntry, ReadEntry};
use cv_transcript::Entry;
use std::alloc::Global;
use std::collections::VecDeque;

/// Merges the events of a round with the reads of its lanes, those of lane 0 first. A read stands after the event whose number
/// is its front, and before the next one. Reads with one front stand by lane, and those of one lane by line. The events and the
/// reads of each lane have to be in this order already: `ascending` and `reads` are stated of those.
#[tactic(auto, using(crate::proofs::MergeLemmas::merged_ascending, crate::proofs::MergeLemmas::merged_each, crate::proofs::MergeLemmas::merged_events, crate::proofs::MergeLemmas::merged_reads))]
pub fn merge(
    alloc: Global,
    events: Seq<EventEntry>,
    reads: Seq<Seq<ReadEntry>>,
) -> Result<Seq<Entry>, NoMemory>
    ensures each { IfOk result (λ entries. IsPermutation (entries_of events reads) entries) }
    ensures events { IfOk result (λ entries. events_of entries ≡ events) }
    ensures reads { AreByLane reads → IfOk result (λ entries. (lane : ℕ) → reads_by lane (reads_of entries) ≡ get_or reads lane []) }
    ensures ascending { AreAscending (map Event events) → AreByLane reads → IfOk result AreAscending }
{
    Ok(Seq::of(merged(alloc, events.into_vec(), reads.into_vec())?))
}

/// Merges the events and the lanes, and moves each entry once.
fn merged(
    alloc: Global,
    events: Vec<EventEntry>,
    lanes: Vec<Seq<ReadEntry>>,
) -> Result<Vec<Entry>, NoMemory>
    ensures { IfOk result (λ entries. entries.items ≡ merged events.items lanes.items) }
{
    let mut queues = queues_of(alloc, lanes)?;
    take_all(alloc, VecDeque::from(events), queues.as_mut_slice())
}

/// The reads of each lane, to be taken from the front.
fn queues_of(
    alloc: Global,
    lanes: Vec<Seq<ReadEntry>>,
) -> Result<Vec<VecDeque<ReadEntry>>, NoMemory>
    ensures { IfOk result (λ queues. map deque_items queues.items ≡ lanes.items) }
{
    let mut queues = Vec::new(alloc);
    for reads in lanes {
        queues.push(VecDeque::from(reads.into_vec()))?;
    }
    Ok(queues)
}

/// Takes all entries, always the one that comes next.
fn take_all(
    alloc: Global,
    mut events: VecDeque<EventEntry>,
    lanes: &mut [VecDeque<ReadEntry>],
) -> Result<Vec<Entry>, NoMemory>
    ensures { IfOk result (λ entries. entries.items ≡ merged events.items (map deque_items lanes.old)) }
{
    let mut entries = Vec::new(alloc);
    while let Some(entry) = take_next(&mut events, lanes) {
        entries.push(entry)?;
    }
    Ok(entries)
}

/// Takes the first event, or the first read of a lane.
fn take_next(events: &mut VecDeque<EventEntry>, lanes: &mut [VecDeque<ReadEntry>]) -> Option<Entry>
    ensures next { IfSome result (λ next. merged events.old.items (map deque_items lanes.old) ≡ next ∷ merged events.new.items (map deque_items lanes.new)) }
    ensures none { IfNone result (merged events.old.items (map deque_items lanes.old) ≡ []) }
{
    let number = first_number(events);
    let Some(lane) = next_lane(number, lanes) else {
        let event = events.pop_front()?;
        return Some(Entry::Event(event));
    };
    let read = lanes[lane].pop_front()?;
    Some(Entry::Read(read))
}

/// The number of the first event.
fn first_number(events: &VecDeque<EventEntry>) -> Option<u64>
    ensures { result ≡ first_number events.now.items }
{
    let event = events.front()?;
    Some(event.number)
}

/// The lane whose first read comes before this place and before the first reads of the other lanes.
fn next_lane(mut place: Option<u64>, lanes: &[VecDeque<ReadEntry>]) -> Option<usize>
    ensures value { result ≡ next_lane place (map deque_items lanes.now) }
    ensures within { IfSome result (λ lane. lane < length lanes.now) }
{
    let mut next = None;
    for (lane, reads) in lanes.iter().enumerate() {
        if let Some(front) = front_before(place, reads) {
            place = Some(front);
            next = Some(lane);
        }
    }
    next
}

/// The front of the first of some reads, if it comes before this place.
fn front_before(place: Option<u64>, reads: &VecDeque<ReadEntry>) -> Option<u64>
    ensures { result ≡ front_before place reads.now.items }
{
    let read = reads.front()?;
    match place {
        Some(place) if read.front >= place => None,
        _ => Some(read.front),
    }
}
