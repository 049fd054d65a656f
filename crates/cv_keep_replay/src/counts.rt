ghost use Rattle.std.specs.Prelude.{◌≡◌};
ghost use Rattle.cv_keep_replay.specs.Claims.{begins_claim, ends_claim};
ghost use Rattle.cv_keep_replay.specs.code.Counts.{generation_after, leaves_claims, next_generation};

use cv_core_records::{EventEntry, Reply};

/// Whether a layer is claimed after the events of a record, if none was before them: not as many claims end as begin.
pub fn leaves_claims(entries: &[EventEntry]) -> bool
    ensures { result ≡ leaves_claims entries.now }
{
    let begun = entries
        .iter()
        .filter(|entry| begins_claim(&entry.reply))
        .count();
    let ended = entries
        .iter()
        .filter(|entry| ends_claim(&entry.reply))
        .count();
    begun != ended
}

/// The generation after the events of a record.
pub fn generation_after(before: u64, entries: &[EventEntry]) -> u64
    ensures { result ≡ generation_after before entries.now }
{
    entries.iter().fold(before, |generation, entry| {
        next_generation(generation, &entry.reply)
    })
}

/// Whether a layer became claimed.
fn begins_claim(reply: &Reply) -> bool
    ensures { result ≡ begins_claim reply.now }
{
    matches!(reply, Reply::Claimed)
}

/// Whether a layer that was claimed is so no more.
fn ends_claim(reply: &Reply) -> bool
    ensures { result ≡ ends_claim reply.now }
{
    matches!(reply, Reply::Entered | Reply::Discarded | Reply::Requeued)
}

/// The generation after an event with this reply.
fn next_generation(before: u64, reply: &Reply) -> u64
    ensures { result ≡ next_generation before reply.now }
{
    match reply {
        Reply::Updated { generation, .. } => *generation,
        _ => before,
    }
}
