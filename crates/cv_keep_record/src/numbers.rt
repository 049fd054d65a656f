ghost use Rattle.std.specs.Prelude.{◌≡◌, ◌↔◌, ◌+◌, true};
ghost use Rattle.cv_keep_record.specs.Record.{AreNumberedFrom};

use crate::event::KeptEvent;

/// Whether the events of a record go on after this many.
pub fn are_numbered(count: u64, events: &[KeptEvent]) -> bool
    ensures { (result ≡ true) ↔ AreNumberedFrom count events.now }
{
    let mut last = count;
    for event in events {
        if !is_next(last, event.number) {
            return false;
        }
        last = event.number;
    }
    true
}

/// Whether a number is the one after the last.
fn is_next(last: u64, number: u64) -> bool
    ensures { (result ≡ true) ↔ (number ≡ last + 1) }
{
    last < number && number - last == 1
}
