use cv_core::{By, EventEntry, Reply};

/// How many lanes have their number of lines and the entries of their receipts, up to the first that has not. Of each lane
/// it takes the numbers and the replies.
pub fn lanes_with_entries(
    receipts: &[Vec<(u64, Reply)>],
    lines: u64,
    entries: &[EventEntry],
) -> usize {
    for (lane, receipts) in receipts.iter().enumerate() {
        if !are_entries((lane % 256) as u8, receipts, lines, entries) {
            return lane;
        }
    }
    receipts.len()
}

/// Whether a lane has a receipt for each of this number of lines, whose numbers ascend, and the entry of each number is
/// that line with that reply.
fn are_entries(lane: u8, receipts: &[(u64, Reply)], lines: u64, entries: &[EventEntry]) -> bool {
    let mut last = 0;
    let mut line = 0;
    for (number, reply) in receipts {
        line = u64::wrapping_add(line, 1);
        let Some(entry) = entries.get(number.wrapping_sub(1) as usize) else {
            return false;
        };
        if *number <= last || entry.by != (By::Lane { lane, line }) || entry.reply != *reply {
            return false;
        }
        last = *number;
    }
    line == lines
}
