use cv_base::NoMemory;
use test_plain::Lines;

/// How often a name came.
#[derive(Clone, Copy)]
pub struct Named {
    name: &'static str,
    times: u64,
}

/// Counts a name.
pub fn count(counts: &mut Vec<Named>, name: &'static str) -> Result<(), NoMemory> {
    for count in counts.iter_mut() {
        if count.name == name {
            count.times = count.times.saturating_add(1);
            return Ok(());
        }
    }
    counts.push(Named { name, times: 1 })?;
    Ok(())
}

/// Writes the counts, in the order in which the names came first.
pub fn show_counts(out: &mut Lines, counts: &[Named]) {
    for count in counts {
        out.word(count.name);
        out.number(": ", count.times);
        out.word("\n");
    }
}
