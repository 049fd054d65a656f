use cv_base::NoMemory;
use std::time::CpuClock;
use test_data::processor_time;

/// How often work of a kind was done, how many rows came of it, and the nanoseconds of processor time that it took in all.
#[derive(Clone, Copy, Debug)]
pub struct Cost {
    pub name: &'static str,
    pub count: u64,
    pub rows: u64,
    pub nanoseconds: u64,
}

impl Cost {
    /// The nanoseconds for one, and 0 if there was none.
    pub fn each(&self) -> u64 {
        self.nanoseconds.checked_div(self.count).unwrap_or(0)
    }
}

/// Adds work of a kind that began at a time, ends now, and made this number of rows.
pub fn add<R: CpuClock>(
    rt: &R,
    kinds: &mut Vec<Cost>,
    name: &'static str,
    begun: u64,
    rows: u64,
) -> Result<(), NoMemory> {
    let nanoseconds = processor_time(rt).saturating_sub(begun);
    for kind in kinds.iter_mut() {
        if kind.name == name {
            kind.count = kind.count.saturating_add(1);
            kind.rows = kind.rows.saturating_add(rows);
            kind.nanoseconds = kind.nanoseconds.saturating_add(nanoseconds);
            return Ok(());
        }
    }
    kinds.push(Cost {
        name,
        count: 1,
        rows,
        nanoseconds,
    })?;
    Ok(())
}
