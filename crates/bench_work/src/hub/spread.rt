use cv_base::NoMemory;
use std::alloc::Global;

/// How many nanoseconds a step of times has.
const STEP: u64 = 10;

/// How many steps are told apart. Longer times count as the last one.
const STEPS: usize = 20_000;

/// How often work took which time, in steps of ten nanoseconds up to a fifth of a millisecond, and the longest time.
#[derive(Debug, Drop)]
pub struct Spread {
    counts: Vec<u64>,
    count: u64,
    longest: u64,
}

impl Spread {
    /// No times yet.
    pub fn new(alloc: Global) -> Result<Spread, NoMemory> {
        let mut counts = Vec::new(alloc);
        counts.resize(STEPS, 0)?;
        Ok(Spread {
            counts,
            count: 0,
            longest: 0,
        })
    }

    /// Adds a time in nanoseconds.
    pub fn add(&mut self, time: u64) {
        let step = (time / STEP).min(STEPS as u64 - 1);
        if let Some(count) = self.counts.get_mut(step as usize) {
            *count = u64::saturating_add(*count, 1);
        }
        self.count = self.count.saturating_add(1);
        self.longest = self.longest.max(time);
    }

    /// Adds all times of another one.
    pub fn add_all(&mut self, other: &Spread) {
        for (count, more) in self.counts.iter_mut().zip(&other.counts) {
            *count = u64::saturating_add(*count, *more);
        }
        self.count = self.count.saturating_add(other.count);
        self.longest = self.longest.max(other.longest);
    }

    /// How many times there are.
    pub fn count(&self) -> u64 {
        self.count
    }

    /// The longest time.
    pub fn longest(&self) -> u64 {
        self.longest
    }

    /// The nanoseconds that this number of a hundred times do not exceed, rounded up to a step, or the last step.
    pub fn percentile(&self, percent: u64) -> u64 {
        let most = u128::from(self.count) * u128::from(percent);
        let mut sum = 0;
        let mut time = 0;
        for count in self.counts.iter() {
            sum = u64::saturating_add(sum, *count);
            time = u64::saturating_add(time, STEP);
            if u128::from(sum) * 100 >= most {
                return time;
            }
        }
        time
    }
}
