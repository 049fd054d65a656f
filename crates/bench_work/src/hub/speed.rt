use std::time::{Clock, CpuClock, Instant};
use test_data::{nanoseconds, processor_time};

/// Work of a kind that some threads did concurrently: how often all of them did it, and the nanoseconds that passed and that the
/// processors took.
#[derive(Clone, Copy, Debug)]
pub struct Speed {
    pub name: &'static str,
    pub threads: usize,
    pub count: u64,
    pub passed: u64,
    pub taken: u64,
}

impl Speed {
    /// How often it was done in a second, and 0 if no time passed.
    pub fn each_second(&self) -> u64 {
        let count = self.count.saturating_mul(1_000_000_000);
        count.checked_div(self.passed).unwrap_or(0)
    }

    /// The nanoseconds of processor time for one, and 0 if there was none.
    pub fn each(&self) -> u64 {
        self.taken.checked_div(self.count).unwrap_or(0)
    }
}

/// When work began.
#[derive(Clone, Copy, Debug)]
pub struct Watch {
    begun: Option<Instant>,
    taken: u64,
}

impl Watch {
    /// Work begins now.
    pub fn start<R: Clock + CpuClock>(rt: &R) -> Watch {
        Watch {
            begun: Instant::now(rt).ok(),
            taken: processor_time(rt),
        }
    }

    /// The speed of work that ends now.
    pub fn stop<R: Clock + CpuClock>(
        &self,
        rt: &R,
        name: &'static str,
        threads: usize,
        count: u64,
    ) -> Speed {
        Speed {
            name,
            threads,
            count,
            passed: passed(rt, self.begun),
            taken: processor_time(rt).saturating_sub(self.taken),
        }
    }
}

/// The nanoseconds since a time, or 0 if the system does not say it.
pub fn passed<R: Clock>(rt: &R, begun: Option<Instant>) -> u64 {
    let Some(begun) = begun else {
        return 0;
    };
    match begun.elapsed(rt) {
        Ok(time) => nanoseconds(time),
        Err(_) => 0,
    }
}
