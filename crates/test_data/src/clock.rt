use std::time::{CpuClock, Duration};

/// The nanoseconds of a time, of which there are at most 2^64 - 1.
pub fn nanoseconds(time: Duration) -> u64 {
    time.as_secs()
        .saturating_mul(1_000_000_000)
        .saturating_add(u64::from(time.subsec_nanos()))
}

/// The nanoseconds of processor time that the process has taken, or 0 if the system does not say it.
pub fn processor_time<R: CpuClock>(rt: &R) -> u64 {
    match rt.process_cpu_time() {
        Ok(time) => nanoseconds(time),
        Err(_) => 0,
    }
}
