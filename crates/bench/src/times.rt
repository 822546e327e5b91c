//! Times of a step, and the directories that are asked for.

use std::alloc::{AllocError, Global};
use std::time::{CpuClock, Duration};

/// How often each piece of work is timed. The least time counts.
pub const RUNS: u32 = 7;

/// How many directories a list of keys has.
const KEYS: u32 = 1 << 14;

/// The processor time of this thread, or nothing where the system doesn't report it.
pub fn now<C: CpuClock>(rt: &C) -> Duration {
    rt.thread_cpu_time().unwrap_or(Duration::ZERO)
}

/// Nanoseconds.
pub fn nanos(time: Duration) -> u64 {
    u64::try_from(time.as_nanos()).unwrap_or(u64::MAX)
}

/// Picoseconds for each of `steps` steps, since an earlier reading of the clock.
pub fn per_step<C: CpuClock>(rt: &C, start: Duration, steps: usize) -> u64 {
    nanos(now(rt).saturating_sub(start)).saturating_mul(1000) / (steps as u64).max(1)
}

/// Directories below 65,536 in no order, the same for the same seed.
pub fn keys(alloc: Global, seed: u64) -> Result<Vec<u32>, AllocError> {
    let mut keys = Vec::new(alloc);
    let mut state = seed | 1;
    for _ in 0..KEYS {
        state ^= state << 13;
        state ^= state >> 7;
        state ^= state << 17;
        keys.push((state % 65536) as u32)?;
    }
    Ok(keys)
}

/// The greatest of the times.
pub fn slowest(times: &[u64]) -> u64 {
    let mut slowest = 0;
    for time in times {
        slowest = (*time).max(slowest);
    }
    slowest
}
