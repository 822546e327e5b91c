//! Random small problems that are the same in each run.
ghost use Rattle.std.specs.Prelude.{◌≤◌, ◌<◌, ◌≡◌, ◌^◌, IfOk, length};

use mds_types::{ProblemRow, Rank};
use std::alloc::{AllocError, Global};

/// A sequence of random numbers: SplitMix64 (G. Steele, D. Lea, C. Flood, "Fast splittable
/// pseudorandom number generators", OOPSLA 2014).
#[derive(Clone, Copy, Debug)]
pub struct Random {
    state: u64,
}

impl Random {
    /// The sequence of this seed.
    pub fn new(seed: u64) -> Random {
        Random { state: seed }
    }

    /// The next number.
    pub fn next(&mut self) -> u64 {
        self.state = self.state.wrapping_add(0x9E37_79B9_7F4A_7C15);
        let mixed = (self.state ^ (self.state >> 30)).wrapping_mul(0xBF58_476D_1CE4_E5B9);
        let mixed = (mixed ^ (mixed >> 27)).wrapping_mul(0x94D0_49BB_1331_11EB);
        mixed ^ (mixed >> 31)
    }

    /// A number below the limit.
    pub fn below(&mut self, limit: u64) -> u64
        requires { 0 < limit }
        ensures { result < limit }
    {
        self.next() % limit
    }

    /// `count` rows of a tree, each cooler than `heat_limit`.
    pub fn rows(
        &mut self,
        alloc: Global,
        count: u32,
        heat_limit: u64,
    ) -> Result<Vec<ProblemRow>, AllocError>
        requires { 0 < heat_limit }
        ensures { IfOk result (λ rows. length rows.items ≡ count) }
    {
        let mut rows = Vec::new(alloc);
        for i in 0..count {
            let parent = self.below(u64::from(i.max(1))) as u32;
            rows.push(ProblemRow {
                parent,
                heat: self.below(heat_limit),
                inodes: self.below(100) as u32,
                now: Rank::new(self.below(64) as u8).unwrap_or_default(),
            })?;
        }
        Ok(rows)
    }
}
