//! The inodes of each part, by the rank that has them now.
ghost use Rattle.std.specs.Prelude.{◌≡◌, ◌<◌, ◌≤◌, ◌+◌, ◌*◌, ◌^◌, ℕ, length, slice_index, IfOk};
ghost use Rattle.plan_checker.specs.Costs.{part_total, AreRows, AreSums};

use mds_types::ProblemRow;
use std::alloc::{AllocError, Global};

/// The inodes of each part's rows by the rank that has them now, in the rows from `from` on to before
/// `to`, 64 cells a part: those that rank `r` has of part `p` are in cell `p * 64 + r`.
///
/// `part[i]` is the part of row i. The sums of neighbouring rows add up to those of all of them.
pub fn sums(
    alloc: Global,
    rows: &[ProblemRow],
    part: &[u32],
    count: u32,
    from: usize,
    to: usize,
) -> Result<Vec<u64>, AllocError>
    requires few { length rows.now ≤ 65536 }
    requires parts { count ≤ 64 }
    requires size { length part.now ≡ length rows.now }
    requires below { (i : ℕ) → i < length rows.now → slice_index part.now i < count }
    requires order { from ≤ to }
    requires inside { to ≤ length rows.now }
    ensures sums { IfOk result (λ sums. AreSums rows.now (slice_index part.now) count from to sums.items) }
    ensures rows { IfOk result (λ _. AreRows rows.now from to) }
{
    let mut sums = vec![in alloc; 0; count as usize * 64]?;
    for i in from..to {
        let row = &rows[i];
        let rank = usize::from(row.now.number());
        sums[part[i] as usize * 64 + rank] += u64::from(row.inodes);
    }
    Ok(sums)
}

/// The sum of a part's 64 cells.
pub fn total(sums: &[u64], part: usize) -> u64
    requires inside { part * 64 + 64 ≤ length sums.now }
    requires small { part_total sums.now part ≤ 2 ^ 48 }
    ensures { result ≡ part_total sums.now part }
{
    let mut total = 0;
    for rank in 0..64 {
        total += sums[part * 64 + rank];
    }
    total
}

/// Adds sums of other rows.
pub fn add_sums(total: &mut [u64], more: &[u64])
    requires size { length more.now ≡ length total.old }
    requires room { (j : ℕ) → j < length total.old → slice_index total.old j + slice_index more.now j < 2 ^ 64 }
    ensures size { length total.new ≡ length total.old }
    ensures each { (j : ℕ) → j < length total.old →
        slice_index total.new j ≡ slice_index total.old j + slice_index more.now j }
{
    for j in 0..total.len() {
        total[j] += more[j];
    }
}
