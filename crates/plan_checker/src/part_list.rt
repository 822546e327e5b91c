//! Whether rows are divided into connected parts, and how hot the hottest is.
ghost use Rattle.std.specs.Prelude.{◌≡◌, ◌<◌, ◌≤◌, ◌↔◌, ℕ, length, slice_index, if◌then◌else◌, IfOk, IfSome, IsSome};
ghost use Rattle.mds_types.specs.Certificate.{IsPartition};
ghost use Rattle.mds_types.specs.Division.{greatest_heat, joins_parent};
ghost use Rattle.mds_types.specs.Problem.{IsForest};

use mds_types::ProblemRow;
use std::alloc::{AllocError, Global};

/// How many parts begin at row i: 1 where it is not in its parent's part.
fn tops_at(rows: &[ProblemRow], part: &[u32], i: usize) -> u32
    requires forest { IsForest rows.now }
    requires size { length part.now ≡ length rows.now }
    requires inside { i < length rows.now }
    ensures { result ≡ (if joins_parent rows.now (slice_index part.now) i then 0 else 1) }
{
    if i > 0 && part[i] == part[rows[i].parent as usize] {
        0
    } else {
        1
    }
}

/// The heat of the hottest part where the rows are divided into `k` connected parts that each have a
/// row, and none where they aren't.
pub fn hottest_part(
    alloc: Global,
    rows: &[ProblemRow],
    part: &[u32],
    k: u32,
) -> Result<Option<u64>, AllocError>
    requires forest { IsForest rows.now }
    requires size { length part.now ≡ length rows.now }
    ensures parts { IfOk result (λ heat. IsSome heat ↔ IsPartition rows.now k (slice_index part.now)) }
    ensures heat { IfOk result (λ heat. IfSome heat (λ heat. heat ≡ greatest_heat rows.now k (slice_index part.now))) }
{
    if part.iter().any(|&p| p >= k) {
        return Ok(None);
    }
    let mut tops = vec![in alloc; 0; k as usize]?;
    let mut heats = vec![in alloc; 0; k as usize]?;
    for (i, row) in rows.iter().enumerate() {
        let p = part[i] as usize;
        tops[p] += tops_at(rows, part, i);
        heats[p] += row.heat;
    }
    if tops.iter().all(|&count| count == 1) {
        Ok(Some(heats.iter().copied().max().unwrap_or(0)))
    } else {
        Ok(None)
    }
}
