//! The table of costs, from one pass over the rows.
ghost use Rattle.std.specs.Prelude.{◌≡◌, ◌≢◌, ◌<◌, ◌≤◌, ◌+◌, ◌-◌, ◌*◌, ◌^◌, ℕ, true};
ghost use Rattle.std.specs.Prelude.{length, slice_index, vec_len, All, IfOk};
ghost use Rattle.mds_types.specs.RankSet.{has_rank, rank_count};
ghost use Rattle.plan_checker.specs.Costs.{cell_at, part_total, AreCells, AreCosts};

use crate::chosen::has_number;
use crate::inodes::{sums, total};
use mds_types::{ProblemRow, RankSet};
use std::alloc::{AllocError, Global};

/// Writes the costs of a part: the part's inodes, less those that the rank has now.
fn fill_part(cells: &mut [u64], sums: &[u64], part: usize, total: u64, ranks: RankSet)
    requires inside { part * 64 + 64 ≤ length sums.now }
    requires row { part * rank_count ranks + rank_count ranks ≤ length cells.old }
    requires own { (r : ℕ) → r < 64 → slice_index sums.now (part * 64 + r) ≤ total }
    requires few { total ≤ 2 ^ 48 }
    requires small { All (λ cell. cell ≤ 2 ^ 48) cells.old }
    ensures here { (r : ℕ) → has_rank ranks r ≡ true →
        cell_at ranks cells.new part r ≡ total - slice_index sums.now (part * 64 + r) }
    ensures other { (p r : ℕ) → p ≢ part → has_rank ranks r ≡ true →
        cell_at ranks cells.new p r ≡ cell_at ranks cells.old p r }
    ensures small { All (λ cell. cell ≤ 2 ^ 48) cells.new }
{
    let mut place = part * usize::from(ranks.len());
    for number in 0..64 {
        if has_number(ranks, number) {
            cells[place] = total - sums[part * 64 + usize::from(number)];
            place += 1;
        }
    }
}

/// Writes the costs of all parts.
fn fill(cells: &mut [u64], sums: &[u64], count: usize, ranks: RankSet)
    requires size { length cells.old ≡ count * rank_count ranks }
    requires sums { length sums.now ≡ count * 64 }
    requires few { (p : ℕ) → p < count → part_total sums.now p ≤ 2 ^ 48 }
    requires small { All (λ cell. cell ≤ 2 ^ 48) cells.old }
    ensures cells { (p r : ℕ) → p < count → has_rank ranks r ≡ true →
        cell_at ranks cells.new p r + slice_index sums.now (p * 64 + r) ≡ part_total sums.now p }
    ensures small { All (λ cell. cell ≤ 2 ^ 48) cells.new }
{
    for p in 0..count {
        fill_part(cells, sums, p, total(sums, p), ranks);
    }
}

/// The table of costs from the sums of all rows, part by part with the ranks rising.
pub fn cells_of_sums(
    alloc: Global,
    sums: &[u64],
    count: u32,
    ranks: RankSet,
) -> Result<Vec<u64>, AllocError>
    requires parts { count ≤ 64 }
    requires size { length sums.now ≡ count * 64 }
    requires few { (p : ℕ) → p < count → part_total sums.now p ≤ 2 ^ 48 }
    ensures { IfOk result (λ cells. AreCells sums.now count ranks cells.items) }
{
    let mut cells = vec![in alloc; 0; count as usize * usize::from(ranks.len())]?;
    fill(&mut cells, sums, count as usize, ranks);
    Ok(cells)
}

/// What each part moves at each rank of the set, in inodes, part by part with the ranks rising.
///
/// `part[i]` is the part of row i. The rows are read once.
pub fn costs(
    alloc: Global,
    rows: &[ProblemRow],
    part: &[u32],
    count: u32,
    ranks: RankSet,
) -> Result<Vec<u64>, AllocError>
    requires few { length rows.now ≤ 65536 }
    requires parts { count ≤ 64 }
    requires size { length part.now ≡ length rows.now }
    requires below { (i : ℕ) → i < length rows.now → slice_index part.now i < count }
    ensures { IfOk result (λ cells. AreCosts rows.now (slice_index part.now) count ranks cells.items) }
{
    let sums = sums(alloc, rows, part, count, 0, rows.len())?;
    cells_of_sums(alloc, &sums, count, ranks)
}
