//! The parts of a cut, numbered by their top rows in rising order.

ghost use Rattle.std.specs.Prelude.{◌≡◌, ◌<◌, ◌≤◌, ◌+◌, true, false, length, slice_index, IfOk};
ghost use Rattle.mds_types.specs.CutTable.{is_cut_at};
ghost use Rattle.mds_types.specs.Problem.{IsForest, parent_at};
ghost use Rattle.residual_cut.specs.Labels.{IsLabelled, starts};

use mds_types::{ProblemRow, Row};
use std::alloc::{AllocError, Global};

/// The part of row `i`: a new one where the row is cut, else its parent's.
fn next_part(rows: &[ProblemRow], table: &[Row], part: &[u32], count: u32, i: usize) -> u32
    requires forest { IsForest rows.now }
    requires inside { i < length rows.now }
    requires size { length table.now ≡ length rows.now }
    requires before { length part.now ≡ i }
    ensures new { starts (is_cut_at table.now) i ≡ true → result ≡ count }
    ensures same { starts (is_cut_at table.now) i ≡ false → result ≡ slice_index part.now (parent_at rows.now i) }
{
    if i == 0 || table[i].cut {
        count
    } else {
        part[rows[i].parent as usize]
    }
}

/// The part of each row where rows are cut as in the table, and how many parts there are.
pub fn parts(
    alloc: Global,
    rows: &[ProblemRow],
    table: &[Row],
) -> Result<(Vec<u32>, u32), AllocError>
    requires forest { IsForest rows.now }
    requires size { length table.now ≡ length rows.now }
    ensures size { IfOk result (λ parts. length parts.0.items ≡ length rows.now) }
    ensures labelled { IfOk result (λ parts.
        IsLabelled rows.now (is_cut_at table.now) (slice_index parts.0.items) parts.1 (length rows.now)) }
{
    let mut part = Vec::with_capacity(alloc, rows.len())?;
    let mut count = 0;
    for i in 0..rows.len() {
        let next = next_part(rows, table, &part, count, i);
        part.push(next)?;
        count = count.max(next + 1);
    }
    Ok((part, count))
}
