//! The parts of a plan as directories: from the labels of rows to tops, ranks and sums.
ghost use Rattle.std.specs.Prelude.{◌≡◌, ◌+◌, ◌*◌, ◌^◌, ◌<◌, ◌≤◌, ℕ, length, slice_index, slice_index_or, IfOk};
ghost use Rattle.mds_types.specs.Certificate.{plan_label};
ghost use Rattle.mds_types.specs.Problem.{IsForest};
ghost use Rattle.tree_parts.specs.PlanParts.{is_part_top, nothing, plan_parts, total_of};

use mds_types::{Dir, Plan, Problem, ProblemRow, Rank};
use std::alloc::{AllocError, Global};

/// A part of a plan: its top, the rank that it goes to, and the heat, in accesses, and the inodes of
/// its directories together.
#[derive(Clone, Copy, Debug, PartialEq, Eq)]
pub struct PlanPart {
    pub top: Dir,
    pub rank: Rank,
    pub heat: u64,
    pub inodes: u64,
}

/// What was counted to a part so far.
#[derive(Clone, Copy)]
pub struct Total {
    pub heat: u64,
    pub inodes: u64,
}

impl Total {
    /// One more row.
    fn with(self, row: ProblemRow) -> Total
        requires heat { self.heat + row.heat < 2 ^ 64 }
        requires inodes { self.inodes < 2 ^ 63 }
        ensures sums { result ≡ record { heat = self.heat + row.heat; inodes = self.inodes + row.inodes } }
        ensures few { result.inodes ≤ self.inodes + 2 ^ 32 }
    {
        Total {
            heat: self.heat + row.heat,
            inodes: self.inodes + u64::from(row.inodes),
        }
    }
}

/// What the rows of each part have together, in one pass over the rows.
fn totals(
    alloc: Global,
    rows: &[ProblemRow],
    part: &[u32],
    count: usize,
) -> Result<Vec<Total>, AllocError>
    requires forest { IsForest rows.now }
    requires size { length part.now ≡ length rows.now }
    requires labels { (i : ℕ) → i < length rows.now → slice_index part.now i < count }
    ensures size { IfOk result (λ totals. length totals.items ≡ count) }
    ensures totals { IfOk result (λ totals. (p : ℕ) → p < count
        → slice_index_or totals.items p nothing ≡ total_of rows.now (slice_index part.now) (length rows.now) p) }
{
    let nothing = Total { heat: 0, inodes: 0 };
    let mut totals = vec![in alloc; nothing; count]?;
    for (i, row) in rows.iter().enumerate() {
        let label = part[i] as usize;
        let before = totals[label];
        totals[label] = before.with(*row);
    }
    Ok(totals)
}

/// Whether a row is the top of its part.
fn is_top(rows: &[ProblemRow], part: &[u32], i: usize) -> bool
    requires forest { IsForest rows.now }
    requires size { length part.now ≡ length rows.now }
    requires inside { i < length rows.now }
    ensures { result ≡ is_part_top rows.now (slice_index part.now) i }
{
    i == 0 || part[i] != part[rows[i].parent as usize]
}

/// The parts of a plan, by the rising numbers of their tops. `dirs[i]` is the directory of row i.
///
/// A part's top is the root or a directory that is in another part than its parent. In a certified
/// plan each part has one top. (Kundu and Misra 1977, on dividing a tree by cutting edges.)
pub fn parts(
    alloc: Global,
    problem: &Problem,
    dirs: &[Dir],
    plan: &Plan,
) -> Result<Vec<PlanPart>, AllocError>
    requires dirs { length dirs.now ≡ length problem.now.rows }
    requires size { length plan.now.part ≡ length problem.now.rows }
    requires labels { (i : ℕ) → i < length problem.now.rows → plan_label plan.now i < length plan.now.rank }
    ensures { IfOk result (λ parts. parts.items ≡ plan_parts problem.now.rows dirs.now plan.now) }
{
    let rows = problem.rows();
    let part = plan.part.as_slice();
    let rank = plan.rank.as_slice();
    let totals = totals(alloc, rows, part, rank.len())?;
    let mut parts = Vec::new(alloc);
    for i in 0..rows.len() {
        if is_top(rows, part, i) {
            let label = part[i] as usize;
            let total = totals[label];
            parts.push(PlanPart {
                top: dirs[i],
                rank: rank[label],
                heat: total.heat,
                inodes: total.inodes,
            })?;
        }
    }
    Ok(parts)
}
