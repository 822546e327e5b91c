//! The proof that goes with a least greatest heat.

ghost use Rattle.std.specs.Prelude.{◌≡◌, ◌≢◌, ◌<◌, ◌+◌, ◌-◌, ◌^◌, ℕ, length, IfOk, IfSome, IfNone};
ghost use Rattle.mds_types.specs.Certificate.{IsCutProof};
ghost use Rattle.mds_types.specs.Division.{IsLowerBound};
ghost use Rattle.mds_types.specs.Problem.{IsForest, heat_at};
ghost use Rattle.minmax_search.specs.Found.{IsChosen, IsRowOf, proof_passes};

use mds_types::{CutProof, ProblemRow};
use residual_cut::{Walk, table_linked};
use std::alloc::{AllocError, Global};

/// The least row of this heat.
fn row_of(rows: &[ProblemRow], heat: u64) -> Option<u32>
    requires { IsForest rows.now }
    ensures some { IfSome result (IsRowOf rows.now heat) }
    ensures none { IfNone result ((i : ℕ) → i < length rows.now → heat_at rows.now i ≢ heat) }
{
    for (i, row) in rows.iter().enumerate() {
        if row.heat == heat {
            return Some(i as u32);
        }
    }
    None
}

/// Why no division has a smaller greatest heat than the bound. The walk for a table is counted in `passes`.
pub fn prove_least(
    alloc: Global,
    of: Walk<'_>,
    ranks: u32,
    passes: &mut u32,
) -> Result<CutProof, AllocError>
    requires count { passes.old < 2 ^ 32 - 1 }
    requires lower { IsLowerBound of.rows.now ranks of.bound }
    ensures proven { IfOk result (IsCutProof of.entry.rows.now ranks of.entry.bound) }
    ensures chosen { IfOk result (IsChosen of.entry.rows.now of.entry.bound) }
    ensures passes { IfOk result (λ proof. passes.new ≡ passes.old + proof_passes proof) }
{
    if of.bound == 0 {
        return Ok(CutProof::Zero);
    }
    if let Some(row) = row_of(of.rows, of.bound) {
        return Ok(CutProof::Heavy(row));
    }
    let below = Walk {
        rows: of.rows,
        links: of.links,
        bound: of.bound - 1,
    };
    Ok(CutProof::Table(table_linked(alloc, below, passes)?))
}
