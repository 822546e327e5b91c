//! The judges of cuts and of plans.
//!
//! They trust nobody: labels out of range, lists of any length and numbers up to the limits of their
//! types are answered no.
ghost use Rattle.std.specs.Prelude.{◌≡◌, ◌≤◌, ◌*◌, ◌^◌, ◌↔◌, All, length, slice_index, IfOk, IsTrue};
ghost use Rattle.plan_checker.specs.Costs.{cell_at, chosen_cost};
ghost use Rattle.plan_checker.specs.CostPrices.{ArePrices};
ghost use Rattle.mds_types.specs.Certificate.{AreRanks, IsBest, IsCertified, IsCutCertified, IsCutProof};
ghost use Rattle.mds_types.specs.Division.{IsLeast};
ghost use Rattle.mds_types.specs.Problem.{IsForest};
ghost use Rattle.mds_types.specs.RankSet.{rank_count};

use crate::cut_table::is_cut_table;
use crate::part_list::hottest_part;
use crate::prices::{are_prices, are_ranks};
use crate::{chosen_sum, costs};
use mds_types::{CutProof, DualProof, Plan, Problem, ProblemRow, Rank, RankSet};
use std::alloc::{AllocError, Global};

/// Whether the proof shows that no division into at most `ranks` parts has a smaller greatest heat.
fn is_cut_proof(
    alloc: Global,
    rows: &[ProblemRow],
    ranks: u8,
    greatest: u64,
    proof: &CutProof,
) -> Result<bool, AllocError>
    requires { IsForest rows.now }
    ensures { IfOk result (λ yes. IsTrue yes ↔ IsCutProof rows.now ranks greatest proof.now) }
{
    match proof {
        CutProof::Zero => Ok(greatest == 0),
        CutProof::Heavy(row) => Ok(
            greatest > 0
                && rows
                    .get(*row as usize)
                    .is_some_and(|row| row.heat == greatest),
        ),
        CutProof::Table(table) => Ok(
            greatest > 0
                && is_cut_table(alloc, rows, table.rows(), greatest - 1)?
                && table.rows().first().map_or(0, |root| root.cuts) >= u32::from(ranks),
        ),
    }
}

/// Whether the rows are divided into `k` connected parts, no more than there are ranks, with this greatest heat, and
/// the proof shows that no division into as many parts as there are ranks has a smaller one.
pub fn check_cut(
    alloc: Global,
    problem: &Problem,
    part: &[u32],
    k: u32,
    greatest: u64,
    proof: &CutProof,
) -> Result<bool, AllocError>
    ensures exact { IfOk result (λ yes. IsTrue yes ↔
        IsCutCertified problem.now.rows (rank_count problem.now.ranks) part.now k greatest proof.now) }
    ensures least { IfOk result (λ yes. IsTrue yes → IsLeast problem.now.rows (rank_count problem.now.ranks) greatest) }
{
    let rows = problem.rows();
    let ranks = problem.ranks().len();
    if k > u32::from(ranks) || part.len() != rows.len() {
        return Ok(false);
    }
    Ok(
        hottest_part(alloc, rows, part, k)? == Some(greatest)
            && is_cut_proof(alloc, rows, ranks, greatest, proof)?,
    )
}

/// Whether the placing moves `moved` inodes, and the prices show that none of the same parts moves
/// fewer. `cells` are what each part moves at each rank of the set.
fn placing_holds(cells: &[u64], ranks: RankSet, rank: &[Rank], moved: u64, dual: &DualProof) -> bool
    requires parts { length rank.now ≤ 64 }
    requires cells { length cells.now ≡ length rank.now * rank_count ranks }
    requires small { All (λ cell. cell ≤ 2 ^ 48) cells.now }
    requires ranks { AreRanks ranks (length rank.now) (slice_index rank.now) }
    ensures { IsTrue result ↔ ((chosen_cost ranks cells.now (length rank.now) (slice_index rank.now) ≡ moved)
        × ArePrices ranks (length rank.now) (cell_at ranks cells.now) (slice_index rank.now) dual.now) }
{
    chosen_sum(cells, ranks, rank) == moved && are_prices(cells, ranks, rank, dual)
}

/// Whether the plan is one for the problem and its proofs hold, which makes the plan best.
pub fn check(alloc: Global, problem: &Problem, plan: &Plan) -> Result<bool, AllocError>
    ensures exact { IfOk result (λ yes. IsTrue yes ↔ IsCertified problem.now plan.now) }
    ensures best { IfOk result (λ yes. IsTrue yes → IsBest problem.now plan.now) }
{
    let ranks = problem.ranks();
    let part = plan.part.as_slice();
    let rank = plan.rank.as_slice();
    if !are_ranks(ranks, rank) {
        return Ok(false);
    }
    let count = rank.len() as u32;
    if !check_cut(alloc, problem, part, count, plan.greatest, &plan.cut)? {
        return Ok(false);
    }
    let cells = costs(alloc, problem.rows(), part, count, ranks)?;
    Ok(placing_holds(&cells, ranks, rank, plan.moved, &plan.dual))
}
