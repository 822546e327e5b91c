//! What each part of a problem moves at each of its ranks.
ghost use Rattle.std.specs.Prelude.{◌≡◌, ◌≤◌, length, slice_index, IfOk};
ghost use Rattle.plan_checker.specs.Costs.{AreCosts, AreSums};
ghost use Rattle.rank_assign.specs.Assigned.{CanPlace};

use crate::chunks::{Labelled, sums_by};
use crate::table::Costs;
use mds_types::Problem;
use plan_checker::cells_of_sums;
use std::alloc::{AllocError, Global};
use std::thread::Threads;

/// How many rows a thread reads. A problem has no more, so none is started: up to there, that takes longer.
const CHUNK: usize = 65_536;

/// The inodes of each part by the rank that has them now, in the rows from `from` on to before `to`, 64
/// cells a part: those that rank `r` has of part `p` are in cell `p * 64 + r`. `part[i]` is the part of row i.
pub fn sums(
    alloc: Global,
    problem: &Problem,
    part: &[u32],
    count: u32,
    from: u32,
    to: u32,
) -> Result<Vec<u64>, AllocError>
    requires parts { CanPlace problem.now part.now count }
    requires order { from ≤ to }
    requires inside { to ≤ length problem.now.rows }
    ensures { IfOk result (λ sums. AreSums problem.now.rows (slice_index part.now) count from to sums.items) }
{
    plan_checker::sums(
        alloc,
        problem.rows(),
        part,
        count,
        from as usize,
        to as usize,
    )
}

/// What each part of a problem moves at each of its ranks, from the sums of chunks of `chunk` rows, which
/// threads share. `part[i]` is the part of row i.
pub fn costs_by<R: Threads + Sync>(
    rt: &R,
    alloc: Global,
    problem: &Problem,
    part: &[u32],
    count: u32,
    chunk: usize,
) -> Result<Costs, AllocError>
    requires parts { CanPlace problem.now part.now count }
    requires chunk { 1 ≤ chunk }
    ensures count { IfOk result (λ costs. costs.count ≡ count) }
    ensures ranks { IfOk result (λ costs. costs.ranks ≡ problem.now.ranks) }
    ensures cells { IfOk result (λ costs.
        AreCosts problem.now.rows (slice_index part.now) count problem.now.ranks costs.cells) }
{
    let ranks = problem.ranks();
    let rows = problem.rows();
    let sums = sums_by(rt, alloc, Labelled { rows, part, count }, chunk)?;
    let cells = cells_of_sums(alloc, &sums, count, ranks)?;
    Ok(Costs::from_cells(count, ranks, cells))
}

/// What each part of a problem moves at each of its ranks. `part[i]` is the part of row i.
pub fn costs<R: Threads + Sync>(
    rt: &R,
    alloc: Global,
    problem: &Problem,
    part: &[u32],
    count: u32,
) -> Result<Costs, AllocError>
    requires { CanPlace problem.now part.now count }
    ensures count { IfOk result (λ costs. costs.count ≡ count) }
    ensures ranks { IfOk result (λ costs. costs.ranks ≡ problem.now.ranks) }
    ensures cells { IfOk result (λ costs.
        AreCosts problem.now.rows (slice_index part.now) count problem.now.ranks costs.cells) }
{
    costs_by(rt, alloc, problem, part, count, CHUNK)
}
