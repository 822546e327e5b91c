//! Solves problems: the best division into connected parts, and the best placing of the parts.
#![tactic(auto)]

mod fewer;
mod parts;
mod pieces;
mod present;

ghost use Rattle.std.specs.Prelude.{◌≡◌, ◌≤◌, ◌↔◌, ℕ, pos, true, length, slice_index_or};
ghost use Rattle.std.specs.Prelude.{All, IfOk, IfSome, IsSome, IsTrue};
ghost use Rattle.mds_types.specs.Certificate.{IsBest, IsCertified, IsCutCertified};
ghost use Rattle.mds_types.specs.Division.{IsLeast};
ghost use Rattle.mds_types.specs.Problem.{IsProblem};
ghost use Rattle.minmax_search.specs.Found.{IsFound};
ghost use Rattle.mds_types.specs.RankSet.{has_rank, rank_count};
ghost use Rattle.plan_checker.specs.Present.{IsPresentBest, IsUnmoved, KeepsBest};
ghost use Rattle.planner.specs.Present.{IsBestDivision, IsStaying};
ghost use Rattle.planner.specs.Fewer.{IsNoWorse};

use arrayvec::ArrayVec;
use fewer::{Division, Limits, fewer};
use mds_types::{CutProof, DualProof, Plan, Problem, Rank};
use minmax_search::{BestCut, search};
use plan_checker::hottest_part;
use present::{Present, are_usable, ranks_now};
use rank_assign::{Assigned, assign, costs};
use std::alloc::{AllocError, Global};
use std::thread::Threads;

/// A division with the least greatest heat, and the proof that none has a smaller one.
#[derive(Drop)]
struct BestDivision {
    /// `part[i]` is the part of row i.
    part: Vec<u32>,
    /// How many parts there are.
    count: u32,
    /// The least greatest heat, in accesses.
    greatest: u64,
    /// Why no division into as many parts as there are ranks has a smaller one.
    proof: CutProof,
}

/// Whether the rows are divided into connected parts, no more than there are ranks, with this greatest heat.
fn is_best_division(
    alloc: Global,
    problem: &Problem,
    part: &[u32],
    count: u32,
    greatest: u64,
) -> Result<bool, AllocError>
    ensures { IfOk result (λ yes. IsTrue yes ↔ IsBestDivision problem.now part.now count greatest) }
{
    let rows = problem.rows();
    if count > u32::from(problem.ranks().len()) || part.len() != rows.len() {
        return Ok(false);
    }
    Ok(hottest_part(alloc, rows, part, count)? == Some(greatest))
}

/// Whether the parts of the present placement are a division with this greatest heat, at ranks of the set.
fn is_kept(
    alloc: Global,
    problem: &Problem,
    now: &Present,
    greatest: u64,
) -> Result<bool, AllocError>
    requires { length now.now.rank.items ≤ 65536 }
    ensures { IfOk result (λ yes. IsTrue yes ↔
        (IsBestDivision problem.now now.now.part.items (length now.now.rank.items) greatest
        × All (λ r. has_rank problem.now.ranks r ≡ true) now.now.rank.items)) }
{
    let count = now.rank.len() as u32;
    Ok(
        is_best_division(alloc, problem, &now.part, count, greatest)?
            && are_usable(problem.ranks(), &now.rank),
    )
}

/// The parts of the present placement, where they are a division with the least greatest heat, at ranks of the set.
fn kept(alloc: Global, problem: &Problem, greatest: u64) -> Result<Option<Present>, AllocError>
    requires { IsLeast problem.now.rows (rank_count problem.now.ranks) greatest }
    ensures kept { IfOk result (λ now. IfSome now (IsStaying problem.now greatest)) }
    ensures best { IsPresentBest problem.now → IfOk result (λ now. IsSome now) }
{
    let now = ranks_now(alloc, problem.rows())?;
    if is_kept(alloc, problem, &now, greatest)? {
        Ok(Some(now))
    } else {
        Ok(None)
    }
}

/// Prices of 0 for `parts` parts and `ranks` ranks.
fn no_prices(alloc: Global, parts: usize, ranks: usize) -> Result<DualProof, AllocError>
    requires parts { parts ≤ 64 }
    requires ranks { ranks ≤ 64 }
    ensures parts { IfOk result (λ dual. length dual.part_price ≡ parts) }
    ensures ranks { IfOk result (λ dual. length dual.rank_price ≡ ranks) }
    ensures part { IfOk result (λ dual. (p : ℕ) → slice_index_or dual.part_price p (pos 0) ≡ pos 0) }
    ensures rank { IfOk result (λ dual. (r : ℕ) → slice_index_or dual.rank_price r (pos 0) ≡ pos 0) }
{
    Ok(DualProof {
        part_price: vec![in alloc; 0; parts]?,
        rank_price: vec![in alloc; 0; ranks]?,
    })
}

/// The same ranks, in a plan's form.
fn listed(ranks: &[Rank]) -> ArrayVec<Rank, 64>
    requires { length ranks.now ≤ 64 }
    ensures { result.items ≡ ranks.now }
{
    let mut rank = ArrayVec::new();
    rank.try_extend_from_slice(ranks).unwrap();
    rank
}

/// What holds of each problem.
fn sound(problem: &Problem)
    ensures { IsProblem problem.now }
{
    let _rows = problem.rows();
    let _ranks = problem.ranks();
}

/// The plan that leaves each row at the rank that has it.
fn still(alloc: Global, problem: &Problem, now: Present, found: BestCut) -> Result<Plan, AllocError>
    requires kept { IsStaying problem.now found.greatest now }
    requires found { IsFound problem.now.rows (rank_count problem.now.ranks) found }
    ensures certified { IfOk result (IsCertified problem.now) }
    ensures best { IfOk result (IsBest problem.now) }
    ensures still { IfOk result (IsUnmoved problem.now) }
    ensures fewer { IfOk result (IsNoWorse problem.now) }
{
    sound(problem);
    let ranks = usize::from(problem.ranks().len());
    let dual = no_prices(alloc, now.rank.len(), ranks)?;
    let rank = listed(&now.rank);
    Ok(Plan {
        part: now.part,
        rank,
        greatest: found.greatest,
        moved: 0,
        cut: found.proof,
        dual,
    })
}

/// The plan with these parts that moves the fewest inodes.
fn placed<R: Threads + Sync>(
    rt: &R,
    alloc: Global,
    problem: &Problem,
    best: BestDivision,
) -> Result<Plan, AllocError>
    requires cut { IsCutCertified problem.now.rows (rank_count problem.now.ranks)
        best.part.items best.count best.greatest best.proof }
    ensures certified { IfOk result (IsCertified problem.now) }
    ensures part { IfOk result (λ plan. plan.part ≡ best.part.items) }
{
    let costs = costs(rt, alloc, problem, &best.part, best.count)?;
    let Assigned {
        ranks: rank,
        moved,
        proof: dual,
    } = assign(alloc, &costs)?;
    Ok(Plan {
        part: best.part,
        rank,
        greatest: best.greatest,
        moved,
        cut: best.proof,
        dual,
    })
}

/// The division, if it is one with this greatest heat.
fn judged(
    alloc: Global,
    problem: &Problem,
    other: Division,
    greatest: u64,
) -> Result<Option<Division>, AllocError>
    ensures { IfOk result (λ other. IfSome other (λ other.
        IsBestDivision problem.now other.part.items other.count greatest)) }
{
    if is_best_division(alloc, problem, &other.part, other.count, greatest)? {
        Ok(Some(other))
    } else {
        Ok(None)
    }
}

/// The plan, or one with this division where that moves fewer inodes.
fn cheaper<R: Threads + Sync>(
    rt: &R,
    alloc: Global,
    problem: &Problem,
    plan: Plan,
    other: Division,
) -> Result<Plan, AllocError>
    requires certified { IsCertified problem.now plan }
    requires best { IsBestDivision problem.now other.part.items other.count plan.greatest }
    ensures certified { IfOk result (IsCertified problem.now) }
    ensures fewer { IfOk result (λ other. other.moved ≤ plan.moved) }
{
    let costs = costs(rt, alloc, problem, &other.part, other.count)?;
    let Assigned {
        ranks: rank,
        moved,
        proof: dual,
    } = assign(alloc, &costs)?;
    if moved >= plan.moved {
        return Ok(plan);
    }
    Ok(Plan {
        part: other.part,
        rank,
        greatest: plan.greatest,
        moved,
        cut: plan.cut,
        dual,
    })
}

/// The plan, or one that moves fewer inodes, if such a one is found.
fn improved<R: Threads + Sync>(
    rt: &R,
    alloc: Global,
    problem: &Problem,
    plan: Plan,
) -> Result<Plan, AllocError>
    requires { IsCertified problem.now plan }
    ensures certified { IfOk result (IsCertified problem.now) }
    ensures fewer { IfOk result (λ other. other.moved ≤ plan.moved) }
{
    let limits = Limits {
        bound: plan.greatest,
        ranks: problem.ranks(),
    };
    let Some(other) = fewer(alloc, problem.rows(), &plan.part, limits)? else {
        return Ok(plan);
    };
    match judged(alloc, problem, other, plan.greatest)? {
        Some(other) => cheaper(rt, alloc, problem, plan, other),
        None => Ok(plan),
    }
}

/// The plan with the parts that were found, or one that moves fewer inodes, if such a one is found.
fn from_cut<R: Threads + Sync>(
    rt: &R,
    alloc: Global,
    problem: &Problem,
    found: BestCut,
) -> Result<Plan, AllocError>
    requires { IsFound problem.now.rows (rank_count problem.now.ranks) found }
    ensures certified { IfOk result (IsCertified problem.now) }
    ensures best { IfOk result (IsBest problem.now) }
    ensures fewer { IfOk result (IsNoWorse problem.now) }
{
    sound(problem);
    let BestCut {
        cut,
        greatest,
        proof,
        passes: _,
    } = found;
    let best = BestDivision {
        part: cut.part,
        count: cut.count,
        greatest,
        proof,
    };
    let plan = placed(rt, alloc, problem, best)?;
    let better = improved(rt, alloc, problem, plan)?;
    Ok(better)
}

/// A plan that is best for the problem, with the proofs that show it. Where the present placement is itself best, it
/// is that, and moves nothing. Otherwise it moves no more inodes than any placing of the parts that `search` finds:
/// other divisions are tried, and one that moves fewer is taken if it is as cool. Where all rows are at one rank
/// now, it is taken only if it moves more than a 32nd fewer.
///
/// It fails only when it is out of memory. The checker, `plan_checker::check`, says yes exactly where a plan
/// is certified, so it accepts this one.
pub fn solve<R: Threads + Sync>(
    rt: &R,
    alloc: Global,
    problem: &Problem,
) -> Result<Plan, AllocError>
    ensures certified { IfOk result (IsCertified problem.now) }
    ensures best { IfOk result (IsBest problem.now) }
    ensures keeps { IfOk result (KeepsBest problem.now) }
    ensures fewer { IfOk result (IsNoWorse problem.now) }
{
    let found = search(problem, alloc)?;
    match kept(alloc, problem, found.greatest)? {
        Some(now) => still(alloc, problem, now, found),
        None => from_cut(rt, alloc, problem, found),
    }
}
