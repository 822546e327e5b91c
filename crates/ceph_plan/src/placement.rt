//! A rank for each directory, as a plan: its parts are the largest connected sets of directories that go to one rank.
ghost use Rattle.std.specs.Prelude.{◌≡◌, ◌<◌, ℕ, true, false, length, slice_index, IfOk};
ghost use Rattle.mds_types.specs.Problem.{IsForest, now_at, parent_at};
ghost use Rattle.mds_types.specs.RankSet.{has_rank};
ghost use Rattle.residual_cut.specs.Labels.{starts};
ghost use Rattle.ceph_plan.specs.Placements.{AreAsWanted, AreGoals, AreRegions, IsPlacement};
ghost use Rattle.ceph_plan.specs.Placements.{IsPlacementAt, is_border};

use crate::bound::most;
use crate::loads::worst_loads;
use crate::packing::{Packing, moved};
use crate::plan::{Plannable, Planned};
use mds_types::{ProblemRow, Rank, RankSet};
use std::alloc::{AllocError, Global};

/// The rank that each row is at.
pub(crate) fn ranks_now(alloc: Global, rows: &[ProblemRow]) -> Result<Vec<Rank>, AllocError>
    ensures size { IfOk result (λ found. length found.items ≡ length rows.now) }
    ensures now { IfOk result (λ found. (i : ℕ) → i < length rows.now
        → slice_index found.items i ≡ now_at rows.now i) }
{
    let mut found = Vec::with_capacity(alloc, rows.len())?;
    for row in rows {
        found.push(row.now)?;
    }
    Ok(found)
}

/// The rank that row `i` is to be at: the one that is wanted if it is one of the set, else that of the row above it.
/// The root is to be at rank 0.
fn next_goal(rows: &[ProblemRow], wanted: &[Rank], ranks: RankSet, goals: &[Rank], i: usize) -> Rank
    requires forest { IsForest rows.now }
    requires inside { i < length rows.now }
    requires size { length wanted.now ≡ length rows.now }
    requires before { AreGoals ranks i goals.now }
    requires zero { has_rank ranks 0 ≡ true }
    ensures usable { has_rank ranks result ≡ true }
    ensures root { i ≡ 0 → result ≡ 0 }
    ensures wanted { 0 < i → has_rank ranks (slice_index wanted.now i) ≡ true → result ≡ slice_index wanted.now i }
{
    if i == 0 {
        Rank::default()
    } else if ranks.has(wanted[i]) {
        wanted[i]
    } else {
        goals[rows[i].parent as usize]
    }
}

/// A rank of the set for each row, as wanted wherever that can be.
pub(crate) fn usable_goals(
    alloc: Global,
    rows: &[ProblemRow],
    wanted: &[Rank],
    ranks: RankSet,
) -> Result<Vec<Rank>, AllocError>
    requires forest { IsForest rows.now }
    requires size { length wanted.now ≡ length rows.now }
    requires zero { has_rank ranks 0 ≡ true }
    ensures goals { IfOk result (λ goals. AreGoals ranks (length rows.now) goals.items) }
    ensures kept { IfOk result (λ goals. AreAsWanted ranks wanted.now (length rows.now) goals.items) }
{
    let mut goals = Vec::with_capacity(alloc, rows.len())?;
    for i in 0..rows.len() {
        let goal = next_goal(rows, wanted, ranks, &goals, i);
        goals.push(goal)?;
    }
    Ok(goals)
}

/// Parts of rows, and their ranks.
#[derive(Drop)]
struct Regions {
    /// `part[i]` is the part of row i.
    part: Vec<u32>,
    /// `rank[p]` is the rank of part p.
    rank: Vec<Rank>,
}

/// The part of row `i`: a new one where it goes to another rank than the row above it, else that of the row above it.
fn next_region(rows: &[ProblemRow], goals: &[Rank], part: &[u32], count: u32, i: usize) -> u32
    requires forest { IsForest rows.now }
    requires inside { i < length rows.now }
    requires size { length goals.now ≡ length rows.now }
    requires before { length part.now ≡ i }
    ensures new { starts (is_border rows.now goals.now) i ≡ true → result ≡ count }
    ensures same { starts (is_border rows.now goals.now) i ≡ false
        → result ≡ slice_index part.now (parent_at rows.now i) }
{
    if i == 0 || goals[i] != goals[rows[i].parent as usize] {
        count
    } else {
        part[rows[i].parent as usize]
    }
}

/// The largest connected parts whose rows go to one rank.
fn regions_of(alloc: Global, rows: &[ProblemRow], goals: &[Rank]) -> Result<Regions, AllocError>
    requires forest { IsForest rows.now }
    requires size { length goals.now ≡ length rows.now }
    ensures { IfOk result (λ found. AreRegions rows.now goals.now (length rows.now) found.part.items
        found.rank.items) }
{
    let mut part = Vec::with_capacity(alloc, rows.len())?;
    let mut rank = Vec::new(alloc);
    for i in 0..rows.len() {
        let count = rank.len() as u32;
        let next = next_region(rows, goals, &part, count, i);
        part.push(next)?;
        if next == count {
            rank.push(goals[i])?;
        }
    }
    Ok(Regions { part, rank })
}

/// The plan that has each row at its rank.
pub(crate) fn placed(
    alloc: Global,
    of: &Plannable<'_>,
    goals: &[Rank],
) -> Result<Planned, AllocError>
    requires { AreGoals of.now.ranks (length of.now.rows.now) goals.now }
    ensures placed { IfOk result (IsPlacement of.now.ranks of.now.hours.now of.now.rows.now) }
    ensures at { IfOk result (IsPlacementAt of.now.rows.now goals.now) }
{
    let Regions { part, rank } = regions_of(alloc, of.rows, goals)?;
    let load = worst_loads(alloc, of.hours, goals)?;
    let greatest = most(&load, of.ranks);
    let moved = moved(of.rows, &part, &rank);
    let count = rank.len() as u32;
    let packing = Packing {
        rank,
        load,
        greatest,
        even: greatest,
        keep: 0,
    };
    Ok(Planned {
        part,
        count,
        packing,
        moved,
    })
}
