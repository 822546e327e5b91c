//! Hours that were not seen: the load as it is now, but half of it on the children of one directory.
ghost use Rattle.std.specs.Prelude.{◌≡◌, ◌<◌, ◌≤◌, ◌+◌, ◌*◌, ◌/◌, ◌^◌, ◌⊎◌, ◌↔◌, ℕ, IfErr, IfOk, IsTrue, false};
ghost use Rattle.std.specs.Prelude.{length, slice_index, if◌then◌else◌};
ghost use Rattle.mds_types.specs.Problem.{IsForest, inodes_at};
ghost use Rattle.ceph_plan.specs.HourPlans.{IsCountedHour};
ghost use Rattle.ceph_plan.specs.MadeHours.{AreCounts, AreLargest, AreMadeHours, AreMadeOver, AreTaking, AreTotals};
ghost use Rattle.ceph_plan.specs.MadeHours.{AreWorth, HaveNumbers, IsMadeFrom, IsMadeRefusal, free_children, half_load};
ghost use Rattle.ceph_plan.specs.MadeHours.{heat_mark, is_free_child};
ghost use Rattle.ceph_plan.specs.Packing.{IsPinnedHeat};

use crate::bound::sum_of;
use crate::hours::Hour;
use crate::hours_error::HoursError;
use crate::plan_error::PlanError;
use crate::rank_choice::inodes_of;
use crate::shares::is_hour;
use mds_types::{Problem, ProblemRow, RankSet};
use residual_cut::subtrees::weigh;
use std::alloc::{AllocError, Global};

/// A made hour counts this percent of one that was seen.
pub const MADE_WEIGHT: u8 = 80;

/// An hour is made for a directory that has so many children to plan.
pub const MADE_CHILDREN: u64 = 8;

/// An hour that was not seen.
#[derive(Drop)]
pub struct MadeHour {
    /// The row of the directory whose children have half of the load.
    pub parent: u32,
    /// What is counted of it.
    pub hour: Hour,
}

/// How many children each row has that are to be planned.
fn counts(alloc: Global, rows: &[ProblemRow], free: &[bool]) -> Result<Vec<u64>, AllocError>
    requires forest { IsForest rows.now }
    requires free { length free.now ≡ length rows.now }
    ensures { IfOk result (λ counts. AreCounts rows.now free.now counts.items) }
{
    let mut counts = vec![in alloc; 0u64; rows.len()]?;
    for i in 1..rows.len() {
        if free[i] {
            counts[rows[i].parent as usize] += 1;
        }
    }
    Ok(counts)
}

/// The rows, each with one of these numbers as its heat.
fn with_numbers(
    alloc: Global,
    rows: &[ProblemRow],
    own: &[u64],
) -> Result<Vec<ProblemRow>, AllocError>
    requires { length own.now ≡ length rows.now }
    ensures { IfOk result (λ found. HaveNumbers rows.now own.now found.items) }
{
    let mut found = Vec::with_capacity(alloc, rows.len())?;
    for (i, row) in rows.iter().enumerate() {
        found.push(ProblemRow {
            parent: row.parent,
            heat: own[i],
            inodes: row.inodes,
            now: row.now,
        })?;
    }
    Ok(found)
}

/// What each row and all below it have of these numbers.
fn totals(alloc: Global, rows: &[ProblemRow], own: &[u64]) -> Result<Vec<u64>, AllocError>
    requires forest { IsForest rows.now }
    requires size { length own.now ≡ length rows.now }
    requires small { (i : ℕ) → i < length rows.now → slice_index own.now i ≤ 2 ^ 40 }
    ensures size { IfOk result (λ found. length found.items ≡ length rows.now) }
    ensures totals { IfOk result (λ found. AreTotals rows.now (slice_index own.now) (slice_index found.items)) }
{
    let rows = with_numbers(alloc, rows, own)?;
    let trees = weigh(alloc, &rows, u64::MAX)?;
    Ok(trees.heat)
}

/// 1 for each row that has heat, 0 for the others.
fn marks(alloc: Global, heats: &[u64]) -> Result<Vec<u64>, AllocError>
    ensures size { IfOk result (λ found. length found.items ≡ length heats.now) }
    ensures marks { IfOk result (λ found. (i : ℕ) → i < length heats.now
        → slice_index found.items i ≡ heat_mark heats.now i) }
{
    let mut found = Vec::with_capacity(alloc, heats.len())?;
    for heat in heats {
        found.push((*heat).min(1))?;
    }
    Ok(found)
}

/// The inodes of each row.
fn all_inodes(alloc: Global, rows: &[ProblemRow]) -> Result<Vec<u64>, AllocError>
    ensures size { IfOk result (λ found. length found.items ≡ length rows.now) }
    ensures small { IfOk result (λ found. (i : ℕ) → i < length rows.now → slice_index found.items i < 2 ^ 32) }
    ensures inodes { IfOk result (λ found. (i : ℕ) → i < length rows.now
        → slice_index found.items i ≡ inodes_at rows.now i) }
{
    let mut found = Vec::with_capacity(alloc, rows.len())?;
    for row in rows {
        found.push(inodes_of(row))?;
    }
    Ok(found)
}

/// Whether an hour may be made for a row: there is heat at or below it, or there are at least 2 percent of all inodes.
fn may_make(hot: u64, inodes: u64, all: u64) -> bool
    ensures yes { IsTrue result → (0 < hot) ⊎ (all ≤ inodes * 50) }
    ensures no { result ≡ false → (hot ≡ 0) × (inodes * 50 < all) }
{
    hot > 0 || u128::from(inodes) * 50 >= u128::from(all)
}

/// Whether load may come to a row in a made hour: there is heat at or below it, or more than one inode, or of all rows
/// no more inodes are known than one each.
fn may_take(hot: u64, inodes: u64, all: u64, rows: usize) -> bool
    ensures { IsTrue result ↔ ((0 < hot) ⊎ ((1 < inodes) ⊎ (all ≤ rows))) }
{
    hot > 0 || inodes > 1 || all <= rows as u64
}

/// Whether each row is to be planned and load may come to it.
fn taking(
    alloc: Global,
    rows: &[ProblemRow],
    free: &[bool],
    now: &Hour,
) -> Result<Vec<bool>, AllocError>
    requires forest { IsForest rows.now }
    requires free { length free.now ≡ length rows.now }
    requires size { length now.now.heats.items ≡ length rows.now }
    ensures { IfOk result (λ taking. AreTaking rows.now free.now now.now.heats.items taking.items) }
{
    let hot = totals(alloc, rows, &marks(alloc, &now.heats)?)?;
    let inodes = totals(alloc, rows, &all_inodes(alloc, rows)?)?;
    let mut found = Vec::with_capacity(alloc, rows.len())?;
    for i in 0..rows.len() {
        found.push(free[i] && may_take(hot[i], inodes[i], inodes[0], rows.len()))?;
    }
    Ok(found)
}

/// Of each row how many children it has that are to be planned, if an hour may be made for it, and 0 if not: those
/// with heat at or below them may have one, and those with at least 2 percent of all inodes.
fn worth(
    alloc: Global,
    rows: &[ProblemRow],
    free: &[bool],
    now: &Hour,
) -> Result<Vec<u64>, AllocError>
    requires forest { IsForest rows.now }
    requires free { length free.now ≡ length rows.now }
    requires size { length now.now.heats.items ≡ length rows.now }
    ensures { IfOk result (λ worth. AreWorth rows.now free.now now.now.heats.items worth.items) }
{
    let mut worth = counts(alloc, rows, free)?;
    let hot = totals(alloc, rows, &marks(alloc, &now.heats)?)?;
    let inodes = totals(alloc, rows, &all_inodes(alloc, rows)?)?;
    for i in 0..rows.len() {
        if !may_make(hot[i], inodes[i], inodes[0]) {
            worth[i] = 0;
        }
    }
    Ok(worth)
}

/// The place of the greatest number, the first of them.
fn greatest_place(numbers: &[u64]) -> usize
    requires { 0 < length numbers.now }
    ensures inside { result < length numbers.now }
    ensures greatest { (i : ℕ) → i < length numbers.now → slice_index numbers.now i ≤ slice_index numbers.now result }
{
    let mut best = 0;
    for i in 1..numbers.len() {
        if numbers[i] > numbers[best] {
            best = i;
        }
    }
    best
}

/// The places of the greatest numbers that are at least `MADE_CHILDREN`, the greatest first; at most `count`.
fn largest(alloc: Global, numbers: &[u64], count: usize) -> Result<Vec<u32>, AllocError>
    requires { length numbers.now ≤ 65536 }
    ensures { IfOk result (λ found. AreLargest numbers.now count found.items) }
{
    let mut left = numbers.to_vec(alloc)?;
    let mut found = Vec::new(alloc);
    if left.is_empty() {
        return Ok(found);
    }
    for _ in 0..count {
        let at = greatest_place(&left);
        if left[at] < MADE_CHILDREN {
            return Ok(found);
        }
        left[at] = 0;
        found.push(at as u32)?;
    }
    Ok(found)
}

/// Half of all load of an hour, as far as it is counted.
fn half_of(now: &Hour) -> u64
    requires pinned { IsPinnedHeat now.now.pinned.items }
    ensures { result ≡ half_load now.now.heats.items now.now.pinned.items }
{
    let all = u128::from(sum_of(&now.heats)) + u128::from(sum_of(&now.pinned));
    all.min(1 << 56) as u64 / 2
}

/// Half of each of these heats.
fn halved(alloc: Global, heats: &[u64]) -> Result<Vec<u64>, AllocError>
    ensures size { IfOk result (λ found. length found.items ≡ length heats.now) }
    ensures half { IfOk result (λ found. (i : ℕ) → i < length heats.now
        → slice_index found.items i ≡ slice_index heats.now i / 2) }
{
    let mut found = Vec::with_capacity(alloc, heats.len())?;
    for heat in heats {
        found.push(*heat / 2)?;
    }
    Ok(found)
}

/// This for a child of a row that is to be planned, and none for another row.
fn child_heat(rows: &[ProblemRow], free: &[bool], parent: u32, more: u64, i: usize) -> u64
    requires free { length free.now ≡ length rows.now }
    requires inside { i < length rows.now }
    ensures { result ≡ (if is_free_child rows.now free.now parent i then more else 0) }
{
    if i > 0 && free[i] && rows[i].parent == parent {
        more
    } else {
        0
    }
}

/// Half of each of these heats of rows, and this more on the children of a row that are to be planned.
fn made_heats(
    alloc: Global,
    rows: &[ProblemRow],
    free: &[bool],
    heats: &[u64],
    parent: u32,
    more: u64,
) -> Result<Vec<u64>, AllocError>
    requires free { length free.now ≡ length rows.now }
    requires size { length heats.now ≡ length rows.now }
    requires more { more ≤ 2 ^ 56 }
    ensures size { IfOk result (λ found. length found.items ≡ length rows.now) }
    ensures heats { IfOk result (λ found. (i : ℕ) → i < length rows.now → slice_index found.items i
        ≡ slice_index heats.now i / 2 + (if is_free_child rows.now free.now parent i then more else 0)) }
{
    let mut found = Vec::with_capacity(alloc, heats.len())?;
    for (i, heat) in heats.iter().enumerate() {
        found.push(*heat / 2 + child_heat(rows, free, parent, more, i))?;
    }
    Ok(found)
}

/// An hour in which half of the load is on the children of this row that are to be planned, `children` of them.
fn made_hour(
    alloc: Global,
    rows: &[ProblemRow],
    free: &[bool],
    now: &Hour,
    parent: u32,
    children: u64,
) -> Result<Hour, AllocError>
    requires free { length free.now ≡ length rows.now }
    requires hour { IsCountedHour now.now.heats.items now.now.pinned.items (length rows.now) }
    requires children { children ≡ free_children rows.now free.now parent }
    requires some { 0 < children }
    ensures { IfOk result (IsMadeFrom rows.now free.now now.now parent) }
{
    let more = half_of(now) / children;
    let heats = made_heats(alloc, rows, free, &now.heats, parent, more)?;
    let pinned = halved(alloc, &now.pinned)?;
    Ok(Hour { heats, pinned })
}

/// The hours that are made of this one.
fn made_from(
    alloc: Global,
    rows: &[ProblemRow],
    free: &[bool],
    now: &Hour,
    count: usize,
) -> Result<Vec<MadeHour>, AllocError>
    requires forest { IsForest rows.now }
    requires free { length free.now ≡ length rows.now }
    requires hour { IsCountedHour now.now.heats.items now.now.pinned.items (length rows.now) }
    ensures { IfOk result (λ found. AreMadeOver rows.now free.now now.now count found.items) }
{
    let worth = worth(alloc, rows, free, now)?;
    let parents = largest(alloc, &worth, count)?;
    let mut found = Vec::new(alloc);
    for parent in &parents {
        let children = worth[*parent as usize];
        let hour = made_hour(alloc, rows, free, now, *parent, children)?;
        let parent = *parent;
        found.push(MadeHour { parent, hour })?;
    }
    Ok(found)
}

/// Hours that were not seen, each for another directory: half of all load is alike on its children that are to be
/// planned, where `free`, and that aren't empty; the rest is half of what it is now. A child is empty that has no heat
/// and one inode at most at and below it, if inodes are known.
///
/// An hour is made for directories with at least 8 such children, and with heat at or below them, or 2 percent of all
/// inodes: for those with the most such children, at most `count`.
pub fn made_hours(
    alloc: Global,
    rows: &[ProblemRow],
    free: &[bool],
    now: &Hour,
    count: usize,
) -> Result<Vec<MadeHour>, PlanError>
    requires { length free.now ≡ length rows.now }
    ensures made { IfOk result (λ found. AreMadeHours rows.now free.now now.now count found.items) }
    ensures refused { IfErr result (IsMadeRefusal rows.now now.now) }
{
    if !is_hour(now, rows.len()) {
        return Err(PlanError::Hours(HoursError::NotCounted));
    }
    let problem = match Problem::new(rows.to_vec(alloc)?, RankSet::from_bits(1)) {
        Ok(problem) => problem,
        Err((error, _)) => return Err(PlanError::Problem(error)),
    };
    let taking = taking(alloc, problem.rows(), free, now)?;
    Ok(made_from(alloc, problem.rows(), &taking, now, count)?)
}
