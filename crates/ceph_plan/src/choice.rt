//! How many parts: numbers from that of the ranks up to the most that are allowed are tried. Of the packings of all of
//! them that are cool enough, one is taken that moves the fewest inodes.
ghost use Rattle.std.specs.Prelude.{◌≡◌, ◌<◌, ◌≤◌, ◌+◌, ◌↔◌, ℕ, IfErr, IfOk, IsTrue, length, max};
ghost use Rattle.mds_types.specs.RankSet.{rank_count};
ghost use Rattle.ceph_plan.specs.Balance.{allowed};
ghost use Rattle.ceph_plan.specs.Choice.{AreCool, AreTried, AreWeighed, IsChosen, IsDividedOnce, IsFewer, IsPlace};
ghost use Rattle.ceph_plan.specs.Choice.{IsLimitedChoice, IsPlanChoice, IsTaken, IsTriedCount, even_at, gap};
ghost use Rattle.ceph_plan.specs.Choice.{greatest_in, moved_in, packings_at, part_count_at, size_of};
ghost use Rattle.ceph_plan.specs.Packing.{HaveHeats};
ghost use Rattle.ceph_plan.specs.Refusals.{IsCountRefusal, IsPartsRefusal, IsPlanRefusal};

use crate::bound::total_heat;
use crate::hours::Hour;
use crate::packing::{Packed, have_pinned};
use crate::plan::{PackedDivision, Plannable, Planned, Size, divide};
use crate::plan_error::PlanError;
use mds_types::{Problem, ProblemError, ProblemRow, Rank, RankSet};
use std::alloc::Global;

/// Into how many parts the directories are divided.
#[derive(Clone, Copy)]
pub enum PartCount {
    /// As many as give the plan that moves the fewest inodes, of those that are cool enough. At most this many, or as
    /// many as there are ranks, are tried. `propose` takes no plan with more pins of ours than this, if it has another.
    Auto(u16),
    /// At most this many.
    AtMost(u16),
}

/// What plan is wanted.
#[derive(Clone, Copy)]
pub struct Wanted {
    /// Into how many parts the directories are divided.
    pub parts: PartCount,
    /// The percent by which the greatest load may pass that of the coolest packing by heat only, so that fewer inodes
    /// move.
    pub keep: u8,
    /// No more inodes than this are to move.
    pub most_inodes: u64,
    /// Whether a directory without a pin at or above it stays where it is, as it does while Ceph's balancer is off.
    /// Then only those get a pin that move, or that would move with the one above, and a pin of an earlier plan that
    /// has its directory away from the one above is kept or changed.
    pub rests: bool,
}

/// The place of the division whose packing by heat only is the coolest.
fn coolest(divisions: &[PackedDivision]) -> usize
    requires { 0 < length divisions.now }
    ensures inside { result < length divisions.now }
    ensures least { (k : ℕ) → k < length divisions.now → even_at divisions.now result ≤ even_at divisions.now k }
{
    let mut best = 0;
    for at in 1..divisions.len() {
        if divisions[at].packings.even < divisions[best].packings.even {
            best = at;
        }
    }
    best
}

/// The greatest load that passes by at most `keep` percent that of a division's packing by heat only.
fn limit_of(divisions: &[PackedDivision], at: usize, keep: u8) -> u128
    requires { at < length divisions.now }
    ensures { result ≡ allowed keep (even_at divisions.now at) }
{
    let even = u128::from(divisions[at].packings.even);
    even + even / 100 * u128::from(keep)
}

/// The packings of a division.
fn packings_of(divisions: &[PackedDivision], at: usize) -> &[Packed]
    requires { at < length divisions.now }
    ensures { result.now ≡ packings_at divisions.now at }
{
    &divisions[at].packings.each
}

/// The place of a packing within the limit that moves the fewest inodes; how many packings there are, if none is.
fn fewest_within(packings: &[Packed], limit: u128) -> usize
    ensures within { result < length packings.now → greatest_in packings.now result ≤ limit }
    ensures fewest { (v : ℕ) → v < length packings.now → greatest_in packings.now v ≤ limit
        → (result < length packings.now) × (moved_in packings.now result ≤ moved_in packings.now v) }
{
    let mut best = packings.len();
    for at in 0..packings.len() {
        let is_first = best == packings.len();
        if u128::from(packings[at].packing.greatest) <= limit
            && (is_first || packings[at].moved < packings[best].moved)
        {
            best = at;
        }
    }
    best
}

/// Whether fewer inodes move, or as few with fewer parts.
fn is_fewer(moved: u64, count: u32, other: u64, others: u32) -> bool
    ensures { IsTrue result ↔ IsFewer moved count other others }
{
    moved < other || (moved == other && count < others)
}

/// Whether a packing of one division moves fewer inodes than one of another, or as few with fewer parts.
fn is_better(
    divisions: &[PackedDivision],
    at: usize,
    there: usize,
    best: usize,
    place: usize,
) -> bool
    requires at { IsPlace divisions.now at there }
    requires best { IsPlace divisions.now best place }
    ensures { IsTrue result ↔ IsFewer (moved_in (packings_at divisions.now at) there) (part_count_at divisions.now at)
        (moved_in (packings_at divisions.now best) place) (part_count_at divisions.now best) }
{
    let moved = packings_of(divisions, at)[there].moved;
    let other = packings_of(divisions, best)[place].moved;
    is_fewer(moved, divisions[at].count, other, divisions[best].count)
}

/// Which packing of which division is taken: of those whose greatest load passes by at most `keep` percent that of the
/// coolest packing by heat only, one that moves the fewest inodes, with the fewest parts of these.
fn chosen(divisions: &[PackedDivision], keep: u8) -> (usize, usize)
    requires { AreCool divisions.now }
    ensures { IsChosen keep divisions.now result.0 result.1 }
{
    let first = coolest(divisions);
    let limit = limit_of(divisions, first, keep);
    let mut best = first;
    let mut place = fewest_within(packings_of(divisions, first), limit);
    for at in 0..divisions.len() {
        let packings = packings_of(divisions, at);
        let there = fewest_within(packings, limit);
        if there < packings.len() && is_better(divisions, at, there, best, place) {
            best = at;
            place = there;
        }
    }
    (best, place)
}

/// The plan that is taken of these divisions.
fn taken(mut divisions: Vec<PackedDivision>, keep: u8) -> Planned
    requires { AreCool divisions.items }
    ensures { IsTaken keep divisions.items result }
{
    let (at, place) = chosen(&divisions, keep);
    let mut divided = divisions.swap_remove(at);
    let packed = divided.packings.each.swap_remove(place);
    Planned {
        part: divided.part,
        count: divided.count,
        packing: packed.packing,
        moved: packed.moved,
    }
}

/// How finely rows of this heat are divided into `parts` parts. Once one row is as hot as the hottest part, more
/// parts change nothing: rows are then capped at a fair share.
fn size_for(parts: u32, heat: u64, is_heavy: bool) -> Size
    requires { 0 < parts }
    ensures { result ≡ size_of heat parts is_heavy }
{
    let cap = if is_heavy {
        (heat / u64::from(parts)).max(1)
    } else {
        u64::MAX
    };
    Size { parts, cap }
}

/// The number of parts that is tried after this one: the next up to 64, and then numbers that grow by a quarter, but
/// the last one isn't passed over.
fn next_count(parts: u32, last: u32) -> u32
    requires { parts ≤ 65536 }
    ensures more { parts < result }
    ensures near { result ≤ parts + gap parts + 1 }
    ensures last { parts < last → result ≤ last }
{
    let next = if parts < 64 {
        parts + 1
    } else {
        parts + parts / 4 + 1
    };
    if parts < last { next.min(last) } else { next }
}

/// A division into each number of parts that is tried, from that of the ranks to the most, as results don't fall
/// steadily with the number.
fn weighed(alloc: Global, of: &Plannable<'_>, most: u16) -> Result<Vec<PackedDivision>, PlanError>
    ensures weighed { IfOk result (λ divisions. AreWeighed of.now.ranks of.now.hours.now of.now.rows.now
        divisions.items (max most (rank_count of.now.ranks) + 1)) }
    ensures last { IfOk result (λ divisions. IsTriedCount of.now.ranks of.now.hours.now of.now.rows.now divisions.items
        (max most (rank_count of.now.ranks))) }
    ensures some { IfOk result (λ divisions. 0 < length divisions.items) }
    ensures refused { IfErr result (λ error. error ≡ PlanError.Memory) }
{
    let (heat, count) = (total_heat(of.rows), u32::from(of.ranks.len()));
    let last = u32::from(most).max(count);
    let mut divisions = Vec::new(alloc);
    let mut is_heavy = false;
    let mut parts = count;
    while parts <= last {
        let size = size_for(parts, heat, is_heavy);
        let divided = divide(alloc, of, size)?;
        is_heavy |= divided.is_heavy;
        divisions.push(divided)?;
        parts = next_count(parts, last);
    }
    Ok(divisions)
}

/// One division into at most this many parts, if any are asked for.
fn divided_once(
    alloc: Global,
    of: &Plannable<'_>,
    parts: u16,
) -> Result<Vec<PackedDivision>, PlanError>
    ensures divided { IfOk result (λ divisions. IsDividedOnce of.now.ranks of.now.hours.now of.now.rows.now parts
        divisions.items) }
    ensures refused { IfErr result (IsPartsRefusal parts) }
{
    if parts == 0 {
        return Err(PlanError::Problem(ProblemError::NoRanks));
    }
    let (parts, cap) = (u32::from(parts), u64::MAX);
    let divided = divide(alloc, of, Size { parts, cap })?;
    let mut divisions = Vec::new(alloc);
    divisions.push(divided)?;
    Ok(divisions)
}

/// The divisions that are tried. They don't depend on how much a load may pass the greatest.
fn tried(
    alloc: Global,
    of: &Plannable<'_>,
    parts: PartCount,
) -> Result<Vec<PackedDivision>, PlanError>
    ensures tried { IfOk result (λ divisions. AreTried of.now.ranks of.now.hours.now of.now.rows.now parts
        divisions.items) }
    ensures refused { IfErr result (IsCountRefusal parts) }
{
    match parts {
        PartCount::Auto(most) => weighed(alloc, of, most),
        PartCount::AtMost(parts) => divided_once(alloc, of, parts),
    }
}

/// A plan of divisions, and the load that it had to be within.
#[derive(Drop)]
pub(crate) struct Limited {
    /// The plan.
    pub plan: Planned,
    /// The greatest load that passes by at most `keep` percent that of the coolest packing by heat only.
    pub limit: u128,
}

/// What `choose_plan` gives, with the load that it had to be within.
pub(crate) fn choose_within(
    alloc: Global,
    rows: &[ProblemRow],
    wanted: Wanted,
    hours: &[Hour],
    ranks: RankSet,
) -> Result<Limited, PlanError>
    requires heats { HaveHeats rows.now hours.now }
    ensures chosen { IfOk result (λ found. IsLimitedChoice ranks hours.now rows.now wanted found.limit found.plan) }
    // it is refused for what is wrong first
    ensures refused { IfErr result (IsPlanRefusal ranks hours.now rows.now wanted) }
{
    if !ranks.has(Rank::default()) {
        return Err(PlanError::NoRankZero);
    }
    if rows.is_empty() {
        return Err(PlanError::NoDirectory);
    }
    if !have_pinned(hours) {
        return Err(PlanError::PinnedTooHot);
    }
    let problem = match Problem::new(rows.to_vec(alloc)?, ranks) {
        Ok(problem) => problem,
        Err((error, _)) => return Err(PlanError::Problem(error)),
    };
    let rows = problem.rows();
    let of = Plannable { rows, hours, ranks };
    let divisions = tried(alloc, &of, wanted.parts)?;
    let limit = limit_of(&divisions, coolest(&divisions), wanted.keep);
    let plan = taken(divisions, wanted.keep);
    Ok(Limited { plan, limit })
}

/// Which rank of the set each row is to be at, in connected parts, several a rank.
///
/// The heat of a row is that of all hours together, or of the only one. The root's part goes to rank 0, as Ceph never
/// moves the root: without rank 0 there is no plan.
pub fn choose_plan(
    alloc: Global,
    rows: &[ProblemRow],
    wanted: Wanted,
    hours: &[Hour],
    ranks: RankSet,
) -> Result<Planned, PlanError>
    requires heats { HaveHeats rows.now hours.now }
    ensures chosen { IfOk result (IsPlanChoice ranks hours.now rows.now wanted) }
    // it is refused for what is wrong first
    ensures refused { IfErr result (IsPlanRefusal ranks hours.now rows.now wanted) }
{
    Ok(choose_within(alloc, rows, wanted, hours, ranks)?.plan)
}
