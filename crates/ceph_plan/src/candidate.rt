//! Plans that may be taken, each with what it costs. The first is the present placement.
ghost use Rattle.std.specs.Prelude.{◌≡◌, ◌<◌, ◌↔◌, ℕ, length, slice_index, slice_index_or, false, true};
ghost use Rattle.std.specs.Prelude.{IfErr, IfOk, IsTrue};
ghost use Rattle.mds_types.specs.Problem.{IsForest, now_at};
ghost use Rattle.mds_types.specs.RankSet.{has_rank};
ghost use Rattle.ceph_plan.specs.Asked.{ArePinRows, own_at, rest_where};
ghost use Rattle.ceph_plan.specs.Candidates.{AreBegun, AreLeft, ColdStays, HasLeaving, IsCandidate, IsCandidateRefusal};
ghost use Rattle.ceph_plan.specs.Candidates.{Leaves, moved_heat};
ghost use Rattle.ceph_plan.specs.Packing.{HaveParts};
ghost use Rattle.ceph_plan.specs.Placements.{AreGoals, IsPlacement, IsPlacementAt};

use crate::choice::{PartCount, Wanted};
use crate::moving::{First, Ground, moved_from};
use crate::pins::{are_rows, pins_for};
use crate::placement::{placed, ranks_now, usable_goals};
use crate::plan::{Plannable, Planned};
use crate::plan_error::PlanError;
use crate::proposal::OwnPins;
use crate::row::PinRow;
use mds_types::{ProblemRow, Rank, RankSet};
use std::alloc::{AllocError, Global};

/// A plan that may be taken.
#[derive(Drop)]
pub struct Candidate {
    /// The plan.
    pub plan: Planned,
    /// What is asked of each directory.
    pub rows: Vec<PinRow>,
    /// How many pins are ours where it is carried out.
    pub pins: usize,
    /// The heat of the rows that are to go to another rank.
    pub heat: u64,
    /// Whether each row that is to be left is where it is.
    pub keeps_left: bool,
}

/// How many pins there may be, as far as that is said.
fn most_pins(parts: PartCount) -> usize {
    match parts {
        PartCount::Auto(most) | PartCount::AtMost(most) => usize::from(most),
    }
}

/// Where a row is while no pin holds it, as far as that is known.
fn rest_of(rows: &[ProblemRow], row: usize, earlier: Option<Rank>, rests: bool) -> Option<Rank>
    requires forest { IsForest rows.now }
    requires inside { row < length rows.now }
    ensures { result ≡ rest_where rows.now earlier rests row }
{
    if row == 0 {
        return Some(Rank::default());
    }
    let now = rows[row].now;
    let above = rows[rows[row].parent as usize].now;
    if rests && (earlier.is_none() || now == above) {
        Some(now)
    } else {
        None
    }
}

/// What is asked of each row: to be at the rank of its part, wherever it is now. The root is known to stay where it
/// is, and if `rests` so are the others, but for those that an earlier pin has away from the row above.
fn pin_rows(
    alloc: Global,
    rows: &[ProblemRow],
    part: &[u32],
    rank: &[Rank],
    own: &[OwnPins],
    rests: bool,
) -> Result<Vec<PinRow>, AllocError>
    requires parts { HaveParts rows.now part.now (length rank.now) }
    requires own { length own.now ≡ length rows.now }
    ensures { IfOk result (λ found. ArePinRows rows.now part.now rank.now own.now (length rows.now) rests
        found.items) }
{
    let mut found = Vec::with_capacity(alloc, rows.len())?;
    for (i, row) in rows.iter().enumerate() {
        found.push(PinRow {
            parent: row.parent,
            target: rank[part[i] as usize],
            foreign: own[i].foreign,
            earlier: own[i].earlier,
            rest: rest_of(rows, i, own[i].earlier, rests),
        })?;
    }
    Ok(found)
}

/// The heat of the rows whose part goes to another rank than the one that has them.
fn heat_moved(rows: &[ProblemRow], part: &[u32], rank: &[Rank]) -> u64
    requires { HaveParts rows.now part.now (length rank.now) }
    ensures { result ≡ moved_heat rows.now part.now rank.now (length rows.now) }
{
    let mut moved = 0;
    for (i, row) in rows.iter().enumerate() {
        if rank[part[i] as usize] != row.now {
            moved += row.heat;
        }
    }
    moved
}

/// Whether each row that is to be left goes to the rank that has it.
fn keeps_left(rows: &[ProblemRow], part: &[u32], rank: &[Rank], own: &[OwnPins]) -> bool
    requires parts { HaveParts rows.now part.now (length rank.now) }
    requires own { length own.now ≡ length rows.now }
    ensures { IsTrue result ↔ AreLeft rows.now own.now part.now rank.now (length rows.now) }
{
    for (i, row) in rows.iter().enumerate() {
        if own[i].is_left && rank[part[i] as usize] != row.now {
            return false;
        }
    }
    true
}

/// A plan with what it costs.
pub(crate) fn costed(
    alloc: Global,
    of: &Plannable<'_>,
    own: &[OwnPins],
    rests: bool,
    plan: Planned,
) -> Result<Candidate, PlanError>
    requires own { length own.now ≡ length of.now.rows.now }
    requires placed { IsPlacement of.now.ranks of.now.hours.now of.now.rows.now plan }
    ensures candidate { IfOk result (IsCandidate of.now.ranks of.now.hours.now of.now.rows.now own.now
        rests) }
    ensures plan { IfOk result (λ found. found.plan ≡ plan) }
    ensures refused { IfErr result (IsCandidateRefusal own.now) }
{
    let (part, rank) = (&plan.part, &plan.packing.rank);
    let rows = pin_rows(alloc, of.rows, part, rank, own, rests)?;
    if !are_rows(&rows) {
        return Err(PlanError::PinnedRoot);
    }
    let pins = pins_for(alloc, &rows)?.len();
    let heat = heat_moved(of.rows, &plan.part, &plan.packing.rank);
    let keeps_left = keeps_left(of.rows, &plan.part, &plan.packing.rank, own);
    Ok(Candidate {
        plan,
        rows,
        pins,
        heat,
        keeps_left,
    })
}

/// The plan that has each row at its rank, with what it costs.
fn candidate_at(
    alloc: Global,
    of: &Plannable<'_>,
    own: &[OwnPins],
    rests: bool,
    goals: &[Rank],
) -> Result<Candidate, PlanError>
    requires own { length own.now ≡ length of.now.rows.now }
    requires goals { AreGoals of.now.ranks (length of.now.rows.now) goals.now }
    ensures candidate { IfOk result (IsCandidate of.now.ranks of.now.hours.now of.now.rows.now own.now
        rests) }
    ensures at { IfOk result (λ found. IsPlacementAt of.now.rows.now goals.now found.plan) }
    ensures refused { IfErr result (IsCandidateRefusal own.now) }
{
    let plan = placed(alloc, of, goals)?;
    costed(alloc, of, own, rests, plan)
}

/// Whether a row goes to another rank than the one that has it.
fn leaves(rows: &[ProblemRow], part: &[u32], rank: &[Rank], i: usize) -> bool
    requires parts { HaveParts rows.now part.now (length rank.now) }
    requires inside { i < length rows.now }
    ensures { IsTrue result → Leaves rows.now part.now rank.now i }
{
    rank[part[i] as usize] != rows[i].now
}

/// Whether heat leaves each part, of a plan of these parts and ranks.
fn warm_parts(
    alloc: Global,
    rows: &[ProblemRow],
    part: &[u32],
    rank: &[Rank],
) -> Result<Vec<bool>, AllocError>
    requires { HaveParts rows.now part.now (length rank.now) }
    ensures size { IfOk result (λ warm. length warm.items ≡ length rank.now) }
    ensures warm { IfOk result (λ warm. (p : ℕ) → slice_index_or warm.items p false ≡ true
        → HasLeaving rows.now part.now rank.now (length rows.now) p) }
{
    let mut warm = vec![in alloc; false; rank.len()]?;
    for (i, row) in rows.iter().enumerate() {
        if row.heat > 0 && leaves(rows, part, rank, i) {
            warm[part[i] as usize] = true;
        }
    }
    Ok(warm)
}

/// Whether no row at a rank of the set goes to another one in a part that heat doesn't leave.
fn is_cold_staying(
    rows: &[ProblemRow],
    part: &[u32],
    rank: &[Rank],
    warm: &[bool],
    ranks: RankSet,
) -> bool
    requires parts { HaveParts rows.now part.now (length rank.now) }
    requires size { length warm.now ≡ length rank.now }
    ensures { IsTrue result → (i : ℕ) → i < length rows.now → has_rank ranks (now_at rows.now i) ≡ true
        → Leaves rows.now part.now rank.now i → slice_index_or warm.now (slice_index part.now i) false ≡ true }
{
    for (i, row) in rows.iter().enumerate() {
        let at = part[i] as usize;
        if !warm[at] && rank[at] != row.now && ranks.has(row.now) {
            return false;
        }
    }
    true
}

/// Whether what is cold stays.
fn leaves_cold(
    alloc: Global,
    rows: &[ProblemRow],
    part: &[u32],
    rank: &[Rank],
    ranks: RankSet,
) -> Result<bool, AllocError>
    requires parts { HaveParts rows.now part.now (length rank.now) }
    ensures { IfOk result (λ is. IsTrue is → ColdStays ranks rows.now part.now rank.now (length rows.now)) }
{
    let warm = warm_parts(alloc, rows, part, rank)?;
    Ok(is_cold_staying(rows, part, rank, &warm, ranks))
}

/// Each way to move directories that is tried.
const WAYS: &[First] = &[First::Dense, First::Hot];

/// The plans that begin from where things are: the present placement, and those that move directories from ranks above
/// the limit, as far as there may be so many pins and so many inodes may move, while what is cold stays.
pub(crate) fn begun(
    alloc: Global,
    of: &Plannable<'_>,
    own: &[OwnPins],
    wanted: Wanted,
    limit: u64,
) -> Result<Vec<Candidate>, PlanError>
    requires own { length own.now ≡ length of.now.rows.now }
    ensures begun { IfOk result (λ found. AreBegun of.now.ranks of.now.hours.now of.now.rows.now own.now
        wanted.rests found.items) }
    ensures refused { IfErr result (IsCandidateRefusal own.now) }
{
    let (rows, ranks) = (of.rows, of.ranks);
    let now = ranks_now(alloc, rows)?;
    let present = usable_goals(alloc, rows, &now, ranks)?;
    let stays = candidate_at(alloc, of, own, wanted.rests, &present)?;
    let most = most_pins(wanted.parts).saturating_sub(stays.pins);
    let most_inodes = wanted.most_inodes.saturating_sub(stays.plan.moved);
    let mut found = Vec::new(alloc);
    found.push(stays)?;
    for first in WAYS {
        let ground = Ground {
            rows,
            hours: of.hours,
            ranks,
            limit,
            first: *first,
            most,
            most_inodes,
            own,
        };
        let moved = moved_from(alloc, &ground, &present)?;
        let goals = usable_goals(alloc, rows, &moved, ranks)?;
        let one = candidate_at(alloc, of, own, wanted.rests, &goals)?;
        if leaves_cold(alloc, rows, &one.plan.part, &one.plan.packing.rank, ranks)? {
            found.push(one)?;
        }
    }
    Ok(found)
}
