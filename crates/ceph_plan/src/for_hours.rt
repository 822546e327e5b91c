//! A plan for several hours at once, and what it comes to in each of them.
ghost use Rattle.std.specs.Prelude.{◌≡◌, ◌<◌, ℕ, IfErr, IfNone, IfOk, IfSome, IsTrue, length, slice_index, true};
ghost use Rattle.mds_types.specs.Problem.{now_at};
ghost use Rattle.mds_types.specs.RankSet.{has_rank};
ghost use Rattle.ceph_plan.specs.HourPlans.{AreCountable, AreWeights, IsCountedRefusal, IsHoursFault};
ghost use Rattle.ceph_plan.specs.HourPlans.{IsHoursProposal, IsHoursRefusal};
ghost use Rattle.ceph_plan.specs.Packing.{AreHours, AreLoads, packed_rank};

use crate::choice::Wanted;
use crate::hours::Hour;
use crate::hours_error::HoursError;
use crate::loads::loads;
use crate::placement::ranks_now;
use crate::plan_error::PlanError;
use crate::proposal::{OwnPins, Proposal, propose};
use crate::shares::{are_hours, shared};
use mds_types::{ProblemRow, Rank, RankSet};
use std::alloc::{AllocError, Global};

/// No more hours than this are planned for at once.
pub const HOUR_LIMIT: usize = 32;

/// A plan for several hours, and what it comes to in each of them.
#[derive(Drop)]
pub struct HoursProposal {
    /// The plan, and the changes of pins that do it.
    pub proposal: Proposal,
    /// What no assignment of the rows to the ranks gets below, in each hour.
    pub bounds: Vec<u64>,
    /// `loads[h * 64 + r]` is the heat of rank r in hour h where each row goes to its planned rank.
    pub loads: Vec<u64>,
    /// The same where each row is now.
    pub before: Vec<u64>,
}

/// Whether there is a weight for each hour, from 1 to 100 percent.
fn are_weights(weights: &[u8], hours: usize) -> bool
    ensures weights { IsTrue result → AreWeights weights.now hours }
    ensures only { AreWeights weights.now hours → IsTrue result }
{
    for weight in weights {
        if *weight == 0 || *weight > 100 {
            return false;
        }
    }
    weights.len() == hours
}

/// What is wrong with hours of so many rows, or with their weights.
pub(crate) fn hours_fault(hours: &[Hour], weights: &[u8], rows: usize) -> Option<HoursError>
    ensures fault { IfSome result (IsHoursFault hours.now weights.now rows) }
    ensures sound { IfNone result (AreCountable hours.now weights.now rows) }
{
    if hours.is_empty() {
        Some(HoursError::NoHour)
    } else if hours.len() > HOUR_LIMIT {
        Some(HoursError::TooMany)
    } else if !are_weights(weights, hours.len()) {
        Some(HoursError::BadWeight)
    } else if !are_hours(hours, rows) {
        Some(HoursError::NotCounted)
    } else {
        None
    }
}

/// The rank that each row goes to with its part.
fn planned_ranks(alloc: Global, part: &[u32], rank: &[Rank]) -> Result<Vec<Rank>, AllocError>
    requires { (i : ℕ) → i < length part.now → slice_index part.now i < length rank.now }
    ensures size { IfOk result (λ found. length found.items ≡ length part.now) }
    ensures ranks { IfOk result (λ found. (i : ℕ) → i < length part.now
        → slice_index found.items i ≡ packed_rank rank.now part.now i) }
{
    let mut found = Vec::with_capacity(alloc, part.len())?;
    for one in part {
        found.push(rank[*one as usize])?;
    }
    Ok(found)
}

/// The loads of a plan of these rows.
pub(crate) fn planned_loads(
    alloc: Global,
    hours: &[Hour],
    part: &[u32],
    rank: &[Rank],
) -> Result<Vec<u64>, AllocError>
    requires hours { AreHours hours.now (length part.now) }
    requires below { (i : ℕ) → i < length part.now → slice_index part.now i < length rank.now }
    ensures { IfOk result (λ loads. AreLoads hours.now (length part.now) (packed_rank rank.now part.now)
        loads.items) }
{
    let ranks = planned_ranks(alloc, part, rank)?;
    loads(alloc, hours, &ranks)
}

/// The loads where each row is now.
fn present_loads(alloc: Global, hours: &[Hour], rows: &[ProblemRow]) -> Result<Vec<u64>, AllocError>
    requires { AreHours hours.now (length rows.now) }
    ensures { IfOk result (λ loads. AreLoads hours.now (length rows.now) (now_at rows.now) loads.items) }
{
    let ranks = ranks_now(alloc, rows)?;
    loads(alloc, hours, &ranks)
}

/// Plans for hours that can be planned for.
fn propose_counted(
    alloc: Global,
    rows: &[ProblemRow],
    wanted: Wanted,
    hours: &[Hour],
    weights: &[u8],
    ranks: RankSet,
    own: &[OwnPins],
) -> Result<HoursProposal, PlanError>
    requires zero { has_rank ranks 0 ≡ true }
    requires own { length own.now ≡ length rows.now }
    requires countable { AreCountable hours.now weights.now (length rows.now) }
    ensures proposal { IfOk result (IsHoursProposal ranks hours.now rows.now weights.now wanted own.now) }
    ensures refused { IfErr result (IsCountedRefusal ranks hours.now rows.now weights.now wanted own.now) }
{
    let shares = shared(alloc, rows, hours, weights, ranks)?;
    let proposal = propose(alloc, &shares.rows, wanted, &shares.hours, ranks, own)?;
    let (part, rank) = (&proposal.plan.part, &proposal.plan.packing.rank);
    let loads = planned_loads(alloc, hours, part, rank)?;
    let before = present_loads(alloc, hours, rows)?;
    Ok(HoursProposal {
        proposal,
        bounds: shares.bounds,
        loads,
        before,
    })
}

/// Plans for all these hours, as `propose` does for one: each counts as much of what no assignment gets below in it as
/// its weight says, a hundred percent where it was seen. The first is the present.
///
/// The heats of the rows are not looked at. Of the only hour the heat itself counts, whatever its weight is.
pub fn propose_for(
    alloc: Global,
    rows: &[ProblemRow],
    wanted: Wanted,
    hours: &[Hour],
    weights: &[u8],
    ranks: RankSet,
    own: &[OwnPins],
) -> Result<HoursProposal, PlanError>
    requires own { length own.now ≡ length rows.now }
    ensures proposal { IfOk result (IsHoursProposal ranks hours.now rows.now weights.now wanted own.now) }
    ensures refused { IfErr result (IsHoursRefusal ranks hours.now rows.now weights.now wanted own.now) }
{
    if !ranks.has(Rank::default()) {
        return Err(PlanError::NoRankZero);
    }
    if let Some(fault) = hours_fault(hours, weights, rows.len()) {
        return Err(PlanError::Hours(fault));
    }
    propose_counted(alloc, rows, wanted, hours, weights, ranks, own)
}
