//! The changes of export pins that bring each directory to the rank that a plan gives it.
ghost use Rattle.std.specs.Prelude.{◌≡◌, ◌≤◌, ◌↔◌, length, IfErr, IfOk, IsTrue};
ghost use Rattle.ceph_plan.specs.Candidates.{AreCandidates, IsCandidateRefusal};
ghost use Rattle.ceph_plan.specs.Packing.{HaveHeats};
ghost use Rattle.ceph_plan.specs.Placements.{IsPlacement};
ghost use Rattle.ceph_plan.specs.Proposals.{IsProposal};
ghost use Rattle.ceph_plan.specs.Refusals.{IsProposalRefusal};

use crate::candidate::{Candidate, begun, costed};
use crate::changes::changes_for;
use crate::choice::{Limited, Wanted, choose_within};
use crate::hours::Hour;
use crate::pick::picked;
use crate::plan::{Plannable, Planned};
use crate::plan_error::PlanError;
use crate::row::{PinChange, PinRow};
use mds_types::{ProblemRow, Rank, RankSet};
use std::alloc::Global;

/// The pins that a directory has of its own now, and whether it may go to another rank.
#[derive(Clone, Copy)]
pub struct OwnPins {
    /// A pin that is to stay as it is.
    pub foreign: Option<Rank>,
    /// A pin of an earlier plan.
    pub earlier: Option<Rank>,
    /// Whether it is to be left where it is.
    pub is_left: bool,
}

/// What is asked of the pins, row by row, and the changes that do it.
#[derive(Drop)]
pub struct Proposal {
    /// The plan.
    pub plan: Planned,
    /// What is asked of each directory.
    pub rows: Vec<PinRow>,
    /// The changes, in their order.
    pub changes: Vec<PinChange>,
    /// Whether no more inodes move than are wanted, and all that is to be left is where it is.
    pub is_within: bool,
}

/// The plans of which one is taken, the present placement first, and one that is divided anew last.
fn candidates(
    alloc: Global,
    of: &Plannable<'_>,
    own: &[OwnPins],
    wanted: Wanted,
    limit: u128,
    divided: Planned,
) -> Result<Vec<Candidate>, PlanError>
    requires own { length own.now ≡ length of.now.rows.now }
    requires placed { IsPlacement of.now.ranks of.now.hours.now of.now.rows.now divided }
    ensures candidates { IfOk result (λ found. AreCandidates of.now.ranks of.now.hours.now of.now.rows.now
        own.now wanted.rests divided found.items) }
    ensures refused { IfErr result (IsCandidateRefusal own.now) }
{
    let below = if limit > u128::from(u64::MAX) {
        u64::MAX
    } else {
        limit as u64
    };
    let mut found = begun(alloc, of, own, wanted, below)?;
    found.push(costed(alloc, of, own, wanted.rests, divided)?)?;
    Ok(found)
}

/// Whether no more inodes move than are wanted, and each row that is to be left is where it is.
fn is_within(one: &Candidate, wanted: Wanted) -> bool
    ensures { IsTrue result ↔ ((one.now.plan.moved ≤ wanted.most_inodes) × IsTrue one.now.keeps_left) }
{
    one.plan.moved <= wanted.most_inodes && one.keeps_left
}

/// Plans which rank each row is to be at, and gives the changes of pins that bring it there: wherever it is now, or
/// with what has no pin staying where it is. `own[i]` are row i's own pins.
///
/// The plan is the present placement, one that moves directories from where they are, or that of `choose_plan`.
pub fn propose(
    alloc: Global,
    rows: &[ProblemRow],
    wanted: Wanted,
    hours: &[Hour],
    ranks: RankSet,
    own: &[OwnPins],
) -> Result<Proposal, PlanError>
    requires heats { HaveHeats rows.now hours.now }
    requires own { length own.now ≡ length rows.now }
    ensures proposal { IfOk result (IsProposal ranks hours.now rows.now wanted own.now) }
    ensures refused { IfErr result (IsProposalRefusal ranks hours.now rows.now wanted own.now) }
{
    let Limited { plan, limit } = choose_within(alloc, rows, wanted, hours, ranks)?;
    let of = Plannable { rows, hours, ranks };
    let mut found = candidates(alloc, &of, own, wanted, limit, plan)?;
    let at = picked(&found, wanted, limit);
    let taken = found.swap_remove(at);
    let changes = changes_for(alloc, &taken.rows)?;
    let is_within = is_within(&taken, wanted);
    Ok(Proposal {
        plan: taken.plan,
        rows: taken.rows,
        changes,
        is_within,
    })
}
