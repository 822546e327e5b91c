//! Why there is no plan.
ghost use Rattle.std.specs.Prelude.{◌≡◌};

use crate::hours_error::HoursError;
use mds_types::ProblemError;
use std::alloc::{AllocError, AllocFailed};
use thiserror::Error;

/// Why there is no plan.
#[derive(Clone, Copy, Debug, PartialEq, Eq, Error)]
pub enum PlanError {
    /// The allocator refused a growth.
    #[error("no memory")]
    Memory,
    /// There is no directory.
    #[error("there is no directory")]
    NoDirectory,
    /// Rank 0 is not among the ranks, but the root can't leave it.
    #[error("rank 0 is not in the mask, but the root directory can't leave rank 0")]
    NoRankZero,
    /// What is pinned to some rank is hotter than 2^57, or not one number a rank.
    #[error("the pinned heat is more than a plan can count")]
    PinnedTooHot,
    /// The root has a pin of its own, which Ceph doesn't allow.
    #[error("the root directory has a pin")]
    PinnedRoot,
    /// The directories are no problem for the planner.
    #[error("the directories can't be planned: {0}")]
    Problem(ProblemError),
    /// The hours, or what they count, can't be planned for.
    #[error("the hours can't be planned for: {0}")]
    Hours(HoursError),
}

impl From<AllocError> for PlanError {
    ghost use Rattle.ceph_plan.specs.declared.plan_error.PlanError.TheVariants as cause;

    ghost from_gives = { λ _ error. error ≡ cause.Memory };

    fn from(_: AllocError) -> PlanError {
        PlanError::Memory
    }
}

impl<T: Drop> From<AllocFailed<T>> for PlanError {
    ghost use Rattle.ceph_plan.specs.declared.plan_error.PlanError.TheVariants as cause;

    ghost from_gives = { λ _ error. error ≡ cause.Memory };

    fn from(_: AllocFailed<T>) -> PlanError {
        PlanError::Memory
    }
}
