//! A certificate: a problem, a plan for it and the plan's proofs.

use crate::row_names::RowNames;
use mds_types::{Plan, Problem};

/// A problem, and a plan for it with the plan's proofs. Nothing says that the proofs hold.
#[derive(Drop)]
pub struct Certificate {
    /// The problem.
    pub problem: Problem,
    /// The names of the directories of the problem's rows, which a certificate of version 2 has.
    pub names: Option<RowNames>,
    /// The plan, with its proofs.
    pub plan: Plan,
}
