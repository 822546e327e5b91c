//! The problem that is open, and the plan in force.

use crate::change::KeptProblem;
use mds_types::{Dir, Problem};
use std::marker::Model;

/// The problem that is open, with the directories of its rows, and the first event
/// since that changed what it was made of.
#[derive(Drop)]
pub struct OpenProblem {
    pub(crate) problem: KeptProblem,
    pub(crate) dirs: Vec<Dir>,
    pub(crate) changed: Option<u32>,
}

impl Model for OpenProblem {
    ghost use Rattle.mds_board.specs.State.{Opened};

    ghost Value = { Opened };

    ghost view = { λ o. record { problem = o.problem; dirs = o.dirs.items; changed = o.changed } };
}

impl OpenProblem {
    ghost use Rattle.std.specs.Prelude.{◌≡◌};

    /// The problem.
    pub fn problem(&self) -> &Problem
        ensures { result.now ≡ self.now.problem }
    {
        self.problem.problem()
    }

    /// The directory of each row of the problem.
    pub fn dirs(&self) -> &[Dir]
        ensures { result.now ≡ self.now.dirs }
    {
        &self.dirs
    }

    /// The first event since the opening that changed what the problem was made of.
    pub fn changed(&self) -> Option<u32>
        ensures { result ≡ self.now.changed }
    {
        self.changed
    }
}

/// The event that put a plan in force, with the plan's problem and the directories of the problem's rows.
#[derive(Drop)]
pub struct InForce {
    pub(crate) problem: KeptProblem,
    pub(crate) dirs: Vec<Dir>,
    pub(crate) event: u32,
}

impl Model for InForce {
    ghost use Rattle.mds_board.specs.State.{Force};

    ghost Value = { Force };

    ghost view = { λ f. record { problem = f.problem; dirs = f.dirs.items; event = f.event } };
}

impl InForce {
    ghost use Rattle.std.specs.Prelude.{◌≡◌};

    /// The problem for which the plan is best.
    pub fn problem(&self) -> &Problem
        ensures { result.now ≡ self.now.problem }
    {
        self.problem.problem()
    }

    /// The directory of each row of the problem.
    pub fn dirs(&self) -> &[Dir]
        ensures { result.now ≡ self.now.dirs }
    {
        &self.dirs
    }

    /// The number of the event that adopted the plan.
    pub fn event(&self) -> u32
        ensures { result ≡ self.now.event }
    {
        self.event
    }
}
