//! Who solves a board's problems.
ghost use Rattle.std.specs.Prelude.{IfOk};
ghost use Rattle.std.specs.Thread.{IsSync};
ghost use Rattle.mds_types.specs.Certificate.{IsBest, IsCertified};

use mds_types::{Plan, Problem};
use std::alloc::{AllocError, Global};
use std::thread::Threads;

/// Solves problems, as the planner does.
pub trait Solver {
    ghost use Rattle.mds_types.specs.Problem.{ProblemData};
    ghost use Rattle.mds_types.specs.declared.plan.Plan.{Plan as ThePlan};

    // What this solver promises of its plans beside that they are best and that their proofs hold.
    ghost also: { ProblemData → ThePlan → Type 0 };

    /// A best plan for a problem, with proofs that hold. It fails only when it is out of memory.
    fn solve<R: Threads + Sync>(
        &self,
        rt: &R,
        alloc: Global,
        problem: &Problem,
    ) -> Result<Plan, AllocError>
        requires { IsSync R.row }
        ensures best { IfOk result (IsBest problem.now) }
        ensures certified { IfOk result (IsCertified problem.now) }
        ensures also { IfOk result (also problem.now) };
}
