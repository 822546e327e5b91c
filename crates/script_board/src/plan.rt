//! The command `plan`: a best plan for the directories that no pin holds.
ghost use Rattle.std.specs.Prelude.{◌≡◌, IfErr, IfOk, OnErr, OnOk};
ghost use Rattle.mds_types.specs.Certificate.{IsBest, IsCertified};
ghost use Rattle.mds_types.specs.declared.plan.Plan.{Plan as ThePlan};
ghost use Rattle.script_board.specs.Fault.{IsDue};
ghost use Rattle.script_board.specs.Plan.{IsPlanned, plan_due};

use crate::fault::Fault;
use crate::script_board::ScriptBoard;
use authority_map::Publisher;
use mds_board::Solver;
use mds_types::{Plan, Problem};
use planner::solve;
use proof_names::Naming;
use std::alloc::{AllocError, Global};
use std::thread::Threads;

/// The planner.
pub struct Planner;

impl Solver for Planner {
    ghost use Rattle.plan_checker.specs.Present.{KeepsBest};
    ghost use Rattle.planner.specs.Fewer.{IsNoWorse};

    ghost also = { λ problem plan. KeepsBest problem plan × IsNoWorse problem plan };

    fn solve<R: Threads + Sync>(
        &self,
        rt: &R,
        alloc: Global,
        problem: &Problem,
    ) -> Result<Plan, AllocError> {
        solve(rt, alloc, problem)
    }
}

impl<J: Naming, M: Publisher<J>> ScriptBoard<J, M> {
    /// Makes a best plan and adopts it. Its orders are kept, in place of earlier ones, for the next `move`.
    pub fn plan<R: Threads + Sync>(&mut self, rt: &R, alloc: Global) -> Result<(), Fault>
        ensures done { OnOk result ((plan : ThePlan) × IsPlanned self.old plan self.new) }
        ensures fault { IfErr result (IsDue (plan_due self.old)) }
        ensures unchanged { OnErr result (self.new ≡ self.old) }
    {
        self.kept = self.board.balance(rt, alloc, &Planner)?;
        Ok(())
    }
}
