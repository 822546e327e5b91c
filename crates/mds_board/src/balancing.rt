//! A plan is made and comes into force in one call.
ghost use Rattle.std.specs.Prelude.{◌≡◌, ◌⊎◌, IfOk, IfErr, OnErr, Some, None};
ghost use Rattle.mds_board.specs.State.{balance_refusal, happens};
ghost use Rattle.mds_board.specs.Steps.{IsBalance};

use crate::board_error::BoardError;
use crate::change::{KeptPlan, KeptProblem, Orders};
use crate::opening::{InForce, OpenProblem};
use crate::solver::Solver;
use crate::state::{BoardState, HISTORY_LIMIT};
use authority_map::Publisher;
use mds_types::{Order, Plan, Problem};
use proof_names::Naming;
use std::alloc::{AllocError, Global};
use std::thread::Threads;

/// What a balance did: the problem that was opened, the plan that was adopted,
/// and the plan's orders, to give and to keep.
#[derive(Drop)]
pub struct Balanced {
    /// The problem.
    pub problem: KeptProblem,
    /// The plan.
    pub plan: KeptPlan,
    /// The plan's orders.
    pub given: Vec<Order>,
    /// An equal list.
    pub orders: Orders,
}

impl<J: Naming, M: Publisher<J>> BoardState<J, M> {
    /// Why a balance is refused.
    pub fn balance_refusal(&self) -> Option<BoardError>
        ensures { result ≡ balance_refusal self.now.state }
    {
        if self.events >= HISTORY_LIMIT - 1 {
            return Some(BoardError::HistoryFull);
        }
        if self.usable().is_empty() {
            return Some(BoardError::BalancerOff);
        }
        None
    }

    /// Opens the problem, solves it and adopts the plan: two events. It returns the problem, the plan and its orders,
    /// the orders twice: to give, and to keep.
    #[tactic(auto, unfolding(crate::specs::State::happens))]
    pub fn balance<S: Solver, R: Threads + Sync>(
        &mut self,
        rt: &R,
        alloc: Global,
        solver: &S,
    ) -> Result<Balanced, BoardError>
        ensures ok { IfOk result (λ r. IsBalance S.also self.old r.problem r.plan r.orders self.new) }
        ensures twice { IfOk result (λ r. r.given.items ≡ r.orders) }
        ensures err { IfErr result (λ e. (balance_refusal self.old.state ≡ Some e)
            ⊎ ((balance_refusal self.old.state ≡ None) × (e ≡ BoardError.Memory))) }
        ensures unchanged { OnErr result (self.new ≡ self.old) }
    {
        if let Some(error) = self.balance_refusal() {
            return Err(error);
        }
        let Ok((kept, opening)) = self.problems(alloc) else {
            return Err(BoardError::Memory);
        };
        let Ok(plan) = solved(rt, alloc, solver, kept.problem()) else {
            return Err(BoardError::Memory);
        };
        let Ok((given, orders)) = self.plan_orders(alloc, &opening.dirs, plan.plan()) else {
            return Err(BoardError::Memory);
        };
        let OpenProblem {
            problem,
            dirs,
            changed: _,
        } = opening;
        self.events += 1;
        self.opened = None;
        self.in_force = Some(InForce {
            problem,
            dirs,
            event: self.events,
        });
        self.events += 1;
        Ok(Balanced {
            problem: kept,
            plan,
            given,
            orders,
        })
    }
}

// A best plan for a problem, on memory of its own.
fn solved<S: Solver, R: Threads + Sync>(
    rt: &R,
    alloc: Global,
    solver: &S,
    problem: &Problem,
) -> Result<KeptPlan, AllocError>
    ensures best { IfOk result (λ plan. IsBest problem.now plan) }
    ensures certified { IfOk result (λ plan. IsCertified problem.now plan) }
    ensures also { IfOk result (λ plan. S.also problem.now plan) }
{
    let plan = solver.solve(rt, alloc, problem)?;
    KeptPlan::new(alloc, plan)
}

ghost use Rattle.mds_types.specs.Certificate.{IsBest, IsCertified};
