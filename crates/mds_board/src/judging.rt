//! The problem is opened, and a plan adopted.
ghost use Rattle.std.specs.Prelude.{◌≡◌, ◌<◌, IfOk, IsSome, IsTrue, None, false};
ghost use Rattle.mds_types.specs.RankSet.{rank_count};
ghost use Rattle.mds_types.specs.declared.plan.Plan.{Plan};
ghost use Rattle.mds_board.specs.State.{refusal, happens, authorities, dirs_of, enforced};
ghost use Rattle.mds_board.specs.State.{plan_orders, problem_of, rows_of, usable};
ghost use Rattle.mds_board.specs.Steps.{IsStep, IsBestForOpen, IsNotCertified, spelled};

use crate::board_error::BoardError;
use crate::change::{Answer, Change, KeptProblem, Orders};
use crate::opening::{InForce, OpenProblem};
use crate::state::BoardState;
use authority_map::Publisher;
use mds_types::{Dir, Order, Plan, Problem, Rank};
use plan_checker::check;
use proof_names::Naming;
use std::alloc::{AllocError, Global};
use tree_parts::open;

impl<J: Naming, M: Publisher<J>> BoardState<J, M> {
    /// Why no problem is opened.
    #[tactic(auto, unfolding(crate::specs::State::refusal))]
    pub fn open_refusal(&self) -> Option<BoardError>
        ensures { result ≡ refusal self.now.state Change.Open }
    {
        if self.is_full() {
            return Some(BoardError::HistoryFull);
        }
        if self.usable().is_empty() {
            return Some(BoardError::BalancerOff);
        }
        None
    }

    // The rank that has each directory, and rank 0 for a number without one.
    fn authorities(&self, alloc: Global) -> Result<Vec<Rank>, AllocError>
        ensures { IfOk result (λ ranks. ranks.items ≡ authorities self.now.state) }
    {
        let mut ranks = Vec::with_capacity(alloc, self.tree.numbers() as usize)?;
        for number in 0..self.tree.numbers() {
            let rank = self.cluster.authority(Dir::new(number));
            ranks.push(rank.unwrap_or(Rank::default()))?;
        }
        Ok(ranks)
    }

    // The problem twice, to keep and to hold open, with the directories of its rows.
    pub(crate) fn problems(&self, alloc: Global) -> Result<(KeptProblem, OpenProblem), AllocError>
        requires { 0 < rank_count (usable self.now.state) }
        ensures kept { IfOk result (λ p. p.0 ≡ problem_of self.now.state) }
        ensures opening { IfOk result (λ p. p.1 ≡ record {
          problem = problem_of self.now.state;
          dirs = dirs_of
              self.now.state;
          changed = None;
        }) }
    {
        let now = self.authorities(alloc)?;
        let Ok(found) = open(
            alloc,
            &self.tree,
            &self.pins,
            &self.heat,
            &now,
            self.usable(),
        ) else {
            return Err(AllocError);
        };
        let kept = KeptProblem::new(alloc, found.problem)?;
        let opening = OpenProblem {
            problem: kept.shared()?,
            dirs: found.dirs,
            changed: None,
        };
        Ok((kept, opening))
    }

    // The problem to give, to keep and to hold open.
    fn problems_and_one(
        &self,
        alloc: Global,
    ) -> Result<(Problem, KeptProblem, OpenProblem), AllocError>
        requires { 0 < rank_count (usable self.now.state) }
        ensures given { IfOk result (λ p. (p.0 ≡ problem_of self.now.state) × (p.1 ≡ p.0)) }
        ensures opening { IfOk result (λ p. p.2 ≡ record {
          problem = problem_of self.now.state;
          dirs = dirs_of
              self.now.state;
          changed = None;
        }) }
    {
        let (kept, opening) = self.problems(alloc)?;
        let given = kept.problem().copied(alloc)?;
        Ok((given, kept, opening))
    }

    /// Opens the problem of the directories that no pin holds, with their heats and authorities as they are. It is
    /// returned twice: to give, and to keep.
    #[tactic(auto, unfolding(crate::specs::State::happens))]
    pub fn open_problem(&mut self, alloc: Global) -> Result<(Problem, KeptProblem), BoardError>
        ensures step { IsStep self.old Change.Open (spelled (λ p. Answer.Problem p.0) result) self.new }
        ensures twice { IfOk result (λ p. p.1 ≡ p.0) }
    {
        if let Some(error) = self.open_refusal() {
            return Err(error);
        }
        let Ok((given, kept, opening)) = self.problems_and_one(alloc) else {
            return Err(BoardError::Memory);
        };
        self.opened = Some(opening);
        self.events += 1;
        Ok((given, kept))
    }

    /// Why a plan can't be adopted, whatever it is.
    #[tactic(auto, unfolding(crate::specs::State::refusal))]
    pub fn adopt_refusal(&self) -> Option<BoardError>
        ensures { (plan : Plan) → result ≡ refusal self.now.state (Change.Adopt plan) }
    {
        if self.is_full() {
            return Some(BoardError::HistoryFull);
        }
        let Some(opened) = &self.opened else {
            return Some(BoardError::NoProblem);
        };
        match opened.changed {
            Some(event) => Some(BoardError::Changed(event)),
            None => None,
        }
    }

    // Whether the plan is certified for the problem that is open.
    fn judge(&self, alloc: Global, plan: &Plan) -> Result<bool, AllocError>
        requires { IsSome self.now.state.opened }
        ensures best { IfOk result (λ yes. IsTrue yes → IsBestForOpen self.now.state.opened plan.now) }
        ensures not { IfOk result (λ yes. yes ≡ false → IsNotCertified self.now.state.opened plan.now) }
    {
        match &self.opened {
            Some(opened) => check(alloc, opened.problem(), plan),
            None => unreachable!(),
        }
    }

    // The directories of the rows of the problem that is open.
    fn open_rows(&self) -> &[Dir]
        ensures { result.now ≡ rows_of self.now.state.opened }
    {
        match &self.opened {
            Some(opened) => &opened.dirs,
            None => &[],
        }
    }

    // The orders of a plan for the problem that is open, to give and to keep.
    fn orders_of(&self, alloc: Global, plan: &Plan) -> Result<(Vec<Order>, Orders), AllocError>
        ensures given { IfOk result (λ os. os.0.items
            ≡ plan_orders self.now.state (rows_of self.now.state.opened) plan.now) }
        ensures kept { IfOk result (λ os. os.1 ≡ plan_orders self.now.state (rows_of self.now.state.opened) plan.now) }
    {
        self.plan_orders(alloc, self.open_rows(), plan)
    }

    /// Puts a plan in force that is best for the problem that is open. The plan's orders are returned twice: to give,
    /// and to keep.
    #[tactic(auto, unfolding(crate::specs::State::happens))]
    pub fn adopt(&mut self, alloc: Global, plan: &Plan) -> Result<(Vec<Order>, Orders), BoardError>
        ensures step { IsStep self.old (Change.Adopt plan.now) (spelled (λ os. Answer.Orders os.0.items) result)
            self.new }
        ensures twice { IfOk result (λ os. os.1 ≡ os.0.items) }
    {
        if let Some(error) = self.adopt_refusal() {
            return Err(error);
        }
        let Ok(is_best) = self.judge(alloc, plan) else {
            return Err(BoardError::Memory);
        };
        if !is_best {
            return Err(BoardError::NotBest);
        }
        let Ok(orders) = self.orders_of(alloc, plan) else {
            return Err(BoardError::Memory);
        };
        enforce(&mut self.opened, &mut self.in_force, self.events);
        self.events += 1;
        Ok(orders)
    }
}

// The problem that is open and the plan come into force.
fn enforce(opened: &mut Option<OpenProblem>, in_force: &mut Option<InForce>, event: u32)
    requires { IsSome opened.old }
    ensures none { opened.new ≡ None }
    ensures force { in_force.new ≡ enforced opened.old event }
{
    if let Some(
        OpenProblem {
            problem,
            dirs,
            changed: _,
        },
    ) = opened.take()
    {
        *in_force = Some(InForce {
            problem,
            dirs,
            event,
        });
    }
}
