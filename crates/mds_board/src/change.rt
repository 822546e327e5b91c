//! Changes of a board, and the replies to them.

use dirtree::Name;
use export_protocol::{Event, Reply};
use heat_ledger::DirHits;
use mds_types::{Dir, Order, Plan, Problem, RankSet};
use std::alloc::{AllocError, Global};
use std::marker::Model;
use std::sync::Arc;

/// Hits on directories, by rising directory, none of them without reads and writes. To a contract it is the list of
/// them.
#[derive(Drop)]
pub struct Hits {
    rows: Vec<DirHits>,
}

impl Model for Hits {
    ghost use Rattle.std.specs.Prelude.{List};
    ghost use Rattle.heat_ledger.specs.declared.dir_hits.DirHits.{DirHits};

    ghost Value = { List DirHits };

    ghost view = { λ hits. hits.rows.items };
}

impl Hits {
    ghost use Rattle.std.specs.Prelude.{◌≡◌};

    /// The hits of a list.
    pub fn new(rows: Vec<DirHits>) -> Hits
        ensures { result ≡ rows.items }
    {
        Hits { rows }
    }

    /// Each directory with its hits.
    pub fn as_slice(&self) -> &[DirHits]
        ensures { result.now ≡ self.now }
    {
        &self.rows
    }
}

/// Export orders at a place of their own, so that a reply without them takes little
/// room. To a contract it is the list of them.
#[derive(Drop)]
pub struct Orders {
    list: Box<Vec<Order>, Global>,
}

impl Model for Orders {
    ghost use Rattle.std.specs.Prelude.{List};
    ghost use Rattle.mds_types.specs.declared.order.Order.{Order};

    ghost Value = { List Order };

    ghost view = { λ orders. orders.list.value.items };
}

impl Orders {
    ghost use Rattle.std.specs.Prelude.{◌≡◌, IfOk};

    /// The orders of a list.
    pub fn new(alloc: Global, list: Vec<Order>) -> Result<Orders, AllocError>
        ensures { IfOk result (λ orders. orders ≡ list.items) }
    {
        Ok(Orders {
            list: Box::new(alloc, list)?,
        })
    }

    /// These orders take the place of those before.
    pub fn set(&mut self, list: Vec<Order>)
        ensures { self.new ≡ list.items }
    {
        *self.list = list;
    }

    /// The orders.
    pub fn as_slice(&self) -> &[Order]
        ensures { result.now ≡ self.now }
    {
        self.list.as_slice()
    }
}

/// An event of the cluster. To a contract it is the event.
#[derive(Drop)]
pub struct KeptEvent {
    event: Event,
}

impl Model for KeptEvent {
    ghost use Rattle.export_protocol.specs.declared.event.Event.{Event};

    ghost Value = { Event };

    ghost view = { λ kept. kept.event };
}

impl KeptEvent {
    ghost use Rattle.std.specs.Prelude.{◌≡◌};

    /// This event.
    pub fn new(event: Event) -> KeptEvent
        ensures { result ≡ event }
    {
        KeptEvent { event }
    }

    /// The event.
    pub fn event(&self) -> &Event
        ensures { result.now ≡ self.now }
    {
        &self.event
    }
}

/// A plan at a place of its own, so that a change without one takes little room. To a contract it is the plan.
#[derive(Drop)]
pub struct KeptPlan {
    plan: Box<Plan, Global>,
}

impl Model for KeptPlan {
    ghost use Rattle.mds_types.specs.declared.plan.Plan.{Plan};

    ghost Value = { Plan };

    ghost view = { λ kept. kept.plan.value };
}

impl KeptPlan {
    ghost use Rattle.std.specs.Prelude.{◌≡◌, IfOk};

    /// The same plan.
    pub fn new(alloc: Global, plan: Plan) -> Result<KeptPlan, AllocError>
        ensures { IfOk result (λ kept. kept ≡ plan) }
    {
        Ok(KeptPlan {
            plan: Box::new(alloc, plan)?,
        })
    }

    /// The plan.
    pub fn plan(&self) -> &Plan
        ensures { result.now ≡ self.now }
    {
        &self.plan
    }
}

/// A problem at a place of its own, which several may keep. To a contract it is the problem.
#[derive(Drop)]
pub struct KeptProblem {
    problem: Arc<Problem, Global>,
}

impl Model for KeptProblem {
    ghost use Rattle.mds_types.specs.Problem.{ProblemData};
    ghost use Rattle.std.specs.Arc.{arc_value};

    ghost Value = { ProblemData };

    ghost view = { λ kept. arc_value kept.problem };
}

impl KeptProblem {
    ghost use Rattle.std.specs.Prelude.{◌≡◌, IfOk};

    /// The same problem.
    pub fn new(alloc: Global, problem: Problem) -> Result<KeptProblem, AllocError>
        ensures { IfOk result (λ kept. kept ≡ problem) }
    {
        Ok(KeptProblem {
            problem: Arc::new(alloc, problem)?,
        })
    }

    /// The same problem at the same place, for one more to keep. It is refused where 2^63 keep it already.
    pub fn shared(&self) -> Result<KeptProblem, AllocError>
        ensures { IfOk result (λ kept. kept ≡ self.now) }
    {
        Ok(KeptProblem {
            problem: Arc::try_clone(&self.problem)?,
        })
    }

    /// The problem.
    pub fn problem(&self) -> &Problem
        ensures { result.now ≡ self.now }
    {
        &self.problem
    }
}

/// A change of a board.
#[derive(Drop)]
pub enum Change {
    /// A directory is made below this parent, with this name and this number of inodes.
    Make(Dir, Name, u32),
    /// A directory is removed.
    Remove(Dir),
    /// A directory is pinned on a rank or, by -1, its own pin is taken away.
    Pin(Dir, i32),
    /// The ranks that the balancer may use are set.
    Mask(RankSet),
    /// How much a read and a write count is set.
    Weights(u8, u8),
    /// A share of the ledger deposits the hits that it has pending.
    Deposit(Hits),
    /// All heats are halved.
    Tick,
    /// An event of the cluster, of those that neither make nor remove a directory.
    Step(KeptEvent),
    /// The problem of the directories that no pin holds is opened.
    Open,
    /// A plan comes into force.
    Adopt(KeptPlan),
}

/// The reply to an accepted change.
#[derive(Drop)]
pub enum Answer {
    /// The directory that was made.
    Dir(Dir),
    /// The cluster's reply.
    Reply(Reply),
    /// The problem that was opened.
    Problem(KeptProblem),
    /// The export orders of the plan that was adopted.
    Orders(Orders),
    /// The change was made, and there is nothing to name.
    Done,
}
