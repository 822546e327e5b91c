//! Events of the cluster.
ghost use Rattle.std.specs.Prelude.{◌≡◌, ◌<◌, ◌≤◌, ◌++◌, All, IfErr, IfOk, IfSome, None, OnOk, true};
ghost use Rattle.export_machine.specs.Kept.{is_ready};
ghost use Rattle.export_machine.specs.Room.{IsRefusal};
ghost use Rattle.export_protocol.specs.Step.{refusal as step_refusal};
ghost use Rattle.mds_board.specs.State.{refusal, happens, map_change, marked_if};
ghost use Rattle.mds_board.specs.Steps.{IsStep, is_inner, set_by, spelled};

use crate::board_error::BoardError;
use crate::change::{Answer, Change};
use crate::opening::OpenProblem;
use crate::state::{BoardState, mark};
use authority_map::Publisher;
use export_machine::Cluster;
use export_protocol::laws::recorded;
use export_protocol::{Event, Reply, StepError};
use mds_types::Order;
use proof_names::Naming;
use std::alloc::{AllocError, Global};

/// Whether an event neither makes nor removes a directory nor begins a request.
pub fn is_inner(event: &Event) -> bool
    ensures { result ≡ is_inner event.now }
{
    !matches!(event, Event::Made(_) | Event::Gone(_) | Event::Begin(_, _))
}

impl<J: Naming, M: Publisher<J>> BoardState<J, M> {
    /// Why an event of the cluster is refused.
    #[tactic(auto, unfolding(crate::specs::State::refusal))]
    pub fn step_refusal(&self, event: &Event) -> Option<BoardError>
        ensures { result ≡ refusal self.now.state (Change.Step event.now) }
    {
        if self.is_full() {
            return Some(BoardError::HistoryFull);
        }
        match self.cluster.can_apply(event) {
            Ok(()) => None,
            Err(error) => Some(BoardError::Step(error)),
        }
    }

    /// An event of the cluster. One that makes the map name the importer is an operation on the map, too.
    #[tactic(auto, unfolding(crate::specs::State::happens))]
    pub fn step(&mut self, alloc: Global, event: Event) -> Result<Reply, BoardError>
        requires inner { is_inner event ≡ true }
        ensures { IsStep self.old (Change.Step event) (spelled Answer.Reply result) self.new }
    {
        recorded();
        if self.is_full() {
            return Err(BoardError::HistoryFull);
        }
        let order = match prepare::<J, M>(alloc, &mut self.cluster, &mut self.map, &event) {
            Ok(order) => order,
            Err(error) => return Err(BoardError::from(error)),
        };
        let logs = self.cluster.logs_export(&event);
        self.cluster.reached();
        let reply = self.cluster.happen(event);
        name::<J, M>(&mut self.map, order);
        mark_if(logs, &mut self.opened, self.events);
        self.events += 1;
        Ok(reply)
    }
}

// Refuses an event, or takes all memory that it needs. It returns the order whose importer the map is to name then.
fn prepare<J: Naming, M: Publisher<J>>(
    alloc: Global,
    cluster: &mut Cluster,
    map: &mut M,
    event: &Event,
) -> Result<Option<Order>, StepError>
    requires inner { is_inner event.now ≡ true }
    ensures err { IfErr result (IsRefusal cluster.old.world event.now) }
    ensures accepted { OnOk result (step_refusal cluster.old.world event.now ≡ None) }
    ensures ready { OnOk result (is_ready cluster.new event.now ≡ true) }
    ensures world { cluster.new.world ≡ cluster.old.world }
    ensures room { OnOk result (1 ≤ M.room map.new) }
    ensures same { (M.published map.new ≡ M.published map.old) × (M.pending map.new ≡ M.pending map.old) }
    ensures named { IfOk result (λ order. set_by order ≡ map_change cluster.old.world event.now) }
    ensures near { IfOk result (λ order. IfSome order (λ o. All (λ d. d < cluster.old.world.limit) o.dirs)) }
{
    cluster.prepare(event)?;
    match (named_by(alloc, cluster, event), map.reserve()) {
        (Ok(order), Ok(())) => Ok(order),
        _ => Err(StepError::Memory),
    }
}

// The map names the order's importer.
fn name<J: Naming, M: Publisher<J>>(map: &mut M, order: Option<Order>)
    requires room { 1 ≤ M.room map.old }
    requires inside { IfSome order (λ o. All (λ d. d < J.limit) o.dirs) }
    ensures appended { M.pending map.new ≡ M.pending map.old ++ set_by order }
    ensures published { M.published map.new ≡ M.published map.old }
{
    if let Some(order) = order {
        map.set(order.dirs.into_vec(), order.to);
    }
}

fn mark_if(is_marked: bool, opened: &mut Option<OpenProblem>, event: u32)
    ensures { opened.new ≡ marked_if is_marked opened.old event }
{
    if is_marked {
        mark(opened, event);
    }
}

// The order whose importer the map names after this event, if the event makes it name one.
fn named_by(alloc: Global, cluster: &Cluster, event: &Event) -> Result<Option<Order>, AllocError>
    requires accepted { step_refusal cluster.now.world event.now ≡ None }
    requires inner { is_inner event.now ≡ true }
    ensures named { IfOk result (λ order. set_by order ≡ map_change cluster.now.world event.now) }
    ensures near { IfOk result (λ order. IfSome order (λ o. All (λ d. d < cluster.now.world.limit) o.dirs)) }
{
    let Event::Notify(export) = event else {
        return Ok(None);
    };
    match cluster.export(*export) {
        Some(order) => Ok(Some(order.copied(alloc)?)),
        None => unreachable!(),
    }
}
