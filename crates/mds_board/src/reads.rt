//! What a board says.
ghost use Rattle.std.specs.Prelude.{◌≡◌, ◌++◌, IfOk, MatchOption, None, OnOk};
ghost use Rattle.std.specs.Option.{option_map};
ghost use Rattle.heat_ledger.specs.Rows.{at, entry};
ghost use Rattle.mds_board.specs.State.{pin_orders, start as first_state, usable};
ghost use Rattle.mds_board.specs.InForce.{IsBestInForce, adopted, adopted_at, plan_in_force};
ghost use Rattle.export_protocol.specs.Step.{run, start};
ghost use Rattle.export_protocol.specs.Promises.{OneAuthority};
ghost use Rattle.mds_board.specs.Promises.{AdoptsBest, AdoptsCoolest, IsKept, cluster_event, cluster_events};
ghost use Rattle.mds_board.specs.Stored.{shown_entry};

use crate::board::Board;
use crate::history::{History, Shown};
use crate::{Change, InForce, OpenProblem};
use authority_map::{Published, Publisher};
use dir_pins::Pins;
use dirtree::Tree;
use export_machine::Cluster;
use export_protocol::Event;
use heat_decay::Heat;
use mds_types::{Dir, Kind, Order, Plan, RankSet};
use proof_names::Naming;
use std::alloc::{AllocError, Global};

impl<J: Naming, M: Publisher<J>> Board<J, M> {
    /// The accepted changes, each with its reply, in order.
    pub fn history(&self) -> &History
        ensures { result.now.entries ≡ self.now.history }
    {
        &self.history
    }

    /// The events of the cluster in the history, in order: a directory that was made is `Made`, one that was removed
    /// `Gone`. A new cluster to which they happen is this board's.
    pub fn cluster_events(&self, alloc: Global) -> Result<Vec<Event>, AllocError>
        ensures events { IfOk result (λ found. found.items ≡ cluster_events self.now.history) }
        ensures again { IfOk result (λ found. run (start self.now.state.directories.limit self.now.state.pins.active)
            found.items ≡ self.now.state.cluster) }
    {
        let mut events = Vec::new(alloc);
        for number in 0..self.history.len() {
            list_event(alloc, &mut events, &self.history.at(number))?;
        }
        Ok(events)
    }

    /// What holds of every board, whatever was done to it: its state is the replay of its history, each adopted plan
    /// is best for the problem of its opening, and each directory has exactly one authority. It does nothing.
    pub fn promises(&self)
        ensures kept { IsKept self.now }
        ensures best { AdoptsBest self.now.history }
        ensures coolest { AdoptsCoolest (first_state self.now.state.directories.limit self.now.state.pins.active)
            self.now.history }
        ensures authority { OneAuthority self.now.state.cluster }
    {
        self.state.fits();
        self.state.cluster().promised();
    }

    /// The directories.
    pub fn tree(&self) -> &Tree
        ensures { result.now ≡ self.now.state.directories }
    {
        self.state.tree()
    }

    /// The export pins.
    pub fn pins(&self) -> &Pins
        ensures { result.now ≡ self.now.state.pins }
    {
        self.state.pins()
    }

    /// The heats of the directories.
    pub fn heat(&self) -> &Heat
        ensures { result.now ≡ self.now.state.heats }
    {
        self.state.heat()
    }

    /// The cluster of ranks, with its exports and its authorities.
    pub fn cluster(&self) -> &Cluster
        ensures { result.now.world ≡ self.now.state.cluster }
    {
        self.state.cluster()
    }

    /// The active ranks of the mask: none until a mask was set.
    pub fn usable(&self) -> RankSet
        ensures { result ≡ usable self.now.state }
    {
        self.state.usable()
    }

    /// The problem that is open.
    pub fn opened(&self) -> &Option<OpenProblem>
        ensures { result.now ≡ self.now.state.opened }
    {
        self.state.opened()
    }

    /// The plan in force: its problem, the directories of the problem's rows, and the event that adopted it.
    pub fn in_force(&self) -> &Option<InForce>
        ensures { result.now ≡ self.now.state.in_force }
    {
        self.state.in_force()
    }

    /// The plan in force.
    pub fn plan_in_force(&self) -> Option<&Plan>
        ensures exact { option_map (λ plan. plan.now) result ≡ plan_in_force self.now }
        ensures best { MatchOption result (self.now.state.in_force ≡ None)
            (λ plan. IsBestInForce self.now.state.in_force plan.now) }
    {
        match self.in_force() {
            Some(force) => adopted_at(&self.history, force.event() as usize),
            None => None,
        }
    }

    /// The orders by which each directory that a pin holds comes to the rank of its pin.
    pub fn pin_orders(&self, alloc: Global) -> Result<Vec<Order>, AllocError>
        ensures { IfOk result (λ found. found.items ≡ pin_orders self.now.state) }
    {
        self.state.pin_orders(alloc)
    }

    /// The hits of a kind on a directory that were deposited.
    pub fn counted(&self, dir: Dir, kind: Kind) -> u64
        ensures { result ≡ at self.now.state.counted (entry dir kind) }
    {
        self.state.counted(dir, kind)
    }

    /// The requests on a directory that were begun.
    pub fn begun(&self, dir: Dir) -> u64
        ensures { result ≡ at self.now.state.begun dir }
    {
        self.state.begun(dir)
    }

    /// A token of what is published, for the map's readers.
    pub fn tell(&self) -> Published<J>
        ensures { result ≡ self.now.published }
    {
        self.state.tell()
    }
}

// The plan that a change adopts.
fn adopted(change: &Change) -> Option<&Plan>
    ensures { option_map (λ plan. plan.now) result ≡ adopted change.now }
{
    match change {
        Change::Adopt(plan) => Some(plan.plan()),
        _ => None,
    }
}

// The plan that an event adopted.
fn adopted_at(history: &History, event: usize) -> Option<&Plan>
    ensures { option_map (λ plan. plan.now) result ≡ adopted_at history.now.entries event }
{
    match history.get(event) {
        Some(Shown::Other(entry)) => adopted(&entry.change),
        _ => None,
    }
}

// Lists the event of the cluster that an entry makes, if it makes one.
fn list_event(alloc: Global, events: &mut Vec<Event>, entry: &Shown<'_>) -> Result<(), AllocError>
    ensures { OnOk result (events.new.items ≡ events.old.items ++ cluster_event (shown_entry entry.now).change) }
{
    match entry {
        Shown::Began(rank, dir, _) => events.push(Event::Begin(*rank, *dir))?,
        Shown::Ended(ticket) => events.push(Event::End(*ticket))?,
        Shown::Other(entry) => match &entry.change {
            Change::Make(parent, _, _) => events.push(Event::Made(*parent))?,
            Change::Remove(dir) => events.push(Event::Gone(*dir))?,
            Change::Step(event) => events.push(event.event().copied(alloc)?)?,
            _ => {}
        },
    }
    Ok(())
}
