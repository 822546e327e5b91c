//! One state of a board.
ghost use Rattle.std.specs.Prelude.{◌≡◌, ◌+◌, ◌++◌, ◌≤◌, [], List, replicate, length, nat_le};
ghost use Rattle.std.specs.Prelude.{All, IfOk, IfErr, MatchBool, None, vec_len};
ghost use Rattle.mds_board.specs.State.{event_limit, first_of, marked, start, usable};
ghost use Rattle.mds_board.specs.Steps.{refused_for, IsFitting};
ghost use Rattle.authority_map.specs.Operations.{Operation};

use crate::board_error::BoardError;
use crate::opening::{InForce, OpenProblem};
use crate::weights::Weights;
use authority_map::{MapReader, Published, Publisher};
use dir_pins::Pins;
use dirtree::Tree;
use export_machine::Cluster;
use heat_decay::Heat;
use heat_ledger::{Book, Share};
use mds_types::{Dir, Rank, RankSet};
use proof_names::Naming;
use std::alloc::{AllocError, Global};
use std::marker::Model;

/// Events of a board, at most.
pub const HISTORY_LIMIT: u32 = 1_048_576;

/// One state: what the changes so far have made. `J` names the board.
///
/// A contract sees the state of the definition, whether the ledger is open, how many shares it has, and how much of the
/// map is published. It can't be dropped, only ended, as it has the map's writer.
pub struct BoardState<J: Naming, M: Publisher<J>> {
    pub(crate) tree: Tree,
    pub(crate) pins: Pins,
    pub(crate) heat: Heat,
    pub(crate) weights: Weights,
    pub(crate) mask: RankSet,
    pub(crate) book: Book<J>,
    pub(crate) cluster: Cluster,
    pub(crate) map: M,
    pub(crate) opened: Option<OpenProblem>,
    pub(crate) in_force: Option<InForce>,
    pub(crate) events: u32,
}

impl<J: Naming, M: Publisher<J>> Model for BoardState<J, M> {
    ghost use Rattle.std.specs.Prelude.{◌≡◌};
    ghost use Rattle.mds_board.specs.Steps.{Present, present_of, IsFitting};

    ghost Value = { Present };

    ghost view = { λ b. present_of b.tree b.pins b.heat b.weights b.mask b.book b.cluster.world (M.published b.map)
        (M.pending b.map) b.opened b.in_force b.events };

    ghost invariant = { λ b. IsFitting (present_of b.tree b.pins b.heat b.weights b.mask b.book b.cluster.world
        (M.published b.map) (M.pending b.map) b.opened b.in_force b.events).state × (b.tree.limit ≡ J.limit) };
}

/// This event changed what the problem was made of.
pub(crate) fn mark(opened: &mut Option<OpenProblem>, event: u32)
    ensures { opened.new ≡ marked opened.old event }
{
    if let Some(problem) = opened {
        note(problem, event);
    }
}

fn note(opened: &mut OpenProblem, event: u32)
    ensures { opened.new ≡ record opened.old { changed = first_of opened.old.changed event } }
{
    if opened.changed.is_none() {
        opened.changed = Some(event);
    }
}

/// The error where there was no memory: the cause that applies, if one does.
pub fn or_memory(cause: Option<BoardError>) -> BoardError
    ensures { result ≡ refused_for cause }
{
    match cause {
        Some(error) => error,
        None => BoardError::Memory,
    }
}

impl<J: Naming, M: Publisher<J>> BoardState<J, M> {
    pub(crate) fn is_full(&self) -> bool
        ensures { result ≡ nat_le event_limit self.now.state.events }
    {
        self.events >= HISTORY_LIMIT
    }

    /// The directories.
    pub fn tree(&self) -> &Tree
        ensures { result.now ≡ self.now.state.directories }
    {
        &self.tree
    }

    /// The export pins.
    pub fn pins(&self) -> &Pins
        ensures { result.now ≡ self.now.state.pins }
    {
        &self.pins
    }

    /// The heats of the directories.
    pub fn heat(&self) -> &Heat
        ensures { result.now ≡ self.now.state.heats }
    {
        &self.heat
    }

    /// The cluster of ranks, with its exports and its authorities.
    pub fn cluster(&self) -> &Cluster
        ensures { result.now.world ≡ self.now.state.cluster }
    {
        &self.cluster
    }

    /// The active ranks of the mask: none until a mask was set.
    pub fn usable(&self) -> RankSet
        ensures { result ≡ usable self.now.state }
    {
        self.mask.among(self.pins.active())
    }

    /// The problem that is open.
    pub fn opened(&self) -> &Option<OpenProblem>
        ensures { result.now ≡ self.now.state.opened }
    {
        &self.opened
    }

    /// The plan in force: its problem, the directories of the problem's rows, and the event that adopted it.
    pub fn in_force(&self) -> &Option<InForce>
        ensures { result.now ≡ self.now.state.in_force }
    {
        &self.in_force
    }

    /// The parts of a state fit together. What is published is a beginning of the map's operations. It does nothing.
    pub fn fits(&self)
        ensures fitting { IsFitting self.now.state }
        ensures published { (more : List Operation) × (self.now.published ++ more ≡ self.now.state.map) }
    {
        let _ = &self.events;
    }

    /// How many events were accepted.
    pub fn events(&self) -> u32
        ensures { result ≡ self.now.state.events }
    {
        self.events
    }

    /// Publishes the map, and says whether memory sufficed. It is no event.
    pub fn publish(&mut self) -> bool
        ensures { MatchBool result (self.new ≡ record self.old { published = self.old.state.map })
            (self.new ≡ self.old) }
    {
        self.map.publish().is_ok()
    }

    /// Opens the map anew, for this many readers, which hold all that is published. Readers of before find it closed.
    /// It is no event. Where memory is refused, nothing has changed.
    pub fn reopen(&mut self, alloc: Global, readers: u8) -> Result<Vec<MapReader<J>>, AllocError>
        requires readers { (1 ≤ readers) × (readers ≤ 64) }
        ensures count { IfOk result (λ made. vec_len made ≡ readers) }
        ensures readers { IfOk result (λ made. All (λ reader. reader ≡ self.old.published) made.items) }
        ensures same { self.new ≡ self.old }
    {
        match self.map.reopen(alloc, readers) {
            Ok(made) => Ok(made),
            Err(_) => Err(AllocError),
        }
    }

    /// A token of what is published, for the map's readers.
    pub fn tell(&self) -> Published<J>
        ensures { result ≡ self.now.published }
    {
        self.map.tell()
    }

    /// Ends the map: its readers find it closed.
    pub fn end(self) {
        let BoardState {
            tree: _tree,
            pins: _pins,
            heat: _heat,
            weights: _weights,
            mask: _mask,
            book: _book,
            cluster: _cluster,
            map,
            opened: _opened,
            in_force: _in_force,
            events: _events,
        } = self;
        map.end();
    }
}
