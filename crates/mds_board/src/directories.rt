//! Directories are made and removed.
ghost use Rattle.std.specs.Prelude.{◌≡◌, ◌<◌, ◌≤◌, ◌∷◌, [], ◌++◌, ℕ, IfOk, OnOk, Option};
ghost use Rattle.mds_board.specs.State.{refusal, happens, set_for};
ghost use Rattle.mds_board.specs.Steps.{IsStep, spelled};

use crate::board_error::BoardError;
use crate::change::{Answer, Change};
use crate::state::{BoardState, mark};
use authority_map::Publisher;
use export_protocol::Event;
use export_protocol::laws::recorded;
use mds_types::{Dir, Rank};
use proof_names::Naming;
use std::alloc::Global;

impl<J: Naming, M: Publisher<J>> BoardState<J, M> {
    /// Why a directory can't be made.
    #[tactic(auto, unfolding(crate::specs::State::refusal))]
    pub fn make_refusal(&self, parent: Dir, name: &str) -> Option<BoardError>
        ensures { (inodes : ℕ) → result ≡ refusal self.now.state (Change.Make parent name.now inodes) }
    {
        if self.is_full() {
            return Some(BoardError::HistoryFull);
        }
        if let Err(error) = self.tree.can_make(parent, name) {
            return Some(BoardError::from(error));
        }
        match self.cluster.can_apply(&Event::Made(parent)) {
            Ok(()) => None,
            Err(error) => Some(BoardError::Step(error)),
        }
    }

    /// Makes a directory below a parent. Its authority is the parent's.
    #[tactic(auto, unfolding(crate::specs::State::happens))]
    pub fn make(
        &mut self,
        alloc: Global,
        parent: Dir,
        name: &str,
        inodes: u32,
    ) -> Result<Dir, BoardError>
        ensures { IsStep self.old (Change.Make parent name.now inodes) (spelled Answer.Dir result) self.new }
    {
        if let Some(error) = self.make_refusal(parent, name) {
            return Err(error);
        }
        let made = Event::Made(parent);
        let (Ok(()), Ok(())) = (self.map.reserve(), self.cluster.reserve(&made)) else {
            return Err(BoardError::Memory);
        };
        let Ok(dir) = self.tree.add(alloc, parent, name, inodes) else {
            return Err(BoardError::Memory);
        };
        self.heat.clear(dir);
        let rank = self.cluster.authority(parent);
        self.cluster.reached();
        recorded();
        self.cluster.happen(made);
        give::<J, M>(&mut self.map, dir, rank);
        mark(&mut self.opened, self.events);
        self.events += 1;
        Ok(dir)
    }

    /// Why a directory can't be removed.
    #[tactic(auto, unfolding(crate::specs::State::refusal))]
    pub fn remove_refusal(&self, dir: Dir) -> Option<BoardError>
        ensures { result ≡ refusal self.now.state (Change.Remove dir) }
    {
        if self.is_full() {
            return Some(BoardError::HistoryFull);
        }
        if let Err(error) = self.tree.can_remove(dir) {
            return Some(BoardError::from(error));
        }
        match self.cluster.can_apply(&Event::Gone(dir)) {
            Ok(()) => None,
            Err(error) => Some(BoardError::Step(error)),
        }
    }

    /// Removes a directory without children on which no request runs and that is in no open export.
    #[tactic(auto, unfolding(crate::specs::State::happens))]
    pub fn remove(&mut self, dir: Dir) -> Result<(), BoardError>
        ensures { IsStep self.old (Change.Remove dir) (spelled (λ _. Answer.Done) result) self.new }
    {
        if let Some(error) = self.remove_refusal(dir) {
            return Err(error);
        }
        let gone = Event::Gone(dir);
        let (Ok(()), Ok(())) = (self.map.reserve(), self.cluster.reserve(&gone)) else {
            return Err(BoardError::Memory);
        };
        let Ok(()) = self.tree.remove(dir) else {
            unreachable!()
        };
        self.cluster.reached();
        recorded();
        self.cluster.happen(gone);
        self.map.clear(dir);
        mark(&mut self.opened, self.events);
        self.events += 1;
        Ok(())
    }
}

// A new directory gets its parent's rank on the map.
fn give<J: Naming, M: Publisher<J>>(map: &mut M, dir: Dir, rank: Option<Rank>)
    requires room { 1 ≤ M.room map.old }
    requires inside { dir < J.limit }
    ensures appended { M.pending map.new ≡ M.pending map.old ++ set_for (dir ∷ []) rank }
    ensures published { M.published map.new ≡ M.published map.old }
{
    if let Some(rank) = rank {
        map.set_one(dir, rank);
    }
}
