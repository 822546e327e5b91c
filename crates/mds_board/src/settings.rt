//! Pins, the mask, weights and ticks.
ghost use Rattle.std.specs.Prelude.{◌≡◌, IfErr, OnOk, None};
ghost use Rattle.mds_board.specs.State.{refusal, happens};
ghost use Rattle.mds_board.specs.Steps.{IsStep, spelled};

use crate::board_error::BoardError;
use crate::change::{Answer, Change};
use crate::state::{BoardState, mark};
use crate::weights::{Weights, is_weight};
use authority_map::Publisher;
use mds_types::{Dir, RankSet};
use proof_names::Naming;

impl<J: Naming, M: Publisher<J>> BoardState<J, M> {
    /// Why a tick is refused.
    #[tactic(auto, unfolding(crate::specs::State::refusal))]
    pub fn tick_refusal(&self) -> Option<BoardError>
        ensures { result ≡ refusal self.now.state Change.Tick }
    {
        if self.is_full() {
            return Some(BoardError::HistoryFull);
        }
        None
    }

    /// Halves all heats.
    #[tactic(auto, unfolding(crate::specs::State::happens))]
    pub fn tick(&mut self) -> Result<(), BoardError>
        ensures { IsStep self.old Change.Tick (spelled (λ _. Answer.Done) result) self.new }
    {
        if let Some(error) = self.tick_refusal() {
            return Err(error);
        }
        let Ok(()) = self.heat.tick() else {
            unreachable!()
        };
        self.events += 1;
        Ok(())
    }

    /// Why a mask is refused.
    #[tactic(auto, unfolding(crate::specs::State::refusal))]
    pub fn mask_refusal(&self, mask: RankSet) -> Option<BoardError>
        ensures { result ≡ refusal self.now.state (Change.Mask mask) }
    {
        if self.is_full() {
            return Some(BoardError::HistoryFull);
        }
        None
    }

    /// Says which ranks the balancer may use.
    #[tactic(auto, unfolding(crate::specs::State::happens))]
    pub fn set_mask(&mut self, mask: RankSet) -> Result<(), BoardError>
        ensures { IsStep self.old (Change.Mask mask) (spelled (λ _. Answer.Done) result) self.new }
    {
        if let Some(error) = self.mask_refusal(mask) {
            return Err(error);
        }
        self.mask = mask;
        mark(&mut self.opened, self.events);
        self.events += 1;
        Ok(())
    }

    /// Why weights are refused.
    #[tactic(auto, unfolding(crate::specs::State::refusal))]
    pub fn weights_refusal(&self, read: u8, write: u8) -> Option<BoardError>
        ensures { result ≡ refusal self.now.state (Change.Weights read write) }
    {
        if self.is_full() {
            return Some(BoardError::HistoryFull);
        }
        if !(is_weight(read) && is_weight(write)) {
            return Some(BoardError::BadWeight);
        }
        None
    }

    /// Says how much a read and a write count in the deposits from now on, in accesses: 1 to 16 each.
    #[tactic(auto, unfolding(crate::specs::State::happens))]
    pub fn set_weights(&mut self, read: u8, write: u8) -> Result<(), BoardError>
        ensures { IsStep self.old (Change.Weights read write) (spelled (λ _. Answer.Done) result) self.new }
    {
        if let Some(error) = self.weights_refusal(read, write) {
            return Err(error);
        }
        self.weights = Weights { read, write };
        self.events += 1;
        Ok(())
    }

    /// Why a pin is refused.
    #[tactic(auto, unfolding(crate::specs::State::refusal))]
    pub fn pin_refusal(&self, dir: Dir, pin: i32) -> Option<BoardError>
        ensures { result ≡ refusal self.now.state (Change.Pin dir pin) }
    {
        if self.is_full() {
            return Some(BoardError::HistoryFull);
        }
        match self.pins.can_set(&self.tree, dir, pin) {
            Ok(()) => None,
            Err(error) => Some(BoardError::Pin(error)),
        }
    }

    /// Pins a directory on a rank or, by -1, takes its own pin away.
    #[tactic(auto, unfolding(crate::specs::State::happens))]
    pub fn set_pin(&mut self, dir: Dir, pin: i32) -> Result<(), BoardError>
        ensures { IsStep self.old (Change.Pin dir pin) (spelled (λ _. Answer.Done) result) self.new }
    {
        if let Some(error) = self.pin_refusal(dir, pin) {
            return Err(error);
        }
        let Ok(()) = self.pins.set(&self.tree, dir, pin) else {
            unreachable!()
        };
        mark(&mut self.opened, self.events);
        self.events += 1;
        Ok(())
    }
}
