//! Why a board refuses a change.

use dir_pins::PinError;
use dirtree::TreeError;
use export_protocol::StepError;
use mds_types::Refusal;
use std::error::Error;
use std::fmt;

/// Why a board refused a change, which left it as it was.
///
/// It prints as the numbered refusal that it is, with the value where there is one.
#[derive(Clone, Copy, Debug, PartialEq, Eq)]
pub enum BoardError {
    /// The allocator refused a growth.
    Memory,
    /// The tree's refusal.
    Tree(TreeError),
    /// The pins' refusal.
    Pin(PinError),
    /// The cluster's refusal.
    Step(StepError),
    /// No mask was set, or it has no active rank.
    BalancerOff,
    /// No problem is open.
    NoProblem,
    /// This event, the first such since the problem was opened, changed what it was made of.
    Changed(u32),
    /// The plan isn't proved best for the problem that is open.
    NotBest,
    /// As many events as can be were accepted.
    HistoryFull,
    /// A weight of reads or writes isn't 1 to 16.
    BadWeight,
}

impl From<BoardError> for Refusal {
    ghost use Rattle.std.specs.Prelude.{◌≡◌};
    ghost use Rattle.mds_board.specs.Refused.{refusal_of};

    ghost from_gives = { λ error refusal. refusal ≡ refusal_of error };

    fn from(error: BoardError) -> Refusal {
        match error {
            BoardError::Memory => Refusal::Memory,
            BoardError::Tree(error) => Refusal::from(error),
            BoardError::Pin(error) => Refusal::from(error),
            BoardError::Step(error) => Refusal::from(error),
            BoardError::BalancerOff => Refusal::BalancerOff,
            BoardError::NoProblem => Refusal::NoProblem,
            BoardError::Changed(event) => Refusal::Changed(event),
            BoardError::NotBest => Refusal::NotBest,
            BoardError::HistoryFull => Refusal::HistoryFull,
            BoardError::BadWeight => Refusal::BadWeight,
        }
    }
}

impl fmt::Display for BoardError {
    ghost use Rattle.std.specs.Prelude.{Some};
    ghost use Rattle.mds_types.specs.Refusal.{words};
    ghost use Rattle.mds_board.specs.Refused.{refusal_of};

    ghost output = { λ error. Some (words (refusal_of error)) };

    fn fmt<W: fmt::Write>(&self, f: &mut fmt::Formatter<W>) -> fmt::Result {
        fmt::Display::fmt(&Refusal::from(*self), f)
    }
}

impl Error for BoardError {}

impl From<TreeError> for BoardError {
    ghost use Rattle.std.specs.Prelude.{◌≡◌};
    ghost use Rattle.mds_board.specs.Refused.{tree_refused};

    ghost from_gives = { λ error given. given ≡ tree_refused error };

    fn from(error: TreeError) -> BoardError {
        match error {
            TreeError::Memory => BoardError::Memory,
            named => BoardError::Tree(named),
        }
    }
}

impl From<StepError> for BoardError {
    ghost use Rattle.std.specs.Prelude.{◌≡◌};
    ghost use Rattle.mds_board.specs.Refused.{step_refused};

    ghost from_gives = { λ error given. given ≡ step_refused error };

    fn from(error: StepError) -> BoardError {
        match error {
            StepError::Memory => BoardError::Memory,
            named => BoardError::Step(named),
        }
    }
}
