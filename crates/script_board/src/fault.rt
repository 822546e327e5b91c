//! Why a line is faulty.
ghost use Rattle.std.specs.Prelude.{◌≡◌};
ghost use Rattle.script_board.specs.declared.fault.Fault.TheVariants.{Memory};
ghost use Rattle.script_board.specs.Fault.{board_fault, tree_fault, work_fault};

use dirtree::TreeError;
use heat_ledger::HitError;
use mds_board::BoardError;
use rank_threads::WorkError;
use std::alloc::{AllocError, AllocFailed};

/// Why a line is faulty. It left everything as it was.
#[derive(Clone, Copy, Debug, PartialEq, Eq)]
pub enum Fault {
    /// No command is spelled so.
    Syntax,
    /// `ranks` was not accepted yet.
    NoRanks,
    /// `ranks` was accepted already.
    RanksAgain,
    /// The allocator refused a growth.
    Memory,
    /// A mask is written as `-1`, or as `0x` and 1 to 16 hexadecimal digits.
    Mask,
    /// The board refused the change.
    Refused(BoardError),
    /// The share of the rank that serves has counted 2^56 hits of the request's kind on the directory.
    ShareFull,
    /// The system gave no thread for the rank.
    NoThread,
    /// A pin holds a directory that is named as a top.
    Pinned,
}

impl From<AllocError> for Fault {
    ghost from_gives = { λ _ e. e ≡ Memory };

    fn from(_e: AllocError) -> Fault {
        Fault::Memory
    }
}

impl<T: Drop> From<AllocFailed<T>> for Fault {
    ghost from_gives = { λ _ e. e ≡ Memory };

    fn from(_e: AllocFailed<T>) -> Fault {
        Fault::Memory
    }
}

impl From<BoardError> for Fault {
    ghost from_gives = { λ error e. e ≡ board_fault error };

    fn from(error: BoardError) -> Fault {
        match error {
            BoardError::Memory => Fault::Memory,
            named => Fault::Refused(named),
        }
    }
}

impl From<TreeError> for Fault {
    ghost from_gives = { λ error e. e ≡ tree_fault error };

    fn from(error: TreeError) -> Fault {
        Fault::from(BoardError::from(error))
    }
}

impl From<WorkError> for Fault {
    ghost from_gives = { λ error e. e ≡ work_fault error };

    fn from(error: WorkError) -> Fault {
        match error {
            WorkError::Board(error) => Fault::from(error),
            WorkError::Share(HitError::NoDir) => Fault::from(TreeError::NoDir),
            WorkError::Share(HitError::ShareFull) => Fault::ShareFull,
            WorkError::NoThread => Fault::NoThread,
        }
    }
}
