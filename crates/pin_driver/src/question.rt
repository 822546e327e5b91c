//! What a driver asks of its host, and how it ends.

use mds_types::Rank;

/// How far a plan is, as its stored text says.
#[derive(Clone, Copy, Debug, PartialEq, Eq)]
pub struct Mark {
    /// The changes before this place may be set already, or are set.
    pub begun: usize,
    /// The changes before this place are set, or were passed over.
    pub certain: usize,
}

/// Why a driver stops.
#[derive(Clone, Copy, Debug, PartialEq, Eq)]
pub enum Trouble {
    /// Nothing answered.
    NoAnswer,
    /// The question was refused.
    Refused,
    /// The answer is none to this question.
    Nonsense,
    /// A rank came, went, or changed its state.
    RanksChanged,
    /// There is a health warning that was not there at the begin.
    NewWarning,
    /// The directory has another inode number than the plan has.
    OtherDirectory,
    /// The directory has another pin than the plan has.
    PinChanged,
    /// The directories did not come to their ranks in time.
    TooSlow,
}

/// How a driver ended.
#[derive(Clone, Copy, Debug, PartialEq, Eq)]
pub enum Ending {
    /// All is done.
    Done,
    /// It stopped.
    Stopped(Trouble),
}

/// What a driver asks. Directories are named by the place of their change in the plan.
#[derive(Clone, Copy, Debug, PartialEq, Eq)]
pub enum Question {
    /// Wait this many seconds.
    Wait(u64),
    /// What are the ranks and the health warnings?
    Cluster,
    /// Store the text of the plan with this mark.
    Store(Mark),
    /// Which inode number and which pin has the directory of this change?
    Get(usize),
    /// Set the pin of the directory of this change; `None` removes it.
    Set(usize, Option<Rank>),
    /// Is each directory with a pin at its rank, and does none move?
    Roots,
    /// Nothing more is asked.
    End(Ending),
}
