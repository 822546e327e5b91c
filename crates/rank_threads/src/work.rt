//! Requests, their answers, and why one isn't served.

use heat_ledger::HitError;
use mds_board::BoardError;
use mds_types::{Dir, Kind, Rank, Refusal};
use std::error::Error;
use std::fmt;

/// A request on a directory, with its hits, which are all of its kind.
#[derive(Clone, Copy, Debug, PartialEq, Eq)]
pub struct Work {
    /// The directory.
    pub dir: Dir,
    /// How often it is hit.
    pub hits: u32,
    /// What it does to the directory.
    pub kind: Kind,
}

/// Why a request isn't served, or not whole.
///
/// It prints as the numbered refusal that it is, with the value where there is one.
#[derive(Clone, Copy, Debug, PartialEq, Eq)]
pub enum WorkError {
    /// The request didn't begin.
    Board(BoardError),
    /// A hit wasn't counted. Those before it were.
    Share(HitError),
    /// The system gave no thread for the rank.
    NoThread,
}

impl From<WorkError> for Refusal {
    ghost use Rattle.std.specs.Prelude.{◌≡◌};
    ghost use Rattle.rank_threads.specs.Refused.{refusal_of};

    ghost from_gives = { λ error refusal. refusal ≡ refusal_of error };

    fn from(error: WorkError) -> Refusal {
        match error {
            WorkError::Board(error) => Refusal::from(error),
            WorkError::Share(error) => Refusal::from(error),
            WorkError::NoThread => Refusal::NoThread,
        }
    }
}

impl fmt::Display for WorkError {
    ghost use Rattle.std.specs.Prelude.{Some};
    ghost use Rattle.mds_types.specs.Refusal.{words};
    ghost use Rattle.rank_threads.specs.Refused.{refusal_of};

    ghost output = { λ error. Some (words (refusal_of error)) };

    fn fmt<W: fmt::Write>(&self, f: &mut fmt::Formatter<W>) -> fmt::Result {
        fmt::Display::fmt(&Refusal::from(*self), f)
    }
}

impl Error for WorkError {}

/// What became of a request.
#[derive(Clone, Copy, Debug, PartialEq, Eq)]
pub struct WorkAnswer {
    /// The ticket with which it began.
    pub ticket: Option<u32>,
    /// How many hits were counted.
    pub hits: u32,
    /// Why it wasn't served, or not whole.
    pub refused: Option<WorkError>,
}

impl WorkAnswer {
    ghost use Rattle.std.specs.Prelude.{◌≡◌, None, Some};
    ghost use Rattle.rank_threads.specs.Serving.{no_thread};

    /// The answer to a request that didn't begin.
    pub fn refused(error: WorkError) -> WorkAnswer
        ensures { result ≡ record { ticket = None; hits = 0; refused = Some error } }
    {
        WorkAnswer {
            ticket: None,
            hits: 0,
            refused: Some(error),
        }
    }

    /// The answer to a request of a rank for which there is no thread.
    pub fn no_thread() -> WorkAnswer
        ensures { result ≡ no_thread }
    {
        WorkAnswer::refused(WorkError::NoThread)
    }
}
