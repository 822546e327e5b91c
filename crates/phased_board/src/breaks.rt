//! What the calling thread of a phase does between its rounds.
ghost use Rattle.std.specs.Prelude.{◌≡◌, ◌⊎◌, ◌+◌, ◌<◌, ℕ, IfErr};
ghost use Rattle.phased_board.specs.Stops.{IsToldWith};
ghost use Rattle.mds_board.specs.declared.board_error.BoardError.{BoardError as TheError};

use mds_board::BoardError;
use mds_types::Rank;

/// A rank that stops before a round of a phase.
#[derive(Clone, Copy, Debug, PartialEq, Eq)]
pub struct RankStop {
    /// The rank.
    pub rank: Rank,
    /// The round, from 1 to 8. Before any other it doesn't stop.
    pub round: u64,
}

/// What happens before each round. The calling thread does it, when each rank's turn in the last round is over.
pub trait Breaks {
    // Whether so many rounds have begun.
    ghost HasBegun: { ℕ → Self → Type 0 };

    /// The next round begins, after this many.
    fn begin(&mut self, begun: u64)
        requires few { begun < 8 }
        requires begun { HasBegun begun self.old }
        ensures { HasBegun (begun + 1) self.new };
}

/// The refusal of a stop that is told where `told` is that of those before: the first, or want of memory if there was
/// any.
pub fn refusal_told(
    told: Result<(), BoardError>,
    next: Result<(), BoardError>,
) -> Result<(), BoardError>
    ensures before { (error : TheError) → IsToldWith told error → IsToldWith result error }
    ensures next { IfErr next (λ error. IsToldWith result error) }
    ensures either { (result ≡ told) ⊎ (result ≡ next) }
{
    if let Err(BoardError::Memory) = next {
        return next;
    }
    match told {
        Ok(()) => next,
        Err(error) => Err(error),
    }
}
