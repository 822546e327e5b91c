//! At which rank a thread asks its requests.
ghost use Rattle.std.specs.Prelude.{◌≡◌, IfSome, IsNone};
ghost use Rattle.rank_threads.specs.Ways.{At, ByMap, HoldsAsMuch, IsByMap, IsFoundAt, Way, rank_or_zero};

use authority_map::{Found, MapReader};
use mds_types::{Dir, Rank};
use proof_names::Naming;

/// Finds the rank at which a thread asks for a directory. The thread has it for itself, and uses it outside the lock.
pub trait Route: Drop {
    ghost way: { Self → Way };

    /// The rank at which a request on the directory is asked now, or `None` where a reader finds the map closed.
    fn rank_for(&mut self, dir: Dir) -> Option<Rank>
        ensures found { IfSome result (λ rank. IsFoundAt (way self.old) (way self.new) dir rank) }
        ensures closed { IsNone result → IsByMap (way self.old) }
        ensures held { HoldsAsMuch (way self.old) (way self.new) };
}

/// The thread's own rank, whatever the directory.
#[derive(Clone, Copy)]
pub struct OwnRank {
    /// The rank.
    pub rank: Rank,
}

impl Route for OwnRank {
    ghost way = { λ own. At own.rank };

    fn rank_for(&mut self, _dir: Dir) -> Option<Rank> {
        Some(self.rank)
    }
}

/// The rank that a reader of the map finds, and rank 0 where the map has the directory nowhere.
impl<J: Naming> Route for MapReader<J> {
    ghost way = { λ reader. ByMap reader };

    fn rank_for(&mut self, dir: Dir) -> Option<Rank> {
        match self.find(dir) {
            Found::Rank(rank) => Some(rank),
            Found::NoDir => Some(asked_rank(None)),
            Found::Closed => None,
        }
    }
}

// The rank at which a request is asked where a directory was found at a rank, or nowhere.
pub(crate) fn asked_rank(found: Option<Rank>) -> Rank
    ensures { result ≡ rank_or_zero found }
{
    match found {
        Some(rank) => rank,
        None => rank_zero(),
    }
}

fn rank_zero() -> Rank
    ensures { result ≡ 0 }
{
    let Some(rank) = Rank::new(0) else {
        unreachable!()
    };
    rank
}
