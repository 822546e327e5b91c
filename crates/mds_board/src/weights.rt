//! How much a hit of each kind counts.
ghost use Rattle.std.specs.Prelude.{◌≡◌};
ghost use Rattle.mds_board.specs.Weights.{is_weight, weighed};

use heat_ledger::DirHits;

/// How much a read and a write count when hits are deposited, in accesses. A board begins with 1 for each.
#[derive(Clone, Copy, Debug, PartialEq, Eq)]
pub struct Weights {
    /// How much a read counts.
    pub read: u8,
    /// How much a write counts.
    pub write: u8,
}

impl Weights {
    /// The accesses that a directory's hits come to.
    pub(crate) fn weigh(self, hits: &DirHits) -> u128
        ensures { result ≡ weighed self hits.now }
    {
        let reads = u128::from(self.read) * u128::from(hits.reads);
        let writes = u128::from(self.write) * u128::from(hits.writes);
        reads + writes
    }
}

/// Whether it is a weight: 1 to 16.
pub(crate) fn is_weight(weight: u8) -> bool
    ensures { result ≡ is_weight weight }
{
    (1..=16).contains(&weight)
}
