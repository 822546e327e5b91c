//! Sets of ranks: of numbers, and what two of them share.
ghost use Rattle.std.specs.Prelude.{◌≡◌, ◌==◌, ◌<◌, ◌&&◌, ◌||◌, ◌↔◌, ℕ, true};
ghost use Rattle.mds_types.specs.RankSet.{has_rank};
ghost use Rattle.ceph_dumps.specs.Cluster.{IsListed};

use mds_types::{Rank, RankSet};

/// The bits of a set with one more rank.
fn with_rank(bits: u64, number: u8) -> u64
    requires { number < 64 }
    ensures { (rank : ℕ) → has_rank result rank ≡ ((rank == number) || has_rank bits rank) }
{
    bits | 1 << number
}

/// The set of those of these numbers that are below 64.
pub fn set_of(numbers: &[u32]) -> RankSet
    ensures { (rank : ℕ) → rank < 64 → (has_rank result rank ≡ true) ↔ IsListed numbers.now rank }
{
    let mut bits = 0;
    for number in numbers {
        if *number < 64 {
            bits = with_rank(bits, *number as u8);
        }
    }
    RankSet::from_bits(bits)
}

/// Whether a set has the rank of this number.
fn has_number(ranks: RankSet, number: u8) -> bool
    requires { number < 64 }
    ensures { result ≡ has_rank ranks number }
{
    match Rank::new(number) {
        Some(rank) => ranks.has(rank),
        None => unreachable!(),
    }
}

/// The ranks that both sets have.
pub fn common_ranks(one: RankSet, other: RankSet) -> RankSet
    ensures { (rank : ℕ) → has_rank result rank ≡ (has_rank one rank && has_rank other rank) }
{
    let mut bits = 0;
    for number in 0..64u8 {
        if has_number(one, number) && has_number(other, number) {
            bits = with_rank(bits, number);
        }
    }
    RankSet::from_bits(bits)
}
