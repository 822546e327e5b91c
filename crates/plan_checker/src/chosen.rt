//! What parts move at the ranks that were chosen for them.
ghost use Rattle.std.specs.Prelude.{◌≡◌, true, ◌<◌, ◌≤◌, ◌+◌, ◌*◌, ◌^◌, All, length, slice_index};
ghost use Rattle.mds_types.specs.Certificate.{AreRanks};
ghost use Rattle.mds_types.specs.RankSet.{has_rank, rank_count};
ghost use Rattle.plan_checker.specs.Costs.{cell_at, cell_at_place, chosen_cost, rank_place};

use mds_types::{Rank, RankSet};

/// Whether the set has the rank of this number.
pub(crate) fn has_number(ranks: RankSet, number: u8) -> bool
    ensures { result ≡ has_rank ranks number }
{
    match Rank::new(number) {
        Some(rank) => ranks.has(rank),
        None => false,
    }
}

/// How many ranks of the set are smaller.
pub fn place_of(ranks: RankSet, rank: Rank) -> usize
    ensures { result ≡ rank_place ranks rank }
{
    let mut place = 0;
    for number in 0..rank.number() {
        if has_number(ranks, number) {
            place += 1;
        }
    }
    place
}

/// What a part moves at the rank that has this place. There are `width` cells a part.
pub fn cell_at_place(cells: &[u64], width: usize, part: usize, place: usize) -> u64
    requires inside { part * width + place < length cells.now }
    requires few { length cells.now ≤ 4096 }
    ensures { result ≡ cell_at_place cells.now width part place }
{
    cells[part * width + place]
}

/// What a part moves at a rank of the set. There are `width` cells a part, one for each rank.
fn cell_at(cells: &[u64], ranks: RankSet, width: usize, part: usize, rank: Rank) -> u64
    requires rank { has_rank ranks rank ≡ true }
    requires width { width ≡ rank_count ranks }
    requires inside { part * rank_count ranks + rank_count ranks ≤ length cells.now }
    requires few { length cells.now ≤ 4096 }
    ensures { result ≡ cell_at ranks cells.now part rank }
{
    cell_at_place(cells, width, part, place_of(ranks, rank))
}

/// The sum of the parts' costs, where part p goes to rank `rank[p]`.
pub fn chosen_sum(cells: &[u64], ranks: RankSet, rank: &[Rank]) -> u64
    requires size { length cells.now ≡ length rank.now * rank_count ranks }
    requires few { length rank.now ≤ 64 }
    requires ranks { AreRanks ranks (length rank.now) (slice_index rank.now) }
    requires small { All (λ cell. cell ≤ 2 ^ 48) cells.now }
    ensures { result ≡ chosen_cost ranks cells.now (length rank.now) (slice_index rank.now) }
{
    let width = usize::from(ranks.len());
    let mut sum = 0;
    for (p, r) in rank.iter().enumerate() {
        sum += cell_at(cells, ranks, width, p, *r);
    }
    sum
}
