//! Whether the prices of a dual proof hold over a table of costs.
//!
//! A cost is below 2^64 and a price is any signed number, so sums are taken in 128 bits.
ghost use Rattle.std.specs.Prelude.{◌≡◌, ◌≢◌, ◌<◌, ◌≤◌, ◌+◌, ◌*◌, ◌↔◌, ℕ, ℤ, pos, ◌+ℤ◌, ◌≤ℤ◌};
ghost use Rattle.std.specs.Prelude.{length, slice_index, slice_index_or, IsTrue};
ghost use Rattle.mds_types.specs.Certificate.{AreRanks};
ghost use Rattle.mds_types.specs.RankSet.{rank_count};
ghost use Rattle.plan_checker.specs.Costs.{cell_at, cell_at_place};
ghost use Rattle.plan_checker.specs.CostPrices.{ArePrices};
ghost use Rattle.plan_checker.specs.Prices.{RankPriceHolds, dual_of};

use crate::cell_at_place;
use mds_types::{DualProof, Rank, RankSet};

/// Whether these are different ranks of the set.
pub fn are_ranks(ranks: RankSet, rank: &[Rank]) -> bool
    ensures { IsTrue result ↔ AreRanks ranks (length rank.now) (slice_index rank.now) }
{
    for (i, r) in rank.iter().enumerate() {
        if !ranks.has(*r) || rank[..i].contains(r) {
            return false;
        }
    }
    true
}

/// Whether two prices together are no more than a cost.
fn is_within(part_price: i64, rank_price: i64, cost: u64) -> bool
    ensures { IsTrue result ↔ ((part_price +ℤ rank_price) ≤ℤ pos cost) }
{
    i128::from(part_price) + i128::from(rank_price) <= i128::from(cost)
}

/// Whether two prices together are a cost.
fn is_exact(part_price: i64, rank_price: i64, cost: u64) -> bool
    ensures { IsTrue result ↔ ((part_price +ℤ rank_price) ≡ pos cost) }
{
    i128::from(part_price) + i128::from(rank_price) == i128::from(cost)
}

/// Whether two prices together are no more than a cost, and are the cost where the rank is the part's.
fn pair_holds(part_price: i64, rank_price: i64, cost: u64, is_chosen: bool) -> bool
    ensures { IsTrue result ↔ ((part_price +ℤ rank_price) ≤ℤ pos cost
        × (IsTrue is_chosen → (part_price +ℤ rank_price) ≡ pos cost)) }
{
    is_within(part_price, rank_price, cost)
        && (!is_chosen || is_exact(part_price, rank_price, cost))
}

/// Whether a rank's price is not above 0, and is 0 where no part has the rank.
fn sign_holds(price: i64, rank: &[Rank], r: Rank) -> bool
    ensures { IsTrue result ↔ (price ≤ℤ pos 0
        × (((part : ℕ) → part < length rank.now → slice_index rank.now part ≢ r) → price ≡ pos 0)) }
{
    price == 0 || (price < 0 && rank.contains(&r))
}

/// What each part moves at one rank: a column of the table of costs.
#[derive(Clone, Copy)]
struct Column<'a> {
    cells: &'a [u64],
    /// How many ranks the table has.
    width: usize,
    /// The rank's place among them.
    place: usize,
}

/// Whether a dual proof holds at one rank, whose costs and price these are.
fn rank_price_holds(
    column: Column<'_>,
    rank: &[Rank],
    part_price: &[i64],
    r: Rank,
    price: i64,
) -> bool
    requires width { column.width ≤ 64 }
    requires place { column.place < column.width }
    requires parts { length rank.now ≤ 64 }
    requires cells { length column.cells.now ≡ length rank.now * column.width }
    requires prices { length part_price.now ≡ length rank.now }
    ensures { IsTrue result ↔ RankPriceHolds (length rank.now) (slice_index rank.now)
        (λ p. slice_index_or part_price.now p (pos 0))
        (λ p. cell_at_place column.entry.cells.now column.entry.width p column.entry.place) r price }
{
    if !sign_holds(price, rank, r) {
        return false;
    }
    for (p, part_price) in part_price.iter().enumerate() {
        let cost = cell_at_place(column.cells, column.width, p, column.place);
        if !pair_holds(*part_price, price, cost, rank[p] == r) {
            return false;
        }
    }
    true
}

/// Whether these prices of the parts, and of the ranks in rising order, show that no placing of the
/// same parts moves fewer inodes.
fn prices_hold(
    cells: &[u64],
    ranks: RankSet,
    rank: &[Rank],
    part_price: &[i64],
    rank_price: &[i64],
) -> bool
    requires parts { length rank.now ≤ 64 }
    requires cells { length cells.now ≡ length rank.now * rank_count ranks }
    requires ranks { AreRanks ranks (length rank.now) (slice_index rank.now) }
    ensures { IsTrue result ↔ ArePrices ranks (length rank.now) (cell_at ranks cells.now) (slice_index rank.now)
        (dual_of part_price.now rank_price.now) }
{
    let width = usize::from(ranks.len());
    if part_price.len() != rank.len() || rank_price.len() != width {
        return false;
    }
    let mut place = 0;
    for number in 0..64 {
        let Some(r) = Rank::new(number) else {
            continue;
        };
        if ranks.has(r) {
            let price = rank_price[place];
            let column = Column {
                cells,
                width,
                place,
            };
            if !rank_price_holds(column, rank, part_price, r, price) {
                return false;
            }
            place += 1;
        }
    }
    true
}

/// Whether the prices show that no placing of the same parts moves fewer inodes. `cells` are what
/// each part moves at each rank of the set.
pub fn are_prices(cells: &[u64], ranks: RankSet, rank: &[Rank], dual: &DualProof) -> bool
    requires parts { length rank.now ≤ 64 }
    requires cells { length cells.now ≡ length rank.now * rank_count ranks }
    requires ranks { AreRanks ranks (length rank.now) (slice_index rank.now) }
    ensures { IsTrue result ↔
        ArePrices ranks (length rank.now) (cell_at ranks cells.now) (slice_index rank.now) dual.now }
{
    prices_hold(cells, ranks, rank, &dual.part_price, &dual.rank_price)
}
