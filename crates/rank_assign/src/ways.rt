//! Shortest ways from the part that is being placed to the ranks, over parts that would move on.
//!
//! A step from a part to a rank costs what the prices leave of its cost there, which is never below
//! 0. A step from a rank to the part that has it costs nothing. This is Dijkstra's algorithm; it ends
//! at the nearest rank that is free. A rank here means its place among the ranks of the set.
ghost use Rattle.std.specs.Prelude.{◌≡◌, ◌≢◌, ◌<◌, ◌≤◌, ◌+◌, ◌-◌, ◌*◌, ◌^◌, ℕ, true};
ghost use Rattle.std.specs.Prelude.{false, length, slice_index, slice_index_or};
ghost use Rattle.plan_checker.specs.Costs.{cell_at_place};
ghost use Rattle.rank_assign.specs.Matching.{IsMatching};
ghost use Rattle.rank_assign.specs.Sizes.{CanMatch, CanStep};
ghost use Rattle.rank_assign.specs.Ways.{near_at, via_at, turn_at, no_way, IsFirstWay};
ghost use Rattle.rank_assign.specs.Ways.{IsImproved, IsReached, IsReaching};

use plan_checker::cell_at_place;

/// The way to a rank.
#[derive(Clone, Copy)]
pub struct Way {
    /// How long it is.
    pub near: u64,
    /// One more than the place of the rank before it, or 0 where it is the way's first.
    pub via: u32,
    /// When the rank was reached: 1 for the first, or 0 where it hasn't been yet.
    pub turn: u32,
}

/// The ways of one step.
fn start(ways: &mut [Way], cells: &[u64], debts: &[u64], part: usize)
    requires { CanStep cells.now debts.now ways.old part }
    ensures { (j : ℕ) → j < length debts.now → IsFirstWay (slice_index_or ways.new j no_way)
        (cell_at_place cells.now (length debts.now) part j + slice_index debts.now j) }
{
    for (j, debt) in debts.iter().enumerate() {
        ways[j] = Way {
            near: cell_at_place(cells, debts.len(), part, j) + *debt,
            via: 0,
            turn: 0,
        };
    }
}

/// The nearest rank that hasn't been reached, and a free one where one is as near.
fn nearest(ways: &[Way], owners: &[u32]) -> usize
    requires size { length owners.now ≡ length ways.now }
    requires some { (j : ℕ) × (j < length ways.now) × (turn_at ways.now j ≡ 0) }
    requires small { (j : ℕ) → j < length ways.now → near_at ways.now j < 2 ^ 60 }
    ensures inside { result < length ways.now }
    ensures unseen { turn_at ways.now result ≡ 0 }
    ensures least { (j : ℕ) → j < length ways.now → turn_at ways.now j ≡ 0
        → near_at ways.now result ≤ near_at ways.now j }
{
    let mut nearest = 0;
    let mut least = u64::MAX;
    for (j, way) in ways.iter().enumerate() {
        let far = way.near * 2 + u64::from(owners[j].min(1));
        if way.turn == 0 && far < least {
            nearest = j;
            least = far;
        }
    }
    nearest
}

/// Marks the rank at this place as reached.
fn mark(ways: &mut [Way], place: usize, turn: u32)
    requires { place < length ways.old }
    ensures here { slice_index_or ways.new place no_way
        ≡ record (slice_index_or ways.old place no_way) { turn = turn } }
    ensures other { (j : ℕ) → j ≢ place → slice_index_or ways.new j no_way ≡ slice_index_or ways.old j no_way }
{
    ways[place].turn = turn;
}

/// Takes another way where it is shorter, which none is once the rank has been reached.
fn improve(way: &mut Way, near: u64, via: u32)
    requires { 0 < way.old.turn → way.old.near ≤ near }
    ensures { IsImproved way.old way.new near via }
{
    if near < way.near {
        way.near = near;
        way.via = via;
    }
}

/// Tries the ways over the rank at place `via`, whose part moves on.
fn relax(ways: &mut [Way], cells: &[u64], debts: &[u64], part: usize, price: u64, via: usize)
    requires step { CanStep cells.now debts.now ways.old part }
    requires via { via < length debts.now }
    requires near { near_at ways.old via ≤ 2 ^ 57 }
    requires reached { (j : ℕ) → j < length debts.now → 0 < turn_at ways.old j
        → near_at ways.old j ≤ near_at ways.old via }
    requires below { (j : ℕ) → j < length debts.now →
        price ≤ cell_at_place cells.now (length debts.now) part j + slice_index debts.now j }
    ensures { (j : ℕ) → j < length debts.now
        → IsImproved (slice_index_or ways.old j no_way) (slice_index_or ways.new j no_way) (near_at ways.old via
        + (cell_at_place cells.now (length debts.now) part j + slice_index debts.now j - price)) (via + 1) }
{
    let near = ways[via].near;
    for (j, debt) in debts.iter().enumerate() {
        let step = cell_at_place(cells, debts.len(), part, j) + *debt - price;
        improve(&mut ways[j], near + step, via as u32 + 1);
    }
}

/// Finds the shortest way to a free rank, and gives its place.
pub fn reach(
    ways: &mut [Way],
    cells: &[u64],
    debts: &[u64],
    prices: &[u64],
    owners: &[u32],
    part: usize,
) -> usize
    requires sizes { CanMatch cells.now prices.now debts.now owners.now ways.old }
    requires part { part < length prices.now }
    requires matching { IsMatching (length prices.now) (length debts.now) (cell_at_place cells.now (length debts.now))
        (slice_index prices.now) (slice_index debts.now) (slice_index owners.now) part }
    ensures { IsReached (length debts.now) (cell_at_place cells.now (length debts.now)) (slice_index prices.now)
        (slice_index debts.now) (slice_index owners.now) part (near_at ways.new) (via_at ways.new)
        (turn_at ways.new) result }
{
    start(ways, cells, debts, part);
    for reached in 0..debts.len() {
        let place = nearest(ways, owners);
        mark(ways, place, reached as u32 + 1);
        if owners[place] == 0 {
            return place;
        }
        let moved = owners[place] as usize - 1;
        relax(ways, cells, debts, moved, prices[moved], place);
    }
    unreachable!()
}
