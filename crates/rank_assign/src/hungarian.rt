//! The Hungarian method, by shortest augmenting ways (H. W. Kuhn, "The Hungarian method for the
//! assignment problem", Naval Research Logistics Quarterly 2, 1955; in this form J. Edmonds and
//! R. M. Karp, Journal of the ACM 19(2), 1972).
//!
//! Parts are placed one after the other. At each time prices of parts and ranks show that the parts
//! placed so far are where they cost least. Ranks' prices are never above 0, so they are kept as
//! debts: how far they are below 0. All numbers are whole.
ghost use Rattle.std.specs.Prelude.{◌≡◌, ◌≢◌, ◌<◌, ◌≤◌, ◌+◌, ◌-◌, ◌^◌, ℕ, length, slice_index};
ghost use Rattle.plan_checker.specs.Costs.{cell_at_place};
ghost use Rattle.rank_assign.specs.Matching.{ArePlaced, IsMatching};
ghost use Rattle.rank_assign.specs.Sizes.{CanMatch};
ghost use Rattle.rank_assign.specs.Ways.{near_at, turn_at, via_at, ArePaths, IsHandedTo};

use crate::ways::{Way, reach};

/// Raises the debt of each rank that is nearer than `far` by what it is nearer.
fn raise_debts(debts: &mut [u64], ways: &[Way], far: u64)
    requires size { length ways.now ≡ length debts.old }
    requires debts { (j : ℕ) → j < length debts.old → slice_index debts.old j ≤ 2 ^ 56 }
    requires far { far ≤ 2 ^ 48 }
    ensures { (j : ℕ) → j < length debts.old →
        slice_index debts.new j ≡ slice_index debts.old j + (far - near_at ways.now j) }
{
    for (j, way) in ways.iter().enumerate() {
        debts[j] += far.saturating_sub(way.near);
    }
}

/// Raises the price of each part whose rank is nearer than `far` by what it is nearer.
fn raise_prices(prices: &mut [u64], owners: &[u32], ways: &[Way], far: u64)
    requires size { length ways.now ≡ length owners.now }
    requires prices { (p : ℕ) → p < length prices.old → slice_index prices.old p ≤ 2 ^ 57 }
    requires far { far ≤ 2 ^ 48 }
    requires owned { (j : ℕ) → j < length owners.now → slice_index owners.now j ≤ length prices.old }
    requires once { (i j : ℕ) → i < length owners.now → j < length owners.now → 0 < slice_index owners.now i →
        slice_index owners.now i ≡ slice_index owners.now j → i ≡ j }
    ensures owners { (p j : ℕ) → j < length owners.now → slice_index owners.now j ≡ p + 1 →
        slice_index prices.new p ≡ slice_index prices.old p + (far - near_at ways.now j) }
    ensures others { (p : ℕ) → ((j : ℕ) → j < length owners.now → slice_index owners.now j ≢ p + 1) →
        slice_index prices.new p ≡ slice_index prices.old p }
{
    for (j, way) in ways.iter().enumerate() {
        if owners[j] > 0 {
            prices[owners[j] as usize - 1] += far.saturating_sub(way.near);
        }
    }
}

/// Moves the parts along the way to the free rank `end`, so that the first rank on it is free for
/// `part`, which takes it.
fn hand_over(owners: &mut [u32], ways: &[Way], end: usize, part: usize)
    requires few { part < 64 }
    requires size { length ways.now ≡ length owners.old }
    requires inside { end < length owners.old }
    requires seen { 0 < turn_at ways.now end }
    requires free { slice_index owners.old end ≡ 0 }
    requires placed { ArePlaced (length owners.old) (slice_index owners.old) part }
    requires paths { ArePaths (length owners.old) (slice_index owners.old) (via_at ways.now) (turn_at ways.now) }
    ensures placed { ArePlaced (length owners.old) (slice_index owners.new) (part + 1) }
    ensures handed { (p j : ℕ) → j < length owners.old → slice_index owners.new j ≡ p + 1 →
        IsHandedTo (slice_index owners.old) (via_at ways.now) (turn_at ways.now) part p j }
    ensures free { (j : ℕ) → j < length owners.old → slice_index owners.new j ≡ 0 → slice_index owners.old j ≡ 0 }
{
    let mut place = end;
    while ways[place].via > 0 {
        let before = ways[place].via as usize - 1;
        owners[place] = owners[before];
        place = before;
    }
    owners[place] = part as u32 + 1;
}

/// Places one part more.
fn place_part(
    owners: &mut [u32],
    prices: &mut [u64],
    debts: &mut [u64],
    ways: &mut [Way],
    cells: &[u64],
    part: usize,
)
    requires sizes { CanMatch cells.now prices.old debts.old owners.old ways.old }
    requires part { part < length prices.old }
    requires matching { IsMatching (length prices.old) (length debts.old) (cell_at_place cells.now (length debts.old))
        (slice_index prices.old) (slice_index debts.old) (slice_index owners.old) part }
    ensures { IsMatching (length prices.old) (length debts.old) (cell_at_place cells.now (length debts.old))
        (slice_index prices.new) (slice_index debts.new) (slice_index owners.new) (part + 1) }
{
    let end = reach(ways, cells, debts, prices, owners, part);
    let far = ways[end].near;
    raise_prices(prices, owners, ways, far);
    prices[part] = far;
    raise_debts(debts, ways, far);
    hand_over(owners, ways, end, part);
}

/// Places all parts, with prices that show that they are where they cost least.
pub fn place_parts(
    owners: &mut [u32],
    prices: &mut [u64],
    debts: &mut [u64],
    ways: &mut [Way],
    cells: &[u64],
)
    requires sizes { CanMatch cells.now prices.old debts.old owners.old ways.old }
    requires owners { (j : ℕ) → j < length debts.old → slice_index owners.old j ≡ 0 }
    requires prices { (p : ℕ) → p < length prices.old → slice_index prices.old p ≡ 0 }
    requires debts { (j : ℕ) → j < length debts.old → slice_index debts.old j ≡ 0 }
    ensures { IsMatching (length prices.old) (length debts.old) (cell_at_place cells.now (length debts.old))
        (slice_index prices.new) (slice_index debts.new) (slice_index owners.new) (length prices.old) }
{
    for part in 0..prices.len() {
        place_part(owners, prices, debts, ways, cells, part);
    }
}
