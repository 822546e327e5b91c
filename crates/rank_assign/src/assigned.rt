//! The best placing of parts on ranks, with the prices that show that none is better.
ghost use Rattle.std.specs.Prelude.{◌≡◌, ◌≢◌, ◌<◌, ◌≤◌, ◌+◌, ◌*◌, ◌^◌, ℕ, true, length};
ghost use Rattle.std.specs.Prelude.{pos, slice_index, slice_index_or, neg_ℤ, IfOk};
ghost use Rattle.plan_checker.specs.Costs.{cell_at, cell_at_place, chosen_cost, rank_place};
ghost use Rattle.plan_checker.specs.CostPrices.{ArePrices};
ghost use Rattle.mds_types.specs.Certificate.{AreRanks};
ghost use Rattle.mds_types.specs.RankSet.{has_rank, rank_count};
ghost use Rattle.rank_assign.specs.Matching.{ArePlaced, IsMatching};

use crate::hungarian::place_parts;
use crate::table::Costs;
use crate::ways::Way;
use arrayvec::ArrayVec;
use mds_types::{DualProof, Rank, RankSet};
use plan_checker::chosen_sum;
use std::alloc::{AllocError, Global};

/// A placing that moves the fewest inodes.
#[derive(Drop)]
pub struct Assigned {
    /// The rank of each part.
    pub ranks: ArrayVec<Rank, 64>,
    /// The inodes that move.
    pub moved: u64,
    /// Why no placing moves fewer.
    pub proof: DualProof,
}

/// Parts on ranks, with prices.
#[derive(Drop)]
struct Matching {
    owners: Vec<u32>,
    prices: Vec<u64>,
    debts: Vec<u64>,
}

/// Places the parts.
fn placed_parts(alloc: Global, costs: &Costs) -> Result<Matching, AllocError>
    ensures few { IfOk result (λ _. costs.now.count ≤ 64) }
    ensures prices { IfOk result (λ m. length m.prices.items ≡ costs.now.count) }
    ensures small { IfOk result (λ m. (p : ℕ) → p < costs.now.count → slice_index m.prices.items p ≤ 2 ^ 57) }
    ensures debts { IfOk result (λ m. length m.debts.items ≡ rank_count costs.now.ranks) }
    ensures owners { IfOk result (λ m. length m.owners.items ≡ rank_count costs.now.ranks) }
    ensures matching { IfOk result (λ m. IsMatching costs.now.count (rank_count costs.now.ranks)
        (cell_at_place costs.now.cells (rank_count costs.now.ranks)) (slice_index m.prices.items)
        (slice_index m.debts.items) (slice_index m.owners.items) costs.now.count) }
{
    let width = usize::from(costs.ranks().len());
    let mut owners = vec![in alloc; 0; width]?;
    let mut prices = vec![in alloc; 0; costs.count() as usize]?;
    let mut debts = vec![in alloc; 0; width]?;
    let unreached = Way {
        near: 0,
        via: 0,
        turn: 0,
    };
    let mut ways = vec![in alloc; unreached; width]?;
    place_parts(
        &mut owners,
        &mut prices,
        &mut debts,
        &mut ways,
        costs.cells(),
    );
    Ok(Matching {
        owners,
        prices,
        debts,
    })
}

/// Gives a rank to its owner, where it has one.
fn give_rank(rank: &mut [Rank], owner: u32, r: Rank)
    requires { owner ≤ length rank.old }
    ensures owner { (p : ℕ) → owner ≡ p + 1 → slice_index rank.new p ≡ r }
    ensures others { (p : ℕ) → owner ≢ p + 1 → slice_index rank.new p ≡ slice_index rank.old p }
{
    if owner > 0 {
        rank[owner as usize - 1] = r;
    }
}

/// Gives each part its rank. `owners[j]` is one more than the part that has the j-th rank of the set.
fn give_ranks(rank: &mut [Rank], owners: &[u32], ranks: RankSet)
    requires size { length owners.now ≡ rank_count ranks }
    requires placed { ArePlaced (length owners.now) (slice_index owners.now) (length rank.old) }
    ensures { (p r : ℕ) → has_rank ranks r ≡ true → slice_index owners.now (rank_place ranks r) ≡ p + 1 →
        slice_index rank.new p ≡ r }
{
    let mut place = 0;
    for number in 0..64 {
        let Some(r) = Rank::new(number) else {
            continue;
        };
        if ranks.has(r) {
            give_rank(rank, owners[place], r);
            place += 1;
        }
    }
}

/// The rank of each part.
fn ranks_of(owners: &[u32], ranks: RankSet, count: usize) -> ArrayVec<Rank, 64>
    requires few { count ≤ 64 }
    requires size { length owners.now ≡ rank_count ranks }
    requires placed { ArePlaced (length owners.now) (slice_index owners.now) count }
    ensures size { length result.items ≡ count }
    ensures ranks { (p r : ℕ) → has_rank ranks r ≡ true → slice_index owners.now (rank_place ranks r) ≡ p + 1 →
        slice_index result.items p ≡ r }
{
    let mut rank = ArrayVec::new();
    while rank.len() < count {
        rank.push(Rank::default());
    }
    give_ranks(rank.as_mut_slice(), owners, ranks);
    rank
}

/// The prices of the parts as signed numbers.
fn part_prices(alloc: Global, prices: &[u64]) -> Result<Vec<i64>, AllocError>
    requires { (p : ℕ) → p < length prices.now → slice_index prices.now p < 2 ^ 63 }
    ensures size { IfOk result (λ signed. length signed.items ≡ length prices.now) }
    ensures value { IfOk result (λ signed. (p : ℕ) → p < length prices.now →
        slice_index_or signed.items p (pos 0) ≡ pos (slice_index prices.now p)) }
{
    let mut signed = vec![in alloc; 0; prices.len()]?;
    for (p, price) in prices.iter().enumerate() {
        signed[p] = *price as i64;
    }
    Ok(signed)
}

/// The prices of the ranks, which are what they owe below 0.
fn rank_prices(alloc: Global, debts: &[u64]) -> Result<Vec<i64>, AllocError>
    requires { (j : ℕ) → j < length debts.now → slice_index debts.now j < 2 ^ 63 }
    ensures size { IfOk result (λ signed. length signed.items ≡ length debts.now) }
    ensures value { IfOk result (λ signed. (j : ℕ) → j < length debts.now →
        slice_index_or signed.items j (pos 0) ≡ neg_ℤ (pos (slice_index debts.now j))) }
{
    let mut signed = vec![in alloc; 0; debts.len()]?;
    for (j, debt) in debts.iter().enumerate() {
        signed[j] = -(*debt as i64);
    }
    Ok(signed)
}

/// The ranks of the parts, so that no placing on different ranks of the set moves fewer inodes, and
/// prices that show it.
pub fn assign(alloc: Global, costs: &Costs) -> Result<Assigned, AllocError>
    ensures size { IfOk result (λ assigned. length assigned.ranks.items ≡ costs.now.count) }
    ensures ranks { IfOk result (λ assigned. AreRanks costs.now.ranks costs.now.count
        (slice_index assigned.ranks.items)) }
    ensures moved { IfOk result (λ assigned. assigned.moved
        ≡ chosen_cost costs.now.ranks costs.now.cells costs.now.count (slice_index assigned.ranks.items)) }
    ensures least { IfOk result (λ assigned. (other : ℕ → ℕ) → AreRanks costs.now.ranks costs.now.count other →
        assigned.moved ≤ chosen_cost costs.now.ranks costs.now.cells costs.now.count other) }
    ensures prices { IfOk result (λ assigned. ArePrices costs.now.ranks costs.now.count
        (cell_at costs.now.ranks costs.now.cells) (slice_index assigned.ranks.items) assigned.proof) }
{
    let placed = placed_parts(alloc, costs)?;
    let proof = DualProof {
        part_price: part_prices(alloc, &placed.prices)?,
        rank_price: rank_prices(alloc, &placed.debts)?,
    };
    let set = costs.ranks();
    let ranks = ranks_of(&placed.owners, set, costs.count() as usize);
    let moved = chosen_sum(costs.cells(), set, ranks.as_slice());
    Ok(Assigned {
        ranks,
        moved,
        proof,
    })
}
