//! What no assignment of whole directories to ranks can get below.
ghost use Rattle.std.specs.Prelude.{◌≡◌, ◌<◌, ◌≤◌, ◌+◌, ◌*◌, ◌^◌, ℕ, true};
ghost use Rattle.std.specs.Prelude.{length, min, slice_index, if◌then◌else◌};
ghost use Rattle.mds_types.specs.Problem.{IsForest, heat_at};
ghost use Rattle.mds_types.specs.RankSet.{has_rank};
ghost use Rattle.mds_types.specs.Sums.{max_below, sum_below};
ghost use Rattle.ceph_plan.specs.Packing.{ArePlanRanks, IsAsGreat, IsBoundOf, IsPinnedHeat, greatest_of, total_of};

use mds_types::{ProblemRow, Rank, RankSet};

/// Whether the set has the rank of this number.
pub fn has_number(ranks: RankSet, number: u8) -> bool
    requires { number < 64 }
    ensures { result ≡ has_rank ranks number }
{
    match Rank::new(number) {
        Some(rank) => ranks.has(rank),
        None => unreachable!(),
    }
}

/// The greatest of the numbers at the ranks of the set.
pub fn most(numbers: &[u64], ranks: RankSet) -> u64
    requires { length numbers.now ≡ 64 }
    ensures { result ≡ greatest_of ranks (slice_index numbers.now) }
{
    let mut most = 0;
    for number in 0..64u8 {
        if has_number(ranks, number) {
            most = numbers[usize::from(number)].max(most);
        }
    }
    most
}

/// The least of the numbers at the ranks of the set.
fn least(numbers: &[u64], ranks: RankSet) -> u64
    requires { ArePlanRanks ranks numbers.now }
    ensures least { (r : ℕ) → has_rank ranks r ≡ true → result ≤ slice_index numbers.now r }
    ensures one { (r : ℕ) × (has_rank ranks r ≡ true) × (slice_index numbers.now r ≡ result) }
{
    let mut least = numbers[0];
    for number in 0..64u8 {
        if has_number(ranks, number) {
            least = numbers[usize::from(number)].min(least);
        }
    }
    least
}

/// The sum of the numbers at the ranks of the set.
pub(crate) fn total(numbers: &[u64], ranks: RankSet) -> u64
    requires { IsPinnedHeat numbers.now }
    ensures total { result ≡ total_of ranks (slice_index numbers.now) }
    ensures small { result ≤ 2 ^ 63 }
{
    let mut total = 0;
    for number in 0..64u8 {
        if has_number(ranks, number) {
            total += numbers[usize::from(number)];
        }
    }
    total
}

/// The heat of all rows.
pub fn total_heat(rows: &[ProblemRow]) -> u64
    requires { IsForest rows.now }
    ensures total { result ≡ sum_below (length rows.now) (heat_at rows.now) }
    ensures small { result ≤ 2 ^ 56 }
{
    let mut total = 0;
    for row in rows {
        total += row.heat;
    }
    total
}

/// The greatest of three: the mean load, rounded up; the hottest directory where least is pinned; the most that is
/// pinned. `all` is the heat of all directories, and `hottest` that of the hottest.
fn bound_of(all: u64, hottest: u64, pinned: &[u64], ranks: RankSet) -> u64
    requires all { all ≤ 2 ^ 62 }
    requires hottest { hottest ≤ 2 ^ 62 }
    requires ranks { ArePlanRanks ranks pinned.now }
    ensures lower { (n : ℕ) (heat : ℕ → ℕ) → all ≤ sum_below n heat → hottest ≤ max_below n heat
        → IsBoundOf ranks pinned.now n heat result }
    ensures three { (n : ℕ) (heat : ℕ → ℕ) → all ≡ sum_below n heat → hottest ≡ max_below n heat
        → IsAsGreat ranks pinned.now n heat result }
{
    let count = u64::from(ranks.len());
    let mean = (all + total(pinned, ranks)).div_ceil(count);
    let single = hottest + least(pinned, ranks);
    mean.max(single).max(most(pinned, ranks))
}

/// No more heat than this is counted.
const MOST_HEAT: u64 = 1 << 62;

/// The sum of the heats, as far as it is counted.
pub(crate) fn sum_of(heats: &[u64]) -> u64
    ensures { result ≡ min (sum_below (length heats.now) (slice_index heats.now)) (2 ^ 62) }
{
    let mut sum = 0;
    for heat in heats {
        sum = (sum + MOST_HEAT.min(*heat)).min(MOST_HEAT);
    }
    sum
}

/// The greatest of the heats, as far as it is counted.
fn hottest_of(heats: &[u64]) -> u64
    ensures { result ≡ min (max_below (length heats.now) (slice_index heats.now)) (2 ^ 62) }
{
    let mut hottest = 0;
    for heat in heats {
        hottest = MOST_HEAT.min(*heat).max(hottest);
    }
    hottest
}

/// What each assignment of directories of these heats to ranks, connected or not, loads at least on some rank. More
/// than 2^62 of heat is not counted.
pub fn heats_bound(heats: &[u64], pinned: &[u64], ranks: RankSet) -> u64
    requires { ArePlanRanks ranks pinned.now }
    ensures lower { IsBoundOf ranks pinned.now (length heats.now) (slice_index heats.now) result }
    ensures three { sum_below (length heats.now) (slice_index heats.now) ≤ 2 ^ 62
        → IsAsGreat ranks pinned.now (length heats.now) (slice_index heats.now) result }
{
    bound_of(sum_of(heats), hottest_of(heats), pinned, ranks)
}
