//! What hours count: each as much of what no assignment gets below in it.
ghost use Rattle.std.specs.Prelude.{◌≡◌, ◌<◌, ◌≤◌, ◌^◌, ℕ, IfOk, IsTrue, length, max, slice_index, true};
ghost use Rattle.mds_types.specs.Problem.{row_at};
ghost use Rattle.mds_types.specs.RankSet.{has_rank};
ghost use Rattle.mds_types.specs.Sums.{sum_below};
ghost use Rattle.ceph_plan.specs.Packing.{AreHours, ArePinned, IsPinnedHeat, heat_in, heats_in, pinned_in};
ghost use Rattle.ceph_plan.specs.Shares.{AreShares, CountFor, IsBoundOfHour, scale_of, share_of};

use crate::bound::{heats_bound, sum_of};
use crate::hours::Hour;
use crate::packing::are_pinned;
use mds_types::{ProblemRow, RankSet};
use std::alloc::{AllocError, Global};

/// The bound of an hour is so many parts, where there are several and it counts in full.
pub const SCALE: u64 = 1 << 35;

/// What hours count.
#[derive(Drop)]
pub struct Shares {
    /// The rows, each with what it counts in all hours as its heat.
    pub rows: Vec<ProblemRow>,
    /// What is counted of each hour.
    pub hours: Vec<Hour>,
    /// What each assignment of the rows to ranks loads at least on some rank in each hour, as heat.
    pub bounds: Vec<u64>,
}

/// Whether an hour is of so many rows, and can be counted.
pub(crate) fn is_hour(hour: &Hour, rows: usize) -> bool
    ensures pinned { IsTrue result → IsPinnedHeat hour.now.pinned.items }
    ensures size { IsTrue result → length hour.now.heats.items ≡ rows }
    ensures total { IsTrue result → sum_below rows (slice_index hour.now.heats.items) ≤ 2 ^ 56 }
    ensures only { IsPinnedHeat hour.now.pinned.items → length hour.now.heats.items ≡ rows
        → sum_below rows (slice_index hour.now.heats.items) ≤ 2 ^ 56 → IsTrue result }
{
    hour.heats.len() == rows && sum_of(&hour.heats) <= 1 << 56 && are_pinned(&hour.pinned)
}

/// Whether hours are of so many rows, and can be counted.
pub fn are_hours(hours: &[Hour], rows: usize) -> bool
    ensures hours { IsTrue result → AreHours hours.now rows }
    ensures only { AreHours hours.now rows → IsTrue result }
{
    for hour in hours {
        if !is_hour(hour, rows) {
            return false;
        }
    }
    true
}

/// How many parts of the bound a heat is, where the whole bound is `scale` parts.
fn share_of(scale: u64, bound: u64, heat: u64) -> u64
    requires { 0 < bound }
    ensures { result ≡ share_of scale bound heat }
{
    let parts = (u128::from(heat) * u128::from(scale)).div_ceil(u128::from(bound));
    let most = heat.max(1 << 57);
    if parts < u128::from(most) {
        parts as u64
    } else {
        most
    }
}

/// How many parts the bound of an hour is, by the percent that it counts.
fn scale_of(hours: usize, bound: u64, weight: u8) -> u64
    ensures { result ≡ scale_of hours bound weight }
{
    if hours == 1 {
        bound
    } else {
        SCALE * u64::from(weight) / 100
    }
}

/// What each of these heats counts.
fn shares_of(alloc: Global, scale: u64, bound: u64, heats: &[u64]) -> Result<Vec<u64>, AllocError>
    requires { 0 < bound }
    ensures size { IfOk result (λ found. length found.items ≡ length heats.now) }
    ensures shares { IfOk result (λ found. (i : ℕ) → i < length heats.now
        → slice_index found.items i ≡ share_of scale bound (slice_index heats.now i)) }
{
    let mut found = Vec::with_capacity(alloc, heats.len())?;
    for heat in heats {
        found.push(share_of(scale, bound, *heat))?;
    }
    Ok(found)
}

/// What an hour counts, of so many hours, by its bound and the percent that it counts.
fn share_hour(
    alloc: Global,
    hour: &Hour,
    hours: usize,
    bound: u64,
    weight: u8,
) -> Result<Hour, AllocError>
    ensures heats { IfOk result (λ found. CountFor hours bound weight hour.now.heats.items found.heats.items) }
    ensures pinned { IfOk result (λ found. CountFor hours bound weight hour.now.pinned.items found.pinned.items) }
{
    let bound = bound.max(1);
    let scale = scale_of(hours, bound, weight);
    let heats = shares_of(alloc, scale, bound, &hour.heats)?;
    let pinned = shares_of(alloc, scale, bound, &hour.pinned)?;
    Ok(Hour { heats, pinned })
}

/// What each assignment of the rows of an hour to ranks loads at least on some rank.
fn hour_bound(hour: &Hour, ranks: RankSet) -> u64
    requires zero { has_rank ranks 0 ≡ true }
    requires pinned { IsPinnedHeat hour.now.pinned.items }
    requires total { sum_below (length hour.now.heats.items) (slice_index hour.now.heats.items) ≤ 2 ^ 56 }
    ensures { IsBoundOfHour ranks hour.now.pinned.items hour.now.heats.items result }
{
    heats_bound(&hour.heats, &hour.pinned, ranks)
}

/// What each assignment of rows to ranks loads at least on some rank in each hour.
pub(crate) fn bounds_of(
    alloc: Global,
    hours: &[Hour],
    ranks: RankSet,
) -> Result<Vec<u64>, AllocError>
    requires zero { has_rank ranks 0 ≡ true }
    requires pinned { ArePinned hours.now }
    requires total { (h : ℕ) → h < length hours.now
        → sum_below (length (heats_in hours.now h)) (slice_index (heats_in hours.now h)) ≤ 2 ^ 56 }
    ensures size { IfOk result (λ bounds. length bounds.items ≡ length hours.now) }
    ensures bounds { IfOk result (λ bounds. (h : ℕ) → h < length hours.now → IsBoundOfHour ranks (pinned_in hours.now h)
        (heats_in hours.now h) (slice_index bounds.items h)) }
{
    let mut bounds = Vec::with_capacity(alloc, hours.len())?;
    for hour in hours {
        bounds.push(hour_bound(hour, ranks))?;
    }
    Ok(bounds)
}

/// What a row counts in all hours.
fn together(hours: &[Hour], row: usize) -> u64
    requires few { length hours.now ≤ 32 }
    requires inside { (h : ℕ) → h < length hours.now → row < length (heats_in hours.now h) }
    requires small { (h : ℕ) → h < length hours.now → heat_in hours.now h row ≤ 2 ^ 57 }
    ensures { result ≡ sum_below (length hours.now) (λ h. heat_in hours.now h row) }
{
    let mut sum = 0;
    for hour in hours {
        sum += hour.heats[row];
    }
    sum
}

/// What each hour counts, by its bound and the percent that it counts.
fn shares_by(
    alloc: Global,
    hours: &[Hour],
    bounds: &[u64],
    weights: &[u8],
) -> Result<Vec<Hour>, AllocError>
    requires bounds { length bounds.now ≡ length hours.now }
    requires weights { length weights.now ≡ length hours.now }
    ensures size { IfOk result (λ found. length found.items ≡ length hours.now) }
    ensures heats { IfOk result (λ found. (h : ℕ) → h < length hours.now → CountFor (length hours.now)
        (slice_index bounds.now h) (slice_index weights.now h) (heats_in hours.now h) (heats_in found.items h)) }
    ensures pinned { IfOk result (λ found. (h : ℕ) → h < length hours.now → CountFor (length hours.now)
        (slice_index bounds.now h) (slice_index weights.now h) (pinned_in hours.now h) (pinned_in found.items h)) }
{
    let mut found = Vec::with_capacity(alloc, hours.len())?;
    for (h, hour) in hours.iter().enumerate() {
        found.push(share_hour(alloc, hour, hours.len(), bounds[h], weights[h])?)?;
    }
    Ok(found)
}

/// The rows, each with what it counts in all hours as its heat.
fn with_shares(
    alloc: Global,
    rows: &[ProblemRow],
    shares: &[Hour],
) -> Result<Vec<ProblemRow>, AllocError>
    requires few { length shares.now ≤ 32 }
    requires sizes { (h : ℕ) → h < length shares.now → length (heats_in shares.now h) ≡ length rows.now }
    requires small { (h i : ℕ) → h < length shares.now → i < length rows.now → heat_in shares.now h i ≤ 2 ^ 57 }
    ensures size { IfOk result (λ found. length found.items ≡ length rows.now) }
    ensures rows { IfOk result (λ found. (i : ℕ) → i < length rows.now → row_at found.items i
        ≡ record (row_at rows.now i) { heat = sum_below (length shares.now) (λ h. heat_in shares.now h i) }) }
{
    let mut found = Vec::with_capacity(alloc, rows.len())?;
    for (i, row) in rows.iter().enumerate() {
        found.push(ProblemRow {
            parent: row.parent,
            heat: together(shares, i),
            inodes: row.inodes,
            now: row.now,
        })?;
    }
    Ok(found)
}

/// What hours count: each as much of what no assignment of the rows to ranks gets below in it, and by the percent of
/// `weights`: a hundred where it was seen. The only hour counts its heat, if it counts in full.
///
/// The heats of the rows are not looked at.
pub fn shared(
    alloc: Global,
    rows: &[ProblemRow],
    hours: &[Hour],
    weights: &[u8],
    ranks: RankSet,
) -> Result<Shares, AllocError>
    requires hours { AreHours hours.now (length rows.now) }
    requires few { length hours.now ≤ 32 }
    requires weights { length weights.now ≡ length hours.now }
    requires zero { has_rank ranks 0 ≡ true }
    ensures { IfOk result (AreShares ranks rows.now hours.now weights.now) }
{
    let bounds = bounds_of(alloc, hours, ranks)?;
    let shares = shares_by(alloc, hours, &bounds, weights)?;
    let rows = with_shares(alloc, rows, &shares)?;
    Ok(Shares {
        rows,
        hours: shares,
        bounds,
    })
}
