//! Loads of ranks, hour by hour: tables with 64 numbers an hour.
ghost use Rattle.std.specs.Prelude.{◌≡◌, ◌==◌, ◌<◌, ◌+◌, ◌*◌, ◌^◌, ℕ, length, slice_index, if◌then◌else◌, IfOk};
ghost use Rattle.mds_types.specs.Sums.{max_below};
ghost use Rattle.ceph_plan.specs.Packing.{AreHours, AreLoads, ArePinned, heat_in, heats_in, load, pinned_at, worst};

use crate::hours::Hour;
use mds_types::Rank;
use std::alloc::{AllocError, Global};

/// What is pinned to each rank in each hour.
pub(crate) fn pinned_loads(alloc: Global, hours: &[Hour]) -> Result<Vec<u64>, AllocError>
    requires { ArePinned hours.now }
    ensures size { IfOk result (λ loads. length loads.items ≡ length hours.now * 64) }
    ensures pinned { IfOk result (λ loads. (h r : ℕ) → h < length hours.now → r < 64
        → slice_index loads.items (h * 64 + r) ≡ pinned_at hours.now h r) }
{
    let mut loads = Vec::new(alloc);
    for hour in hours {
        loads.extend_from_slice(&hour.pinned)?;
    }
    Ok(loads)
}

/// Adds a row or a part to what a rank has in each hour.
pub(crate) fn add(loads: &mut Vec<u64>, hours: &[Hour], one: usize, to: usize)
    requires size { length loads.old.items ≡ length hours.now * 64 }
    requires to { to < 64 }
    requires inside { (h : ℕ) → h < length hours.now → one < length (heats_in hours.now h) }
    requires room { (h : ℕ) → h < length hours.now
        → slice_index loads.old.items (h * 64 + to) + heat_in hours.now h one < 2 ^ 64 }
    ensures size { length loads.new.items ≡ length loads.old.items }
    ensures added { (h r : ℕ) → h < length hours.now → r < 64 → slice_index loads.new.items (h * 64 + r)
        ≡ slice_index loads.old.items (h * 64 + r) + (if to == r then heat_in hours.now h one else 0) }
{
    for (h, hour) in hours.iter().enumerate() {
        loads[h * 64 + to] += hour.heats[one];
    }
}

/// The load of each rank in each hour, where row or part i goes to `rank[i]`.
pub fn loads(alloc: Global, hours: &[Hour], rank: &[Rank]) -> Result<Vec<u64>, AllocError>
    requires { AreHours hours.now (length rank.now) }
    ensures { IfOk result (λ loads. AreLoads hours.now (length rank.now) (slice_index rank.now) loads.items) }
{
    let mut loads = pinned_loads(alloc, hours)?;
    for (i, to) in rank.iter().enumerate() {
        add(&mut loads, hours, i, usize::from(to.number()));
    }
    Ok(loads)
}

/// The load of a rank with this row or part, in the hour in which it is greatest.
pub(crate) fn load_with(loads: &[u64], hours: &[Hour], one: usize, at: usize) -> u64
    requires size { length loads.now ≡ length hours.now * 64 }
    requires at { at < 64 }
    requires inside { (h : ℕ) → h < length hours.now → one < length (heats_in hours.now h) }
    requires room { (h : ℕ) → h < length hours.now
        → slice_index loads.now (h * 64 + at) + heat_in hours.now h one < 2 ^ 64 }
    ensures { result ≡ worst hours.now (λ h. slice_index loads.now (h * 64 + at) + heat_in hours.now h one) }
{
    let mut most = 0;
    for (h, hour) in hours.iter().enumerate() {
        most = (loads[h * 64 + at] + hour.heats[one]).max(most);
    }
    most
}

/// The load of a rank, in the hour in which it is greatest.
fn greatest_at(loads: &[u64], hours: usize, at: usize) -> u64
    requires size { length loads.now ≡ hours * 64 }
    requires at { at < 64 }
    ensures { result ≡ max_below hours (λ h. slice_index loads.now (h * 64 + at)) }
{
    let mut most = 0;
    for hour in 0..hours {
        most = loads[hour * 64 + at].max(most);
    }
    most
}

/// The load of each rank, in the hour in which it is greatest, of a table of so many hours.
pub(crate) fn greatest_loads(
    alloc: Global,
    loads: &[u64],
    hours: usize,
) -> Result<Vec<u64>, AllocError>
    requires { length loads.now ≡ hours * 64 }
    ensures size { IfOk result (λ found. length found.items ≡ 64) }
    ensures greatest { IfOk result (λ found. (r : ℕ) → r < 64
        → slice_index found.items r ≡ max_below hours (λ h. slice_index loads.now (h * 64 + r))) }
{
    let mut found = Vec::with_capacity(alloc, 64)?;
    for rank in 0..64 {
        found.push(greatest_at(loads, hours, rank))?;
    }
    Ok(found)
}

/// The load of each rank, in the hour in which it is greatest, where row or part i goes to `rank[i]`.
pub(crate) fn worst_loads(
    alloc: Global,
    hours: &[Hour],
    rank: &[Rank],
) -> Result<Vec<u64>, AllocError>
    requires { AreHours hours.now (length rank.now) }
    ensures size { IfOk result (λ loads. length loads.items ≡ 64) }
    ensures loads { IfOk result (λ loads. (r : ℕ) → r < 64
        → slice_index loads.items r ≡ load hours.now (length rank.now) (slice_index rank.now) r) }
{
    let table = loads(alloc, hours, rank)?;
    greatest_loads(alloc, &table, hours.len())
}
