//! The parts by their heat.
ghost use Rattle.std.specs.Prelude.{◌≡◌, ◌<◌, ◌≤◌, ℕ, length, map, slice_index, slice_index_or, IfOk};
ghost use Rattle.ceph_plan.specs.Balance.{IsByHeat};
ghost use Rattle.ceph_plan.specs.declared.order.PartHeat.{PartHeat};

use crate::hours::Hour;
use std::alloc::{AllocError, Global};
use std::cmp::Reverse;

/// A part and its heat. The hotter is the greater, of two that are as hot the one of the smaller number.
#[derive(Clone, Copy, PartialEq, Eq, PartialOrd, Ord)]
pub struct PartHeat {
    /// The heat.
    pub heat: u64,
    /// The part.
    pub part: Reverse<u32>,
}

/// Each part and its heat.
fn with_heats(alloc: Global, heats: &[u64]) -> Result<Vec<PartHeat>, AllocError>
    requires few { length heats.now ≤ 65536 }
    ensures size { IfOk result (λ found. length found.items ≡ length heats.now) }
    ensures parts { IfOk result (λ found. (p : ℕ) (past : PartHeat) → p < length heats.now
        → (slice_index_or found.items p past).part.0 ≡ p) }
    ensures heats { IfOk result (λ found. (p : ℕ) (past : PartHeat) → p < length heats.now
        → (slice_index_or found.items p past).heat ≡ slice_index heats.now p) }
{
    let mut found = Vec::with_capacity(alloc, heats.len())?;
    for (part, heat) in heats.iter().enumerate() {
        found.push(PartHeat {
            heat: *heat,
            part: Reverse(part as u32),
        })?;
    }
    Ok(found)
}

/// The parts of these, in their order.
fn parts_of(alloc: Global, sorted: &[PartHeat]) -> Result<Vec<u32>, AllocError>
    ensures { IfOk result (λ parts. parts.items ≡ map (λ (one : PartHeat). one.part.0) sorted.now) }
{
    let mut parts = Vec::with_capacity(alloc, sorted.len())?;
    for one in sorted {
        parts.push(one.part.0)?;
    }
    Ok(parts)
}

/// The parts, the hottest last; of those that are as hot the one of the smallest number.
pub fn by_heat(alloc: Global, heats: &[u64]) -> Result<Vec<u32>, AllocError>
    requires { length heats.now ≤ 65536 }
    ensures { IfOk result (λ order. IsByHeat heats.now order.items) }
{
    let mut sorted = with_heats(alloc, heats)?;
    sorted.sort()?;
    parts_of(alloc, &sorted)
}

/// The parts in each hour, the hottest in it last.
pub fn by_hour(alloc: Global, hours: &[Hour]) -> Result<Vec<Vec<PartHeat>>, AllocError> {
    let mut found = Vec::with_capacity(alloc, hours.len())?;
    for hour in hours {
        if hour.heats.len() > 65536 {
            return Ok(found);
        }
        let mut sorted = with_heats(alloc, &hour.heats)?;
        sorted.sort()?;
        found.push(sorted)?;
    }
    Ok(found)
}
