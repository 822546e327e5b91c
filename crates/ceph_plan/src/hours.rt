//! What is counted of each hour.
ghost use Rattle.std.specs.Prelude.{◌≡◌, ◌<◌, ℕ, length, slice_index, IfOk};
ghost use Rattle.mds_types.specs.Problem.{heat_at};
ghost use Rattle.ceph_plan.specs.Packing.{ArePinned, HaveHeats, IsOneHour, IsPinnedHeat};

use mds_types::ProblemRow;
use std::alloc::{AllocError, Global};

/// What is counted of one hour: the heat of each row, or of each part, and what is held at each rank.
#[derive(Drop)]
pub struct Hour {
    /// `heats[i]` is the heat of row i, or of part i.
    pub heats: Vec<u64>,
    /// `pinned[r]` is the heat that is held at rank r.
    pub pinned: Vec<u64>,
}

/// The heat of each row.
fn heats_of(alloc: Global, rows: &[ProblemRow]) -> Result<Vec<u64>, AllocError>
    ensures size { IfOk result (λ heats. length heats.items ≡ length rows.now) }
    ensures heats { IfOk result (λ heats. (i : ℕ) → i < length rows.now
        → slice_index heats.items i ≡ heat_at rows.now i) }
{
    let mut heats = Vec::with_capacity(alloc, rows.len())?;
    for row in rows {
        heats.push(row.heat)?;
    }
    Ok(heats)
}

/// The only hour: the heat of the rows, and the heat that is held at each rank.
pub fn one_hour(alloc: Global, rows: &[ProblemRow], pinned: &[u64]) -> Result<Vec<Hour>, AllocError>
    ensures one { IfOk result (λ hours. IsOneHour rows.now pinned.now hours.items) }
    ensures heats { IfOk result (λ hours. HaveHeats rows.now hours.items) }
    ensures pinned { IfOk result (λ hours. IsPinnedHeat pinned.now → ArePinned hours.items) }
{
    let heats = heats_of(alloc, rows)?;
    let pinned = pinned.to_vec(alloc)?;
    let mut hours = Vec::new(alloc);
    hours.push(Hour { heats, pinned })?;
    Ok(hours)
}
