//! What the planner is given of the directories.
ghost use Rattle.std.specs.Prelude.{◌≡◌, ◌<◌, ℕ, length, slice_index, IfOk};
ghost use Rattle.ceph_snapshot.specs.Rows.{AreRowsOf, free_heat, planned_heat};

use crate::directory::Directory;
use crate::held::Held;
use mds_types::ProblemRow;
use mds_types::limits::HEAT_LIMIT;
use std::alloc::{AllocError, Global};

/// The heat of each directory that nothing holds, as it was collected, in thousandths; 0 of one that is held.
pub fn free_heats(
    alloc: Global,
    directories: &[Directory],
    holds: &[Held],
) -> Result<Vec<u64>, AllocError>
    requires { length holds.now ≡ length directories.now }
    ensures size { IfOk result (λ heats. length heats.items ≡ length directories.now) }
    ensures heats { IfOk result (λ heats. (i : ℕ) → i < length directories.now
        → slice_index heats.items i ≡ free_heat directories.now holds.now i) }
{
    let mut heats = Vec::with_capacity(alloc, directories.len())?;
    for (at, directory) in directories.iter().enumerate() {
        let is_free = matches!(holds[at], Held::Free);
        heats.push(if is_free { directory.heat } else { 0 })?;
    }
    Ok(heats)
}

/// The heat of each row where directory i has `heats[i]`, in thousandths: what is held is planned with none, as in
/// `rows_of`.
pub fn free_heats_then(alloc: Global, holds: &[Held], heats: &[u64]) -> Result<Vec<u64>, AllocError>
    requires { length heats.now ≡ length holds.now }
    ensures size { IfOk result (λ planned. length planned.items ≡ length holds.now) }
    ensures heats { IfOk result (λ planned. (i : ℕ) → i < length holds.now
        → slice_index planned.items i ≡ planned_heat holds.now (slice_index heats.now) i) }
{
    let mut planned = Vec::with_capacity(alloc, holds.len())?;
    for (at, hold) in holds.iter().enumerate() {
        let is_free = matches!(hold, Held::Free);
        planned.push(if is_free {
            heats[at].min(HEAT_LIMIT)
        } else {
            0
        })?;
    }
    Ok(planned)
}

/// The directories as rows. What is held counts at the rank that holds it, and is planned with no heat or inodes.
pub fn rows_of(
    alloc: Global,
    directories: &[Directory],
    holds: &[Held],
) -> Result<Vec<ProblemRow>, AllocError>
    requires { length holds.now ≡ length directories.now }
    ensures { IfOk result (λ rows. AreRowsOf directories.now holds.now (length directories.now) rows.items) }
{
    let mut rows = Vec::with_capacity(alloc, directories.len())?;
    for (at, directory) in directories.iter().enumerate() {
        let (heat, inodes) = match holds[at] {
            Held::Free => (
                directory.heat.min(HEAT_LIMIT),
                directory.inodes.min(u64::from(u32::MAX)),
            ),
            Held::Pinned(_) | Held::Spread(_) => (0, 0),
        };
        rows.push(ProblemRow {
            parent: directory.parent,
            heat,
            inodes: inodes as u32,
            now: directory.now,
        })?;
    }
    Ok(rows)
}
