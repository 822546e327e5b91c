//! A packing, with what it loads on each rank.
ghost use Rattle.std.specs.Prelude.{◌≡◌, ◌<◌, ◌≤◌, ◌↔◌, ℕ, All, length, slice_index, IfOk, IsTrue};
ghost use Rattle.ceph_plan.specs.Balance.{IsEvenPacking, IsPartsPacking, greatest_by};
ghost use Rattle.ceph_plan.specs.Packing.{ArePinned, HaveHeats, HaveParts, IsPinnedHeat};
ghost use Rattle.ceph_plan.specs.Plans.{ArePackings, moved_inodes};
ghost use Rattle.ceph_plan.specs.Refusals.{IsPlannable};

use crate::hours::Hour;
use crate::loads::worst_loads;
use crate::order::{by_heat, by_hour};
use crate::rank_choice::{
    Choice, PartAmounts, even_choice, greatest_heats, kept_choice, part_hours, part_inodes,
};
use mds_types::{ProblemRow, Rank, RankSet};
use std::alloc::{AllocError, Global};

/// Which rank each part goes to, and what that comes to.
#[derive(Drop)]
pub struct Packing {
    /// `rank[p]` is the rank of part p.
    pub rank: Vec<Rank>,
    /// `load[r]` is the heat at rank r: what is pinned there, and its parts', in the hour in which that is most.
    pub load: Vec<u64>,
    /// The greatest load of a rank of the set.
    pub greatest: u64,
    /// The greatest load of the packing of the same parts by heat only.
    pub even: u64,
    /// The percent by which a load may pass that, so that a part stays where it is.
    pub keep: u8,
}

/// A packing, and what it moves.
#[derive(Drop)]
pub struct Packed {
    /// The packing.
    pub packing: Packing,
    /// The inodes of the rows that are to go to another rank.
    pub moved: u64,
}

/// The packings of the same parts.
#[derive(Drop)]
pub struct Packings {
    /// The greatest load of the packing by heat only.
    pub even: u64,
    /// One packing for each of `TOLERANCES`.
    pub each: Vec<Packed>,
}

/// Whether each of these parts is below `count`.
pub fn are_parts(part: &[u32], count: u32) -> bool
    ensures parts { IsTrue result → (i : ℕ) → i < length part.now → slice_index part.now i < count }
    ensures only { All (λ p. p < count) part.now → IsTrue result }
{
    part.iter().all(|part| *part < count)
}

/// Whether this is the heat that is pinned to each of 64 ranks, and not too much of it.
pub fn are_pinned(pinned: &[u64]) -> bool
    ensures { IsTrue result ↔ IsPinnedHeat pinned.now }
{
    pinned.len() == 64 && pinned.iter().all(|heat| *heat <= 1 << 57)
}

/// By how many percent a load may pass the greatest of the packing by heat only: each is tried.
pub const TOLERANCES: &[u8] = &[0, 1, 2, 5, 10, 20, 50, 100];

/// The inodes of the rows whose part goes to another rank than the one that has them.
pub(crate) fn moved(rows: &[ProblemRow], part: &[u32], rank: &[Rank]) -> u64
    requires { HaveParts rows.now part.now (length rank.now) }
    ensures { result ≡ moved_inodes rows.now part.now rank.now (length rows.now) }
{
    let mut moved = 0;
    for (i, row) in rows.iter().enumerate() {
        if rank[part[i] as usize] != row.now {
            moved += u64::from(row.inodes);
        }
    }
    moved
}

/// The packing of parts where a load may pass by `keep` percent the greatest of the packing by heat only.
fn packing_of(
    alloc: Global,
    parts: &PartAmounts<'_>,
    even: &Choice,
    keep: u8,
) -> Result<Packing, AllocError>
    requires even { IsEvenPacking parts.now.ranks parts.now.hours.now parts.now.heats.now parts.now.root
        even.now.rank.items }
    requires greatest { even.now.greatest
        ≡ greatest_by parts.now.ranks parts.now.hours.now parts.now.heats.now even.now.rank.items }
    ensures parts { IfOk result (IsPartsPacking parts.now.ranks parts.now.hours.now parts.now.heats.now
        parts.now.inodes.now parts.now.root even.now.rank.items) }
    ensures keep { IfOk result (λ packing. packing.keep ≡ keep) }
    ensures even { IfOk result (λ packing. packing.even ≡ even.now.greatest) }
{
    let choice = kept_choice(alloc, parts, even, keep)?;
    let load = worst_loads(alloc, parts.hours, &choice.rank)?;
    Ok(Packing {
        rank: choice.rank,
        load,
        greatest: choice.greatest,
        even: even.greatest,
        keep,
    })
}

/// Whether what is pinned in each hour can be counted.
pub(crate) fn have_pinned(hours: &[Hour]) -> bool
    ensures { IsTrue result ↔ ArePinned hours.now }
{
    for hour in hours {
        if !are_pinned(&hour.pinned) {
            return false;
        }
    }
    true
}

/// Packs the parts of rows on ranks, once for each of `TOLERANCES`. `part[i]` is the part of row i. The root's part
/// goes to rank 0.
///
/// Another part stays at the rank that has most of its inodes, unless the load there would pass, by more than the
/// tolerance, the greatest load of the packing by heat only.
pub fn pack(
    alloc: Global,
    rows: &[ProblemRow],
    part: &[u32],
    count: u32,
    hours: &[Hour],
    ranks: RankSet,
) -> Result<Packings, AllocError>
    requires able { IsPlannable ranks hours.now rows.now }
    requires heats { HaveHeats rows.now hours.now }
    requires few { count ≤ 65536 }
    requires parts { HaveParts rows.now part.now count }
    ensures { IfOk result (λ found. ArePackings ranks hours.now rows.now part.now count found.even
        found.each.items) }
{
    let hours = part_hours(alloc, hours, part, count)?;
    let heats = greatest_heats(alloc, &hours, count)?;
    let inodes = part_inodes(alloc, rows, part, count)?;
    let order = by_heat(alloc, &heats)?;
    let sorted = by_hour(alloc, &hours)?;
    let parts = PartAmounts {
        hours: &hours,
        heats: &heats,
        order: &order,
        inodes: &inodes,
        sorted: &sorted,
        root: part[0],
        ranks,
    };
    let even = even_choice(alloc, &parts)?;
    let mut each = Vec::with_capacity(alloc, TOLERANCES.len())?;
    for keep in TOLERANCES {
        let packing = packing_of(alloc, &parts, &even, *keep)?;
        let moved = moved(rows, part, &packing.rank);
        each.push(Packed { packing, moved })?;
    }
    let even = even.greatest;
    Ok(Packings { even, each })
}
