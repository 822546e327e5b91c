//! Plans of one number of parts.
ghost use Rattle.std.specs.Prelude.{◌≡◌, ◌<◌, ◌≤◌, ◌↔◌, ℕ, IfErr, IfOk, IsTrue, length};
ghost use Rattle.mds_types.specs.Problem.{IsForest, heat_at};
ghost use Rattle.ceph_plan.specs.Packing.{HaveHeats};
ghost use Rattle.ceph_plan.specs.Plans.{IsDivided, capped_rows};
ghost use Rattle.ceph_plan.specs.Refusals.{IsPlannable};

use crate::hours::Hour;
use crate::packing::{Packing, Packings, pack};
use crate::plan_error::PlanError;
use mds_types::{ProblemRow, RankSet};
use minmax_search::{BestCut, search_rows};
use std::alloc::{AllocError, Global};

/// What can be planned.
#[derive(Drop)]
pub struct Plannable<'a> {
    /// The directories.
    pub rows: &'a [ProblemRow],
    /// What is counted of each hour. The heat of a row is that of all hours together, or of the only one.
    pub hours: &'a [Hour],
    /// The ranks that may have a part, with rank 0.
    pub ranks: RankSet,
    pub ghost forest: { IsForest rows.now },
    pub ghost able: { IsPlannable ranks hours.now rows.now },
    pub ghost heats: { HaveHeats rows.now hours.now },
}

/// The directories divided into connected parts, and the parts packed on the ranks.
#[derive(Drop)]
pub struct Planned {
    /// `part[i]` is the part of row i.
    pub part: Vec<u32>,
    /// How many parts there are.
    pub count: u32,
    /// The rank of each part, and the load of each rank.
    pub packing: Packing,
    /// The inodes of the rows that are to go to another rank.
    pub moved: u64,
}

/// The directories divided into connected parts, and several packings of the parts on the ranks.
#[derive(Drop)]
pub struct PackedDivision {
    /// `part[i]` is the part of row i.
    pub part: Vec<u32>,
    /// How many parts there are.
    pub count: u32,
    /// The packings.
    pub packings: Packings,
    /// Whether one row is as hot as the hottest part, or none has heat, so that more parts change nothing.
    pub is_heavy: bool,
}

/// How finely rows are divided.
#[derive(Clone, Copy)]
pub struct Size {
    /// At most this many parts.
    pub parts: u32,
    /// No row counts as hotter than this.
    pub cap: u64,
}

/// The rows, none hotter than `cap`.
fn capped(alloc: Global, rows: &[ProblemRow], cap: u64) -> Result<Vec<ProblemRow>, AllocError>
    ensures { IfOk result (λ found. found.items ≡ capped_rows cap rows.now) }
{
    let mut found = Vec::with_capacity(alloc, rows.len())?;
    for row in rows {
        found.push(ProblemRow {
            parent: row.parent,
            heat: row.heat.min(cap),
            inodes: row.inodes,
            now: row.now,
        })?;
    }
    Ok(found)
}

/// Whether some row is at least as hot as this by itself.
fn has_row_of(rows: &[ProblemRow], heat: u64) -> bool
    ensures { IsTrue result ↔ ((i : ℕ) × (i < length rows.now) × (heat ≤ heat_at rows.now i)) }
{
    for row in rows {
        if row.heat >= heat {
            return true;
        }
    }
    false
}

/// Divides the rows into at most `size.parts` parts with the least greatest heat, where no row counts as hotter than
/// `size.cap`, and packs the parts on the ranks by the heat that they have, once for each of `TOLERANCES`.
///
/// Where one row is as hot as the hottest part, no division is cooler, and the rest isn't divided any further. A cap
/// below that row's heat lets the rest be divided as finely as the number of parts allows.
pub fn divide(alloc: Global, of: &Plannable<'_>, size: Size) -> Result<PackedDivision, PlanError>
    requires parts { 0 < size.parts }
    requires few { size.parts ≤ 65536 }
    ensures divided { IfOk result (IsDivided of.now.ranks of.now.hours.now of.now.rows.now size.parts size.cap) }
    ensures refused { IfErr result (λ error. error ≡ PlanError.Memory) }
{
    let capped = capped(alloc, of.rows, size.cap)?;
    let BestCut {
        cut,
        greatest,
        proof: _,
        passes: _,
    } = search_rows(alloc, &capped, size.parts)?;
    let is_heavy = has_row_of(&capped, greatest);
    let packings = pack(alloc, of.rows, &cut.part, cut.count, of.hours, of.ranks)?;
    Ok(PackedDivision {
        part: cut.part,
        count: cut.count,
        packings,
        is_heavy,
    })
}
