//! The cut of a problem at a bound.

ghost use Rattle.std.specs.Prelude.{◌≡◌, ◌<◌, ◌≤◌, ◌+◌, ◌-◌, ◌^◌, ℕ, true, false, length, IfOk};
ghost use Rattle.std.specs.Prelude.{IfErr, IfNone, IfSome, OnErr, OnOk, if◌then◌else◌};
ghost use Rattle.mds_types.specs.CutTable.{IsCutTable, cuts_at, is_cut_at};
ghost use Rattle.mds_types.specs.Division.{HasFew};
ghost use Rattle.mds_types.specs.Problem.{IsForest, heat_at};
ghost use Rattle.mds_types.specs.Sums.{count_below};
ghost use Rattle.residual_cut.specs.Cut.{IsCut, IsFirstHot};
ghost use Rattle.residual_cut.specs.CutError.{IfHeavy, is_memory};

use crate::links::{Walk, link};
use crate::numbering::parts;
use crate::walk::{cut_table, first_table};
use mds_types::{CutTable, Problem, ProblemRow, Refusal, Row};
use std::alloc::{AllocError, Global};
use std::error::Error;
use std::fmt;

/// A division into the fewest connected parts within a bound, and the table that shows that none
/// has fewer.
#[derive(Debug, PartialEq, Drop)]
pub struct Cut {
    /// `part[i]` is the part of row i. Parts are numbered by rising top row.
    pub part: Vec<u32>,
    /// How many parts there are.
    pub count: u32,
    /// The table against the bound, a row for each row of the problem.
    pub rows: Vec<Row>,
}

/// Why there is no cut.
#[derive(Clone, Copy, Debug, PartialEq, Eq)]
pub enum CutError {
    /// The allocator refused a growth.
    Memory,
    /// This row, the least such, is hotter than the bound.
    Heavy(u32),
}

impl From<CutError> for Refusal {
    ghost use Rattle.std.specs.Prelude.{◌≡◌};
    ghost use Rattle.residual_cut.specs.CutError.{refusal_of};

    ghost from_gives = { λ error refusal. refusal ≡ refusal_of error };

    fn from(error: CutError) -> Refusal {
        match error {
            CutError::Memory => Refusal::Memory,
            CutError::Heavy(row) => Refusal::Heavy(row),
        }
    }
}

impl fmt::Display for CutError {
    ghost use Rattle.std.specs.Prelude.{Some};
    ghost use Rattle.mds_types.specs.Refusal.{words};
    ghost use Rattle.residual_cut.specs.CutError.{refusal_of};

    ghost output = { λ error. Some (words (refusal_of error)) };

    fn fmt<W: fmt::Write>(&self, f: &mut fmt::Formatter<W>) -> fmt::Result {
        fmt::Display::fmt(&Refusal::from(*self), f)
    }
}

impl Error for CutError {}

impl From<AllocError> for CutError {
    ghost use Rattle.std.specs.Prelude.{◌≡◌};
    ghost use Rattle.residual_cut.specs.declared.cut.CutError.TheVariants.{Memory};

    ghost from_gives = { λ _ e. e ≡ Memory };

    fn from(_: AllocError) -> Self {
        CutError::Memory
    }
}

/// The least row that is hotter than the bound.
fn first_hot(rows: &[ProblemRow], bound: u64) -> Option<u32>
    requires { IsForest rows.now }
    ensures hot { IfSome result (IsFirstHot rows.now bound) }
    ensures cool { IfNone result ((i : ℕ) → i < length rows.now → heat_at rows.now i ≤ bound) }
{
    for (i, row) in rows.iter().enumerate() {
        if row.heat > bound {
            return Some(i as u32);
        }
    }
    None
}

/// The table against the bound.
fn make_table(alloc: Global, of: Walk<'_>) -> Result<Vec<Row>, AllocError>
    ensures table { IfOk result (λ table. IsCutTable of.entry.rows.now table.items of.entry.bound) }
    ensures counted { IfOk result (λ table. cuts_at table.items 0
        ≡ count_below (length of.entry.rows.now) (is_cut_at table.items)) }
    ensures few { IfOk result (λ table. HasFew of.entry.rows.now (cuts_at table.items 0 + 1) of.entry.bound) }
{
    let mut table = first_table(alloc, of.rows)?;
    cut_table(alloc, of, &mut table)?;
    Ok(table)
}

/// The table against the bound. The walk is counted in `passes`.
pub fn table_linked(alloc: Global, of: Walk<'_>, passes: &mut u32) -> Result<CutTable, AllocError>
    requires { passes.old < 2 ^ 32 - 1 }
    ensures table { IfOk result (λ table. IsCutTable of.entry.rows.now table of.entry.bound) }
    ensures few { IfOk result (λ table. HasFew of.entry.rows.now (cuts_at table 0 + 1) of.entry.bound) }
    ensures passes { OnOk result (passes.new ≡ passes.old + 1) }
    ensures uncounted { OnErr result (passes.new ≡ passes.old) }
{
    let table = make_table(alloc, of)?;
    *passes += 1;
    Ok(CutTable::new(table))
}

/// Cuts rows whose children are linked. The walk is counted in `passes`.
pub fn cut_linked(alloc: Global, of: Walk<'_>, passes: &mut u32) -> Result<Cut, AllocError>
    requires { passes.old < 2 ^ 32 - 1 }
    ensures cut { IfOk result (IsCut of.entry.rows.now of.entry.bound) }
    ensures passes { OnOk result (passes.new ≡ passes.old + 1) }
    ensures uncounted { OnErr result (passes.new ≡ passes.old) }
{
    let table = make_table(alloc, of)?;
    let (part, count) = parts(alloc, of.rows, &table)?;
    *passes += 1;
    Ok(Cut {
        part,
        count,
        rows: table,
    })
}

/// Cuts rows none of which is hotter than the bound. The walk is counted in `passes`.
pub fn cut_cool(
    alloc: Global,
    rows: &[ProblemRow],
    bound: u64,
    passes: &mut u32,
) -> Result<Cut, AllocError>
    requires count { passes.old < 2 ^ 32 - 1 }
    requires forest { IsForest rows.now }
    requires cool { (i : ℕ) → i < length rows.now → heat_at rows.now i ≤ bound }
    ensures cut { IfOk result (IsCut rows.now bound) }
    ensures passes { OnOk result (passes.new ≡ passes.old + 1) }
    ensures uncounted { OnErr result (passes.new ≡ passes.old) }
{
    if rows.is_empty() {
        *passes += 1;
        return Ok(Cut {
            part: Vec::new(alloc),
            count: 0,
            rows: Vec::new(alloc),
        });
    }
    let links = link(alloc, rows)?;
    let of = Walk {
        rows,
        links: &links,
        bound,
    };
    cut_linked(alloc, of, passes)
}

/// Divides the rows into the fewest connected parts whose heat is at most the bound. Parts are
/// numbered by rising top row. A row that is too hot is reported before any memory is asked for.
pub fn cut_at(
    problem: &Problem,
    alloc: Global,
    bound: u64,
    passes: &mut u32,
) -> Result<Cut, CutError>
    requires { passes.old < 2 ^ 32 - 1 }
    ensures cut { IfOk result (IsCut problem.now.rows bound) }
    ensures heavy { IfErr result (λ e. IfHeavy e (IsFirstHot problem.now.rows bound)) }
    ensures named { is_memory result ≡ true → (i : ℕ) → i < length problem.now.rows
        → heat_at problem.now.rows i ≤ bound }
    ensures passes { passes.new ≡ (if is_memory result then passes.old else passes.old + 1) }
{
    let rows = problem.rows();
    if let Some(row) = first_hot(rows, bound) {
        *passes += 1;
        return Err(CutError::Heavy(row));
    }
    Ok(cut_cool(alloc, rows, bound, passes)?)
}
