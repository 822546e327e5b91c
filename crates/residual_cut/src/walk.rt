//! The walk over the rows from the last one up, with the table as its state.
//!
//! Before a row is handled, its entry holds its own heat and what its handled children have given
//! it; the row is cut down to the bound, and gives the rest to its parent. Parents are before
//! their children, so no row is met before all of its children.

ghost use Rattle.std.specs.Prelude.{◌≡◌, ◌<◌, ◌+◌, ◌^◌, length, map, IfOk, OnOk};
ghost use Rattle.mds_types.specs.CutTable.{cuts_at, rest_at, is_cut_at, IsCutTable};
ghost use Rattle.mds_types.specs.Sums.{count_below};
ghost use Rattle.mds_types.specs.declared.problem.ProblemRow.{ProblemRow as ProblemRowData};
ghost use Rattle.residual_cut.specs.Walk.{IsGivenRow, IsWalked, first_row};

use crate::detach::cut_children;
use crate::links::Walk;
use mds_types::{ProblemRow, Row};
use std::alloc::{AllocError, Global};

/// The table as the walk starts: nothing is cut.
pub fn first_table(alloc: Global, rows: &[ProblemRow]) -> Result<Vec<Row>, AllocError>
    ensures { IfOk result (λ table. table.items ≡ map (λ (row : ProblemRowData). first_row row.heat) rows.now) }
{
    rows.iter()
        .map(|row| Row {
            cuts: 0,
            rest: row.heat,
            price: 0,
            cut: false,
        })
        .collect(alloc)
}

/// Row `i` gives its cuts and its rest to its parent.
fn give_to_parent(table: &mut [Row], parent: usize, i: usize)
    requires inside { i < length table.old }
    requires above { parent < i }
    requires rests { rest_at table.old parent + rest_at table.old i < 2 ^ 64 }
    requires cuts { cuts_at table.old parent + cuts_at table.old i < 2 ^ 32 }
    ensures { IsGivenRow table.old table.new parent i }
{
    let cuts = table[i].cuts;
    let rest = table[i].rest;
    let row = &mut table[parent];
    row.cuts += cuts;
    row.rest += rest;
    row.price = row.price.max(rest);
}

/// Cuts rows from the last one up until each piece is within the bound.
pub fn cut_table(alloc: Global, of: Walk<'_>, table: &mut [Row]) -> Result<(), AllocError>
    requires { IsWalked of.rows.now table.old of.bound (length of.rows.now) (length of.rows.now) }
    ensures table { OnOk result (IsCutTable of.entry.rows.now table.new of.entry.bound) }
    ensures counted { OnOk result (cuts_at table.new 0
        ≡ count_below (length of.entry.rows.now) (is_cut_at table.new)) }
{
    for i in (1..of.rows.len()).rev() {
        cut_children(alloc, of, table, i)?;
        give_to_parent(table, of.rows[i].parent as usize, i);
    }
    cut_children(alloc, of, table, 0)?;
    Ok(())
}
