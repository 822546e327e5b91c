//! Whether a table shows how many parts a bound needs.
//!
//! Each row is read once, from the last one up: by then it has got all that its children give. The
//! numbers of a forged table may be anything. So sums end at the greatest number, which is above
//! every bound.
ghost use Rattle.std.specs.Prelude.{◌≡◌, ◌<◌, ◌≤◌, ◌+◌, ◌-◌, ◌^◌, ◌↔◌, ℕ, length, slice_index_or, IfOk, IsTrue};
ghost use Rattle.mds_types.specs.CutTable.{cuts_at, IsCutTable};
ghost use Rattle.mds_types.specs.Problem.{IsForest};
ghost use Rattle.plan_checker.specs.Table.{nothing, ChildHolds, HoldsAt, IsChecked, RowHolds};

use crate::gathered::{Gathered, give};
use mds_types::{ProblemRow, Row};
use std::alloc::{AllocError, Global};

/// Whether a table's row holds, given the sums over its children.
fn row_holds(given: &ProblemRow, in_table: &Row, sums: Gathered, bound: u64) -> bool
    ensures exact { IsTrue result ↔ RowHolds given.entry.now in_table.now sums.rests sums.cuts bound }
    ensures few { in_table.now.cuts < 2 ^ 32 }
{
    let cuts = u64::from(in_table.cuts);
    given.heat <= in_table.rest
        && in_table.rest <= bound
        && in_table.rest - given.heat == sums.rests
        && cuts == sums.cuts
}

/// Whether a table holds at a parent and its child.
fn child_holds(parent: &Row, child: &Row, bound: u64) -> bool
    ensures { IsTrue result ↔ ChildHolds parent.now child.now bound }
{
    if child.cut {
        parent.price <= child.rest
            && u128::from(bound) < u128::from(parent.rest) + u128::from(parent.price)
    } else {
        child.rest <= parent.price
    }
}

/// Whether the table holds at row `i`, given the sums over its children.
fn holds_at(rows: &[ProblemRow], table: &[Row], sums: Gathered, bound: u64, i: usize) -> bool
    requires forest { IsForest rows.now }
    requires inside { i < length rows.now }
    requires table { length table.now ≡ length rows.now }
    ensures exact { IsTrue result ↔ HoldsAt rows.now table.now sums.rests sums.cuts bound i }
    ensures few { cuts_at table.now i < 2 ^ 32 }
{
    row_holds(&rows[i], &table[i], sums, bound)
        && (i == 0 || child_holds(&table[rows[i].parent as usize], &table[i], bound))
}

/// Whether the table holds at each row. `sums` is where they gather what their children give.
fn rows_hold(sums: &mut [Gathered], rows: &[ProblemRow], table: &[Row], bound: u64) -> bool
    requires forest { IsForest rows.now }
    requires table { length table.now ≡ length rows.now }
    requires sums { length sums.old ≡ length rows.now }
    requires bound { bound < 2 ^ 64 - 1 }
    requires empty { (v : ℕ) → slice_index_or sums.old v nothing ≡ nothing }
    ensures { IsTrue result ↔ ((i : ℕ) → i < length rows.now → IsChecked rows.now table.now bound i) }
{
    for i in (0..rows.len()).rev() {
        if !holds_at(rows, table, sums[i], bound, i) {
            return false;
        }
        give(sums, rows[i].parent as usize, &table[i]);
    }
    true
}

/// Whether the table shows how many parts the bound needs.
pub fn is_cut_table(
    alloc: Global,
    rows: &[ProblemRow],
    table: &[Row],
    bound: u64,
) -> Result<bool, AllocError>
    requires forest { IsForest rows.now }
    requires bound { bound < 2 ^ 64 - 1 }
    ensures { IfOk result (λ yes. IsTrue yes ↔ IsCutTable rows.now table.now bound) }
{
    if table.len() != rows.len() || table.first().is_some_and(|root| root.cut) {
        return Ok(false);
    }
    let mut sums = vec![in alloc; Gathered { rests: 0, cuts: 0 }; rows.len()]?;
    Ok(rows_hold(&mut sums, rows, table, bound))
}
