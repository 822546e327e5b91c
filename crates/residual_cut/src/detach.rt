//! Cuts the hottest children of a row that is hotter than the bound.
//!
//! The children come out of a heap of the hottest, so that only as many are put in order as are cut.

ghost use Rattle.std.specs.Prelude.{◌≡◌, ◌<◌, ◌≤◌, ◌+◌, ◌-◌, ◌^◌, ◌≢◌, ℕ, true, false};
ghost use Rattle.std.specs.Prelude.{length, slice_index_or, IfOk, OnOk};
ghost use Rattle.mds_types.specs.CutTable.{cuts_at, rest_at, is_cut_at, no_cut};
ghost use Rattle.mds_types.specs.Sums.{count_below};
ghost use Rattle.residual_cut.specs.Heap.{is_free};
ghost use Rattle.residual_cut.specs.Hottest.{AreHottest, CanMeet, IsMet};
ghost use Rattle.residual_cut.specs.Walk.{IsWalked};

use crate::child::Child;
use crate::hottest::{Hottest, meet};
use crate::links::Walk;
use mds_types::Row;
use std::alloc::{AllocError, Global};
use std::cmp::Reverse;
use std::collections::BinaryHeap;

/// How many of the hottest children are looked for at first: more than there can be ranks, so that few rows
/// have more to cut.
const FIRST: u32 = 128;

/// Meets the child of this row, if it is not cut.
#[inline(always)]
fn meet_free(hottest: &mut Hottest, table: &[Row], row: u32, most: u32) -> Result<(), AllocError>
    requires inside { row < length table.now }
    requires kept { CanMeet hottest.old most }
    ensures free { OnOk result (is_cut_at table.now row ≡ false
        → IsMet hottest.old hottest.new (record { rest = rest_at table.now row; row = record { 0 = row } }) most) }
    ensures cut { OnOk result (is_cut_at table.now row ≡ true → hottest.new ≡ hottest.old) }
{
    let entry = table[row as usize];
    if entry.cut {
        return Ok(());
    }
    let child = Child {
        rest: entry.rest,
        row: Reverse(row),
    };
    meet(hottest, child, most)
}

/// The hottest children of row `i` that are not cut: at least `most`, or all.
fn hottest_left(
    alloc: Global,
    of: Walk<'_>,
    table: &[Row],
    i: usize,
    most: u32,
) -> Result<Hottest, AllocError>
    requires inside { i < length of.rows.now }
    requires size { length table.now ≡ length of.rows.now }
    requires some { 0 < most }
    ensures { IfOk result (λ hottest.
        AreHottest of.entry.rows.now (rest_at table.now) (is_free table.now) i most hottest.floor
        hottest.children.items) }
{
    let mut hottest = Hottest {
        children: Vec::new(alloc),
        floor: 0,
    };
    let mut row = of.links.first[i];
    while row != 0 {
        meet_free(&mut hottest, table, row, most)?;
        row = of.links.next[row as usize];
    }
    Ok(hottest)
}

/// Cuts a child from row `i`.
fn cut_child(table: &mut [Row], i: usize, child: Child)
    requires inside { i < length table.old }
    requires child_inside { child.row.0 < length table.old }
    requires apart { i ≢ child.row.0 }
    requires rest { child.rest ≤ rest_at table.old i }
    requires cuts { cuts_at table.old i < 2 ^ 31 }
    ensures here { slice_index_or table.new i no_cut ≡ record {
      cuts = cuts_at table.old i + 1;
      rest = rest_at table.old i - child.rest;
      price = child.rest;
      cut = is_cut_at table.old i;
    } }
    ensures child { slice_index_or table.new child.row.0 no_cut
        ≡ record (slice_index_or table.old child.row.0 no_cut) { cut = true } }
    ensures other { (v : ℕ) → v ≢ i → v ≢ child.row.0
        → slice_index_or table.new v no_cut ≡ slice_index_or table.old v no_cut }
{
    let row = &mut table[i];
    row.rest -= child.rest;
    row.cuts += 1;
    row.price = child.rest;
    table[child.row.0 as usize].cut = true;
}

/// Cuts children from row `i`, the largest rest first, until what is left there is within the bound or
/// `most` are cut, and returns how many are.
fn cut_some(
    alloc: Global,
    of: Walk<'_>,
    table: &mut [Row],
    i: usize,
    most: u32,
) -> Result<u32, AllocError>
    requires inside { i < length of.rows.now }
    requires some { 0 < most }
    requires walked { IsWalked of.rows.now table.old of.bound (i + 1) i }
    ensures walked { IfOk result (λ _. IsWalked of.entry.rows.now table.new of.entry.bound (i + 1) i) }
    ensures done { IfOk result (λ count. count < most → rest_at table.new i ≤ of.entry.bound) }
    ensures counted { IfOk result (λ count. count_below (length of.entry.rows.now) (is_cut_at table.new)
        ≡ count_below (length of.entry.rows.now) (is_cut_at table.old) + count) }
{
    let hottest = hottest_left(alloc, of, table, i, most)?;
    let mut heap = BinaryHeap::from(hottest.children);
    for cut in 0..most {
        if table[i].rest <= of.bound {
            return Ok(cut);
        }
        let Some(child) = heap.pop() else {
            return Ok(cut);
        };
        cut_child(table, i, child);
    }
    Ok(most)
}

/// Cuts children from row `i`, which is hotter than the bound, the largest rest first, until what is
/// left there is within the bound.
#[inline(never)]
fn cut_hottest(alloc: Global, of: Walk<'_>, table: &mut [Row], i: usize) -> Result<(), AllocError>
    requires inside { i < length of.rows.now }
    requires walked { IsWalked of.rows.now table.old of.bound (i + 1) (i + 1) }
    ensures walked { OnOk result (IsWalked of.entry.rows.now table.new of.entry.bound (i + 1) i) }
    ensures done { OnOk result (rest_at table.new i ≤ of.entry.bound) }
{
    let count = cut_some(alloc, of, table, i, FIRST)?;
    if count < FIRST {
        return Ok(());
    }
    cut_some(alloc, of, table, i, of.rows.len() as u32 + 1)?;
    Ok(())
}

/// Cuts children from row `i`, the largest rest first, until what is left there is within the bound.
/// Most rows are within the bound as they are.
#[inline(always)]
pub fn cut_children(
    alloc: Global,
    of: Walk<'_>,
    table: &mut [Row],
    i: usize,
) -> Result<(), AllocError>
    requires inside { i < length of.rows.now }
    requires walked { IsWalked of.rows.now table.old of.bound (i + 1) (i + 1) }
    ensures walked { OnOk result (IsWalked of.entry.rows.now table.new of.entry.bound (i + 1) i) }
    ensures done { OnOk result (rest_at table.new i ≤ of.entry.bound) }
{
    if table[i].rest > of.bound {
        return cut_hottest(alloc, of, table, i);
    }
    Ok(())
}
