//! A walk that only finds whether the bound has room, and which bound is worth trying next.
//!
//! It makes no table: before it each row has the heat of its whole subtree, and what is cut off below a
//! row is taken from its parent too. Only rows whose subtree is hotter than the lower end of the bounds are
//! walked over, as nothing is cut in the other subtrees.

ghost use Rattle.std.specs.Prelude.{◌≡◌, ◌<◌, ◌≤◌, ◌+◌, ◌-◌, ◌^◌, ◌≢◌, ℕ, min, max};
ghost use Rattle.std.specs.Prelude.{length, slice_index, IfOk, OnOk, OnErr};
ghost use Rattle.mds_types.specs.Division.{HasFew, NeedsMore};
ghost use Rattle.mds_types.specs.Problem.{parent_at};
ghost use Rattle.residual_cut.specs.Probe.{IfFits, IfTooMany};
ghost use Rattle.residual_cut.specs.Probing.{IsProbed, IsProbing, IsSeenWith};
ghost use Rattle.residual_cut.specs.Subtrees.{AreRests};

use crate::hottest::hottest_children;
use crate::subtrees::{Weighed, hot_row, restore};
use std::alloc::{AllocError, Global};
use std::collections::BinaryHeap;

/// What a probe has found.
#[derive(Clone, Copy, Debug, PartialEq, Eq)]
pub enum Probe {
    /// The rows can be divided, and this is the heat of the hottest part of a division.
    Fits(u64),
    /// There are too few ranks, and for every bound below this one too: it is the least sum above
    /// the bound that the walk has seen.
    TooMany(u64),
}

/// What a probe has seen so far.
#[derive(Clone, Copy)]
pub struct Seen {
    /// How many rows were cut.
    pub cuts: u32,
    /// The least sum above the bound from which a row was cut. Where none was, the greatest number
    /// there is.
    pub above: u64,
    /// The greatest rest that was cut off.
    pub hottest: u64,
}

/// What was seen with one more cut: of a piece from a larger sum.
fn with_cut(seen: Seen, sum: u64, piece: u64) -> Seen
    requires { seen.cuts < 2 ^ 32 - 1 }
    ensures { IsSeenWith seen sum piece result }
{
    Seen {
        cuts: seen.cuts + 1,
        above: seen.above.min(sum),
        hottest: seen.hottest.max(piece),
    }
}

/// Cuts the hottest children from row `i`, which is hotter than the bound, until the rest is within it, or
/// as many rows are cut as there are ranks.
#[inline(never)]
fn cut_hot_row(
    alloc: Global,
    of: Weighed<'_>,
    rest: &mut [u64],
    i: usize,
    bound: u64,
    seen: &mut Seen,
) -> Result<(), AllocError>
    requires { IsProbing of rest.old bound i seen.old }
    ensures room { length rest.new ≡ length of.entry.rows.now }
    ensures probed { OnOk result (IsProbed of.entry.rows.now (slice_index of.entry.trees.now.heat.items)
        (slice_index rest.new) bound (i + 1) i seen.new) }
    ensures done { OnOk result (seen.new.cuts < of.entry.ranks → slice_index rest.new i ≤ bound) }
    ensures same { OnErr result (rest.new ≡ rest.old) }
{
    let left = of.ranks - seen.cuts;
    let hottest = hottest_children(alloc, of, rest, i, left)?;
    let mut heap = BinaryHeap::from(hottest.children);
    for _ in 0..left {
        if rest[i] <= bound {
            return Ok(());
        }
        let Some(child) = heap.pop() else {
            return Ok(());
        };
        *seen = with_cut(*seen, rest[i], child.rest);
        rest[i] -= child.rest;
    }
    Ok(())
}

/// A row and what is left there, which is not read from memory again where the row comes next.
#[derive(Clone, Copy)]
struct Left {
    row: usize,
    rest: u64,
}

/// Cuts the hottest children from a row until the rest, which is `here`, is within the bound, or as many rows are
/// cut as there are ranks, and returns what is left. Most rows are within the bound as they are.
#[inline(always)]
fn cut_row(
    alloc: Global,
    of: Weighed<'_>,
    rest: &mut [u64],
    here: Left,
    bound: u64,
    seen: &mut Seen,
) -> Result<u64, AllocError>
    requires here { here.rest ≡ slice_index rest.old here.row }
    requires probing { IsProbing of rest.old bound here.row seen.old }
    ensures room { length rest.new ≡ length of.entry.rows.now }
    ensures probed { OnOk result (IsProbed of.entry.rows.now (slice_index of.entry.trees.now.heat.items)
        (slice_index rest.new) bound (here.row + 1) here.row seen.new) }
    ensures left { IfOk result (λ left. left ≡ slice_index rest.new here.row) }
    ensures done { OnOk result (seen.new.cuts < of.entry.ranks → slice_index rest.new here.row ≤ bound) }
    ensures same { OnErr result (rest.new ≡ rest.old) }
{
    if here.rest > bound {
        cut_hot_row(alloc, of, rest, here.row, bound, seen)?;
        return Ok(rest[here.row]);
    }
    Ok(here.rest)
}

/// What is left at row `i`.
#[inline(always)]
fn rest_of(rest: &[u64], known: Left, i: usize) -> u64
    requires inside { i < length rest.now }
    requires known { known.rest ≡ slice_index rest.now known.row }
    ensures { result ≡ slice_index rest.now i }
{
    if i == known.row { known.rest } else { rest[i] }
}

/// What was cut off below row `i`, where `left` is left, is taken from its parent too.
#[inline(always)]
fn take_from_parent(of: Weighed<'_>, rest: &mut [u64], i: usize, left: u64) -> Left
    requires inside { i < length of.rows.now }
    requires deep { 0 < i }
    requires room { length rest.old ≡ length of.rows.now }
    requires left { left ≡ slice_index rest.old i }
    requires less { slice_index rest.old i ≤ slice_index of.trees.now.heat.items i }
    requires enough { slice_index of.trees.now.heat.items i - slice_index rest.old i
        ≤ slice_index rest.old (parent_at of.rows.now i) }
    ensures room { length rest.new ≡ length of.entry.rows.now }
    ensures here { slice_index rest.new (parent_at of.entry.rows.now i)
        ≡ slice_index rest.old (parent_at of.entry.rows.now i)
        - (slice_index of.entry.trees.now.heat.items i - slice_index rest.old i) }
    ensures other { (v : ℕ) → v ≢ parent_at of.entry.rows.now i → slice_index rest.new v ≡ slice_index rest.old v }
    ensures known { result.rest ≡ slice_index rest.new result.row }
{
    let row = of.rows[i].parent as usize;
    let rest_there = rest[row] - (of.trees.heat[i] - left);
    rest[row] = rest_there;
    Left {
        row,
        rest: rest_there,
    }
}

/// Cuts rows from the last one up until each piece is within the bound, or as many are cut as there are
/// ranks.
fn probe_rows(
    alloc: Global,
    of: Weighed<'_>,
    rest: &mut [u64],
    bound: u64,
) -> Result<Seen, AllocError>
    requires low { of.trees.now.low ≤ bound }
    requires room { length rest.old ≡ length of.rows.now }
    requires whole { (v : ℕ) → v < length of.rows.now
        → slice_index rest.old v ≡ slice_index of.trees.now.heat.items v }
    ensures few { IfOk result (λ seen. seen.cuts < of.entry.ranks
        → HasFew of.entry.rows.now of.entry.ranks (max seen.hottest (slice_index rest.new 0))) }
    ensures within { IfOk result (λ seen. seen.cuts < of.entry.ranks
        → max seen.hottest (slice_index rest.new 0) ≤ bound) }
    ensures rests { AreRests of.entry.rows.now of.entry.trees.now rest.new }
    ensures above { IfOk result (λ seen. of.entry.ranks ≤ seen.cuts → bound < seen.above) }
    ensures more { IfOk result (λ seen. of.entry.ranks ≤ seen.cuts
        → NeedsMore of.entry.rows.now of.entry.ranks (seen.above - 1)) }
{
    let mut seen = Seen {
        cuts: 0,
        above: u64::MAX,
        hottest: 0,
    };
    let mut known = Left {
        row: 0,
        rest: rest[0],
    };
    for k in 0..of.trees.hot.len() {
        let i = hot_row(of, k);
        let here = Left {
            row: i,
            rest: rest_of(rest, known, i),
        };
        let left = cut_row(alloc, of, rest, here, bound, &mut seen)?;
        if seen.cuts >= of.ranks {
            return Ok(seen);
        }
        known = take_from_parent(of, rest, i, left);
    }
    let root = Left {
        row: 0,
        rest: rest_of(rest, known, 0),
    };
    cut_row(alloc, of, rest, root, bound, &mut seen)?;
    Ok(seen)
}

/// Whether the rows, none of which is hotter than the bound, can be divided into at most as many parts
/// within the bound as there are ranks. It ends as soon as too many rows are cut, and is counted in `passes`.
///
/// The room of `rest` is used for the walk. Before it and after it, even where memory is refused, each row
/// whose subtree is within the lower end has the heat of its whole subtree there.
pub fn try_bound(
    alloc: Global,
    of: Weighed<'_>,
    rest: &mut [u64],
    bound: u64,
    passes: &mut u32,
) -> Result<Probe, AllocError>
    requires count { passes.old < 2 ^ 32 - 1 }
    requires low { of.trees.now.low ≤ bound }
    requires rests { AreRests of.rows.now of.trees.now rest.old }
    ensures rests { AreRests of.entry.rows.now of.entry.trees.now rest.new }
    ensures fits { IfOk result (IfFits (λ heat. HasFew of.entry.rows.now of.entry.ranks heat × (heat ≤ bound))) }
    ensures too_many { IfOk result (IfTooMany (λ above.
        (bound < above) × NeedsMore of.entry.rows.now of.entry.ranks (above - 1))) }
    ensures passes { OnOk result (passes.new ≡ passes.old + 1) }
    ensures uncounted { OnErr result (passes.new ≡ passes.old) }
{
    restore(of, rest);
    let seen = probe_rows(alloc, of, rest, bound)?;
    *passes += 1;
    if seen.cuts < of.ranks {
        return Ok(Probe::Fits(seen.hottest.max(rest[0])));
    }
    Ok(Probe::TooMany(seen.above))
}
