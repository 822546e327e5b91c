//! The heat of each row's subtree, and the children of each row.

ghost use Rattle.std.specs.Prelude.{◌≡◌, ◌<◌, ◌≤◌, ◌^◌, ℕ, length, slice_index, IfOk};
ghost use Rattle.mds_types.specs.Problem.{IsForest, heat_at};
ghost use Rattle.residual_cut.specs.Subtrees.{AreHot, AreRests, AreSubtrees, AreSums, CanProbe};

use crate::links::{Links, link};
use mds_types::ProblemRow;
use std::alloc::{AllocError, Global};

/// What is the same for each probe of one problem.
#[derive(Drop)]
pub struct Subtrees {
    /// The children of each row.
    pub links: Links,
    /// The heat of each row's subtree, in accesses.
    pub heat: Vec<u64>,
    /// No bound below this one is to be tried.
    pub low: u64,
    /// The rows below row 0 whose subtree is hotter than that, the last one first.
    pub hot: Vec<u32>,
}

/// Rows whose subtrees are weighed, and among how many ranks they are to be divided: a search's probes have it in
/// common.
#[derive(Clone, Copy)]
pub struct Weighed<'a> {
    /// The rows.
    pub rows: &'a [ProblemRow],
    /// Their subtrees.
    pub trees: &'a Subtrees,
    /// There are to be no more parts.
    pub ranks: u32,
    pub ghost can_probe: { CanProbe rows.now trees.now ranks },
}

/// Each row, from the last one up, gives its heat to its parent.
fn gather(rows: &[ProblemRow], heat: &mut [u64])
    requires forest { IsForest rows.now }
    requires size { length heat.old ≡ length rows.now }
    requires own { (v : ℕ) → v < length rows.now → slice_index heat.old v ≡ heat_at rows.now v }
    ensures size { length heat.new ≡ length rows.now }
    ensures sums { AreSums rows.now (slice_index heat.new) }
{
    for i in (1..rows.len()).rev() {
        let below = heat[i];
        heat[rows[i].parent as usize] += below;
    }
}

/// The rows below row 0 whose subtree is hotter than `low`, the last one first.
fn hot_rows(alloc: Global, heat: &[u64], low: u64) -> Result<Vec<u32>, AllocError>
    requires { length heat.now ≤ 2 ^ 16 }
    ensures { IfOk result (λ hot. AreHot (length heat.now) (slice_index heat.now) low 1 hot.items) }
{
    let mut hot = Vec::new(alloc);
    for i in (1..heat.len()).rev() {
        if heat[i] <= low {
            continue;
        }
        hot.push(i as u32)?;
    }
    Ok(hot)
}

/// What probes need for bounds from `low` on.
pub fn weigh(alloc: Global, rows: &[ProblemRow], low: u64) -> Result<Subtrees, AllocError>
    requires { IsForest rows.now }
    ensures trees { IfOk result (AreSubtrees rows.now) }
    ensures low { IfOk result (λ trees. trees.low ≡ low) }
{
    let links = link(alloc, rows)?;
    let mut heat: Vec<u64> = rows.iter().map(|row| row.heat).collect(alloc)?;
    gather(rows, &mut heat);
    let hot = hot_rows(alloc, &heat, low)?;
    Ok(Subtrees {
        links,
        heat,
        low,
        hot,
    })
}

/// The k-th of the rows with a hot subtree.
#[inline(always)]
pub fn hot_row(of: Weighed<'_>, k: usize) -> usize
    requires { k < length of.trees.now.hot.items }
    ensures row { result ≡ slice_index of.entry.trees.now.hot.items k }
    ensures inside { result < length of.entry.rows.now }
    ensures deep { 0 < result }
{
    of.trees.hot[k] as usize
}

/// Each row has the heat of its whole subtree again, where only rows with hot ones may have another.
pub fn restore(of: Weighed<'_>, rest: &mut [u64])
    requires { AreRests of.rows.now of.trees.now rest.old }
    ensures room { length rest.new ≡ length of.entry.rows.now }
    ensures whole { (v : ℕ) → v < length of.entry.rows.now
        → slice_index rest.new v ≡ slice_index of.entry.trees.now.heat.items v }
{
    if of.trees.hot.len() > of.rows.len() / 8 {
        rest.copy_from_slice(&of.trees.heat);
        return;
    }
    for k in 0..of.trees.hot.len() {
        let i = hot_row(of, k);
        rest[i] = of.trees.heat[i];
    }
    rest[0] = of.trees.heat[0];
}
