//! Runs of neighbouring directories that have the same cell.
//!
//! `starts[run]` is the first directory of a run, and `cells[run]` the cell of all in it. A directory's run is found by
//! halving between the first runs of its block and of the next one, by an index. To write a cell, the run is split and
//! joined with neighbours that have the same cell; at a border of two runs, the border moves by one instead.
ghost use Rattle.std.specs.Prelude.{◌≡◌, ◌≢◌, ◌↔◌, [], IfOk, ℕ, ◌+◌, ◌-◌, ◌^◌, ◌==◌, ◌<◌, ◌≤◌, All, List, length};
ghost use Rattle.std.specs.Prelude.{slice_index, if◌then◌else◌};
ghost use Rattle.authority_map.specs.Runs.{IsIn, IsAmong, IsIndex, IsMove, IsOneMore, IsRunTable};
ghost use Rattle.authority_map.specs.Runs.{AreStarts, HasRunRoom, Hold, StartsAt};

use mds_types::Dir;
use std::alloc::{AllocError, Global};

/// Runs, or room for them.
#[derive(Drop)]
pub struct Runs {
    // The first directory of each run.
    pub(crate) starts: Vec<u32>,
    // What its directories have: 0 for no rank, or the rank and one.
    pub(crate) cells: Vec<u8>,
}

impl Runs {
    /// Room for a run for each directory.
    pub(crate) fn new(alloc: Global, limit: u32) -> Result<Runs, AllocError>
        ensures room { IfOk result (λ runs. HasRunRoom limit runs) }
        ensures none { IfOk result (λ runs. (runs.starts.items ≡ []) × (runs.cells.items ≡ [])) }
    {
        let starts = Vec::with_capacity(alloc, limit as usize)?;
        let cells = Vec::with_capacity(alloc, limit as usize)?;
        Ok(Runs { starts, cells })
    }

    /// The same runs in memory of their own, with room for a run for each directory.
    pub(crate) fn copied(&self, alloc: Global, limit: u32) -> Result<Runs, AllocError>
        ensures room { IfOk result (λ runs. HasRunRoom limit runs) }
        ensures starts { IfOk result (λ runs. runs.starts.items ≡ self.now.starts.items) }
        ensures cells { IfOk result (λ runs. runs.cells.items ≡ self.now.cells.items) }
    {
        let mut runs = Runs::new(alloc, limit)?;
        runs.starts.extend_from_slice(&self.starts)?;
        runs.cells.extend_from_slice(&self.cells)?;
        Ok(runs)
    }
}

/// How many directories a block has.
pub(crate) const BLOCK: usize = 256;

// 1 where this start isn't past the directory, otherwise 0. It takes no branch, which would be guessed
// wrong every other time.
#[inline(always)]
fn is_reached(start: u32, dir: u32) -> usize
    ensures reached { start ≤ dir → result ≡ 1 }
    ensures past { dir < start → result ≡ 0 }
{
    ((0x1_0000_0000 + dir as u64 - start as u64) / 0x1_0000_0000) as usize
}

// The run that a directory is in, by halving `runs` runs from `first` on.
#[inline(always)]
fn halve(starts: &[u32], first: usize, runs: usize, dir: u32) -> usize
    requires order { AreStarts starts.now }
    requires among { IsAmong starts.now first runs dir }
    ensures { IsIn starts.now result dir }
{
    let mut run = first;
    let mut count = runs;
    while count > 1 {
        let half = count / 2;
        run += half * is_reached(starts[run + half], dir);
        count -= half;
    }
    run
}

/// The run that a directory is in.
pub(crate) fn run_of(starts: &[u32], dir: u32) -> usize
    requires { AreStarts starts.now }
    ensures { IsIn starts.now result dir }
{
    halve(starts, 0, starts.len(), dir)
}

/// The same by an index of the blocks' first runs.
pub(crate) fn indexed_run_of(starts: &[u32], index: &[u32], limit: u32, dir: u32) -> usize
    requires order { AreStarts starts.now }
    requires index { IsIndex limit starts.now index.now }
    requires inside { dir < limit }
    ensures { IsIn starts.now result dir }
{
    let block = dir as usize / BLOCK;
    let first = index[block] as usize;
    let last = index[block + 1] as usize;
    halve(starts, first, last - first + 1, dir)
}

// From this block on there is one run more before each.
fn index_one_more(index: &mut Vec<u32>, first: usize)
    requires { (block : ℕ) → slice_index index.old.items block + 1 < 2 ^ 32 }
    ensures { IsOneMore first index.old.items index.new.items }
{
    for block in first..index.len() {
        index[block] += 1;
    }
}

// From this block on there is one run fewer before each.
fn index_one_fewer(index: &mut Vec<u32>, first: usize)
    requires { (block : ℕ) → first ≤ block → block < length index.old.items → 1 ≤ slice_index index.old.items block }
    ensures { IsOneMore first index.new.items index.old.items }
{
    for block in first..index.len() {
        index[block] -= 1;
    }
}

// A run more, which starts inside this one and has its cell.
fn cut(runs: &mut Runs, index: &mut Vec<u32>, limit: u32, run: usize, dir: u32)
    requires table { IsRunTable limit runs.old index.old.items }
    requires inside { IsIn runs.old.starts.items run dir }
    requires later { slice_index runs.old.starts.items run < dir }
    requires below { dir < limit }
    ensures table { IsRunTable limit runs.new index.new.items }
    ensures starts { StartsAt runs.new.starts.items dir }
    ensures others { (other : ℕ) → StartsAt runs.old.starts.items other → StartsAt runs.new.starts.items other }
    ensures cells { (cell : ℕ → ℕ) (this : ℕ) → Hold limit runs.old cell this this
        → Hold limit runs.new cell this dir }
{
    let cell = runs.cells[run];
    let Ok(()) = runs.starts.insert(run + 1, dir) else {
        unreachable!();
    };
    let Ok(()) = runs.cells.insert(run + 1, cell) else {
        unreachable!();
    };
    index_one_more(index, (dir as usize + BLOCK - 1) / BLOCK);
}

// Sees to it that a run starts at this directory.
fn split(runs: &mut Runs, index: &mut Vec<u32>, limit: u32, dir: u32)
    requires table { IsRunTable limit runs.old index.old.items }
    ensures table { IsRunTable limit runs.new index.new.items }
    ensures starts { dir < limit → StartsAt runs.new.starts.items dir }
    ensures others { (other : ℕ) → StartsAt runs.old.starts.items other → StartsAt runs.new.starts.items other }
    ensures cells { (cell : ℕ → ℕ) (this : ℕ) → Hold limit runs.old cell this this
        → Hold limit runs.new cell this dir }
{
    if dir >= limit {
        return;
    }
    let run = indexed_run_of(&runs.starts, index, limit, dir);
    if runs.starts[run] < dir {
        cut(runs, index, limit, run, dir);
    }
}

// Puts a run to the one before it, which has the same cell.
fn unite(runs: &mut Runs, index: &mut Vec<u32>, limit: u32, run: usize)
    requires table { IsRunTable limit runs.old index.old.items }
    requires some { 1 ≤ run }
    requires there { run < length runs.old.starts.items }
    requires alike { slice_index runs.old.cells.items (run - 1) ≡ slice_index runs.old.cells.items run }
    ensures table { IsRunTable limit runs.new index.new.items }
    ensures cells { (cell : ℕ → ℕ) (this : ℕ) → Hold limit runs.old cell this (slice_index runs.old.starts.items run)
        → Hold limit runs.new cell this this }
{
    let start = runs.starts.remove(run);
    let _cell = runs.cells.remove(run);
    index_one_fewer(index, (start as usize + BLOCK - 1) / BLOCK);
}

// Puts the run that starts at this directory to the one before it, if that has the same cell.
fn join(runs: &mut Runs, index: &mut Vec<u32>, limit: u32, dir: u32)
    requires table { IsRunTable limit runs.old index.old.items }
    ensures table { IsRunTable limit runs.new index.new.items }
    ensures cells { (cell : ℕ → ℕ) (this : ℕ) → Hold limit runs.old cell this dir
        → Hold limit runs.new cell this this }
{
    let run = run_of(&runs.starts, dir);
    if runs.starts[run] == dir && run > 0 && runs.cells[run - 1] == runs.cells[run] {
        unite(runs, index, limit, run);
    }
}

/// Where a run ends: at the start of the next one, or at the limit.
#[inline(always)]
pub(crate) fn run_end(starts: &[u32], limit: u32, run: usize) -> u32
    requires starts { (k : ℕ) → k < length starts.now → slice_index starts.now k < limit }
    requires there { run < length starts.now }
    ensures inside { (dir : ℕ) → (slice_index starts.now run ≤ dir) × (dir < result)
        ↔ (dir < limit) × IsIn starts.now run dir }
    ensures within { result ≤ limit }
{
    starts.get(run + 1).map_or(limit, |start| *start)
}

// The border of two neighbouring runs moves by one directory, which has the cell of its new run then.
fn move_border(runs: &mut Runs, index: &mut Vec<u32>, limit: u32, run: usize, start: u32, dir: u32)
    requires table { IsRunTable limit runs.old index.old.items }
    requires moves { IsMove limit runs.old.starts.items run start dir }
    ensures table { IsRunTable limit runs.new index.new.items }
    ensures cells { (old : ℕ → ℕ) → Hold limit runs.old old 0 0 → Hold limit runs.new
        (λ d. if d == dir then slice_index runs.old.cells.items (run - (start - dir)) else old d) 0 0 }
{
    runs.starts[run] = start;
    if dir as usize % BLOCK == 0 {
        index[dir as usize / BLOCK] = run as u32 - (start - dir);
    }
}

// Writes a directory's cell by way of a run that has only this directory.
fn write_alone(runs: &mut Runs, index: &mut Vec<u32>, limit: u32, dir: u32, cell: u8)
    requires table { IsRunTable limit runs.old index.old.items }
    requires inside { dir < limit }
    requires small { cell ≤ 64 }
    ensures table { IsRunTable limit runs.new index.new.items }
    ensures cells { (old : ℕ → ℕ) → Hold limit runs.old old 0 0
        → Hold limit runs.new (λ d. if d == dir then cell else old d) 0 0 }
{
    split(runs, index, limit, dir);
    split(runs, index, limit, dir + 1);
    let alone = indexed_run_of(&runs.starts, index, limit, dir);
    runs.cells[alone] = cell;
    join(runs, index, limit, dir + 1);
    join(runs, index, limit, dir);
}

/// Writes a directory's cell.
pub(crate) fn write(runs: &mut Runs, index: &mut Vec<u32>, limit: u32, dir: u32, cell: u8)
    requires table { IsRunTable limit runs.old index.old.items }
    requires inside { dir < limit }
    requires small { cell ≤ 64 }
    ensures table { IsRunTable limit runs.new index.new.items }
    ensures cells { (old : ℕ → ℕ) → Hold limit runs.old old 0 0
        → Hold limit runs.new (λ d. if d == dir then cell else old d) 0 0 }
{
    let Runs { starts, cells } = runs;
    let run = indexed_run_of(starts, index, limit, dir);
    if cells[run] == cell {
        return;
    }
    if starts[run] == dir
        && run > 0
        && cells[run - 1] == cell
        && dir + 1 < run_end(starts, limit, run)
    {
        move_border(runs, index, limit, run, dir + 1, dir);
    } else if starts[run] < dir
        && run + 1 < starts.len()
        && starts[run + 1] == dir + 1
        && cells[run + 1] == cell
    {
        move_border(runs, index, limit, run + 1, dir, dir);
    } else {
        write_alone(runs, index, limit, dir, cell);
    }
}
