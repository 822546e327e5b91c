//! Writing a long list of directories at once.
//!
//! To write one directory may move all runs after its own. For a long list that rises the runs are made
//! anew: those between two listed directories are copied, and each listed one joins the run before or begins one.
ghost use Rattle.std.specs.Prelude.{◌≡◌, ℕ, ◌+◌, ◌-◌, ◌/◌, ◌<◌, ◌≤◌, All, IsTrue, length};
ghost use Rattle.std.specs.Prelude.{if◌then◌else◌, slice_index};
ghost use Rattle.std.specs.List.Sorted.{IsStrictlyIncreasing};
ghost use Rattle.authority_map.specs.Operations.{names};
ghost use Rattle.authority_map.specs.Runs.{IsIndex, IsRunTable, AreFirstRuns, AreStarts, ComeBefore};
ghost use Rattle.authority_map.specs.Runs.{HasRunRoom, Hold, HoldFirst};

use crate::runs::{BLOCK, Runs, indexed_run_of, run_end, run_of, write};
use mds_types::Dir;
use std::mem::swap;

/// How many runs are moved in the time that a pass takes for one of them.
const MOVED_IN_A_STEP: usize = 16;

// Whether each directory comes after the one before it.
fn is_rising(dirs: &[Dir]) -> bool
    ensures { IsTrue result → IsStrictlyIncreasing dirs.now }
{
    dirs.is_sorted_by(|dir, next| dir.number() < next.number())
}

// The runs go on with directories that have this cell.
fn extend(made: &mut Runs, limit: u32, first: u32, end: u32, cell: u8)
    requires made { AreFirstRuns limit first made.old }
    requires some { (first < end) × (end ≤ limit) }
    requires small { cell ≤ 64 }
    ensures made { AreFirstRuns limit end made.new }
    ensures last { slice_index made.new.cells.items (length made.new.cells.items - 1) ≡ cell }
    ensures cells { (want : ℕ → ℕ) → HoldFirst first made.old want → ((d : ℕ) → first ≤ d → d < end → want d ≡ cell)
        → HoldFirst end made.new want }
{
    if made.cells[made.cells.len() - 1] != cell {
        made.starts.push_reserved(first);
        made.cells.push_reserved(cell);
    }
}

// The runs go on with directories that have the cells that they had.
fn keep(made: &mut Runs, runs: &Runs, index: &[u32], limit: u32, first: u32, end: u32)
    requires table { IsRunTable limit runs.now index.now }
    requires made { AreFirstRuns limit first made.old }
    requires order { (first ≤ end) × (end ≤ limit) }
    ensures made { AreFirstRuns limit end made.new }
    ensures cells { (old want : ℕ → ℕ) → Hold limit runs.now old 0 0 → HoldFirst first made.old want
        → ((d : ℕ) → first ≤ d → d < end → want d ≡ old d) → HoldFirst end made.new want }
{
    if first == end {
        return;
    }
    let (starts, cells) = (runs.starts.as_slice(), runs.cells.as_slice());
    let run = indexed_run_of(starts, index, limit, first);
    let last = indexed_run_of(starts, index, limit, end - 1);
    let middle = run_end(starts, limit, run).min(end);
    extend(made, limit, first, middle, cells[run]);
    let (more, more_cells) = (&starts[run + 1..last + 1], &cells[run + 1..last + 1]);
    let Ok(()) = made.starts.extend_from_slice(more) else {
        unreachable!();
    };
    let Ok(()) = made.cells.extend_from_slice(more_cells) else {
        unreachable!();
    };
}

// The runs begin with directory 0, which has the first of these cells if it is listed, otherwise the second. It
// returns how many listed directories are in them.
fn begin(made: &mut Runs, limit: u32, dirs: &[Dir], listed: u8, unlisted: u8) -> usize
    requires limit { 1 ≤ limit }
    requires room { HasRunRoom limit made.old }
    requires rising { IsStrictlyIncreasing dirs.now }
    requires small { (listed ≤ 64) × (unlisted ≤ 64) }
    ensures made { AreFirstRuns limit 1 made.new }
    ensures listed { ComeBefore dirs.now result 1 }
    ensures cells { (want : ℕ → ℕ) → want 0 ≡ (if names dirs.now 0 then listed else unlisted)
        → HoldFirst 1 made.new want }
{
    made.starts.clear();
    made.cells.clear();
    made.starts.push_reserved(0);
    match dirs.first() {
        Some(dir) if dir.number() == 0 => {
            made.cells.push_reserved(listed);
            1
        }
        _ => {
            made.cells.push_reserved(unlisted);
            0
        }
    }
}

// Makes the runs of all directories: those on the list have this cell, the others that of their run.
fn make_anew(made: &mut Runs, runs: &Runs, index: &[u32], limit: u32, dirs: &[Dir], cell: u8)
    requires table { IsRunTable limit runs.now index.now }
    requires room { HasRunRoom limit made.old }
    requires inside { All (λ dir. dir < limit) dirs.now }
    requires rising { IsStrictlyIncreasing dirs.now }
    requires small { cell ≤ 64 }
    ensures made { AreFirstRuns limit limit made.new }
    ensures cells { (old : ℕ → ℕ) → Hold limit runs.now old 0 0 → Hold limit made.new
        (λ d. if names dirs.now d then cell else old d) 0 0 }
{
    let next = begin(made, limit, dirs, cell, runs.cells[0]);
    let mut done = 1;
    for place in next..dirs.len() {
        let dir = dirs[place].number();
        keep(made, runs, index, limit, done, dir);
        extend(made, limit, dir, dir + 1, cell);
        done = dir + 1;
    }
    keep(made, runs, index, limit, done, limit);
}

// The index of these runs, in place of that of others.
fn index_again(starts: &[u32], index: &mut Vec<u32>, limit: u32)
    requires order { AreStarts starts.now }
    requires below { (run : ℕ) → run < length starts.now → slice_index starts.now run < limit }
    requires few { length starts.now ≤ limit }
    requires sized { length index.old.items ≡ limit / 256 + 2 }
    ensures { IsIndex limit starts.now index.new.items }
{
    for block in 0..index.len() {
        let first = (block * BLOCK).min(u32::MAX as usize) as u32;
        index[block] = run_of(starts, first) as u32;
    }
}

/// Writes the cell of each of these directories: in the spare room, which becomes the runs, or one by one.
pub(crate) fn write_all(
    runs: &mut Runs,
    spare: &mut Runs,
    index: &mut Vec<u32>,
    limit: u32,
    dirs: &[Dir],
    cell: u8,
)
    requires table { IsRunTable limit runs.old index.old.items }
    requires spare { HasRunRoom limit spare.old }
    requires inside { All (λ dir. dir < limit) dirs.now }
    requires small { cell ≤ 64 }
    ensures table { IsRunTable limit runs.new index.new.items }
    ensures spare { HasRunRoom limit spare.new }
    ensures cells { (old : ℕ → ℕ) → Hold limit runs.old old 0 0 → Hold limit runs.new
        (λ d. if names dirs.now d then cell else old d) 0 0 }
{
    let count = runs.starts.len();
    // to write one directory moves about half of the runs, many at a time
    let moved = dirs.len().saturating_mul(count) / MOVED_IN_A_STEP;
    if moved >= dirs.len().saturating_add(count) && is_rising(dirs) {
        make_anew(spare, runs, index, limit, dirs, cell);
        index_again(&spare.starts, index, limit);
        swap(runs, spare);
        return;
    }
    for dir in dirs {
        write(runs, index, limit, dir.number(), cell);
    }
}
