//! The rows of a board's problem, in one pass over the directories' numbers.
ghost use Rattle.std.specs.Prelude.{◌≡◌, ◌<◌, ◌≤◌, ◌^◌, true, length, map, slice_index, slice_index_or, IfOk};
ghost use Rattle.mds_types.specs.Problem.{IsForest};
ghost use Rattle.dirtree.specs.Tree.{inodes_of, is_there, parent_of};
ghost use Rattle.dir_pins.specs.Pins.{unpinned};
ghost use Rattle.tree_parts.specs.ProblemRows.{problem_rows};

use dir_pins::Pins;
use dirtree::Tree;
use heat_decay::Heat;
use mds_types::{Dir, ProblemRow, Rank};
use std::alloc::{AllocError, Global};

/// The rows, each with its directory.
#[derive(Drop)]
pub struct Listed {
    pub rows: Vec<ProblemRow>,
    pub dirs: Vec<Dir>,
}

/// The row of a directory. `places[d]` is the row of directory d.
fn row(tree: &Tree, heat: &Heat, now: &[Rank], places: &[u32], dir: Dir) -> ProblemRow
    requires there { is_there tree.now.entries dir ≡ true }
    requires heats { dir < heat.now.limit }
    requires now { dir < length now.now }
    requires places { dir < length places.now }
    ensures row { result ≡ record {
      parent = slice_index places.now (parent_of tree.now.entries dir);
      heat = slice_index heat.now.heats dir;
      inodes = inodes_of tree.now.entries dir;
      now = slice_index_or now.now
          dir 0;
    } }
    ensures cool { result.heat ≤ 2 ^ 40 }
{
    let Some(found) = tree.row(dir) else {
        unreachable!()
    };
    ProblemRow {
        parent: places[found.parent.number() as usize],
        heat: heat.heat(dir),
        inodes: found.inodes,
        now: now[dir.number() as usize],
    }
}

/// The rows of the directories that no pin holds. A parent's number is smaller, so its row is known.
pub fn rows(
    alloc: Global,
    tree: &Tree,
    pins: &Pins,
    heat: &Heat,
    now: &[Rank],
) -> Result<Listed, AllocError>
    requires pins { tree.now.limit ≤ length pins.now.own }
    requires heats { tree.now.limit ≤ heat.now.limit }
    requires now { length tree.now.entries ≤ length now.now }
    ensures rows { IfOk result (λ found. found.rows.items
        ≡ problem_rows tree.now.entries pins.now.own heat.now.heats now.now) }
    ensures dirs { IfOk result (λ found. found.dirs.items ≡ unpinned tree.now.entries pins.now.own) }
    ensures forest { IfOk result (λ found. IsForest found.rows.items) }
{
    let count = tree.numbers() as usize;
    let mut known = vec![in alloc; false; count]?;
    let mut places = vec![in alloc; 0u32; count]?;
    let mut rows = Vec::with_capacity(alloc, count)?;
    let mut dirs = Vec::with_capacity(alloc, count)?;
    for number in 0..tree.numbers() {
        let dir = Dir::new(number);
        places[number as usize] = rows.len() as u32;
        let is_free = pins.is_unpinned(tree, &known, dir);
        known[number as usize] = is_free;
        if is_free {
            rows.push(row(tree, heat, now, &places, dir))?;
            dirs.push(dir)?;
        }
    }
    Ok(Listed { rows, dirs })
}
