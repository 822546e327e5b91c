//! The problem of a board, and which directory each of its rows is.
ghost use Rattle.std.specs.Prelude.{◌≡◌, ◌<◌, ◌≤◌, ◌↔◌, Err, length, IfOk, IsOkUnless};
ghost use Rattle.mds_types.specs.RankSet.{rank_count};
ghost use Rattle.dir_pins.specs.Pins.{unpinned};
ghost use Rattle.tree_parts.specs.ProblemRows.{problem_rows};

use crate::open_error::OpenError;
use crate::rows::rows;
use dir_pins::Pins;
use dirtree::Tree;
use heat_decay::Heat;
use mds_types::{Dir, Problem, Rank, RankSet};
use std::alloc::Global;

/// A board's problem, and the directories of its rows.
#[derive(Drop)]
pub struct Opened {
    /// The directories that no pin holds, by rising numbers, and the ranks that may have them.
    pub problem: Problem,
    /// `dirs[i]` is the directory of the problem's row i.
    pub dirs: Vec<Dir>,
}

/// The problem of a tree: a row for each directory that no pin holds, by rising numbers, with its
/// heat in accesses, its inodes and the rank that has it now. `now[d]` is the rank that has directory d.
///
/// It is refused as `BalancerOff` exactly where the set has no rank, before any memory is asked for.
/// (The CephFS documentation, "Configuring multiple active MDS daemons", on `bal_rank_mask`.)
pub fn open(
    alloc: Global,
    tree: &Tree,
    pins: &Pins,
    heat: &Heat,
    now: &[Rank],
    ranks: RankSet,
) -> Result<Opened, OpenError>
    requires pins { tree.now.limit ≤ length pins.now.own }
    requires heats { tree.now.limit ≤ heat.now.limit }
    requires now { length tree.now.entries ≤ length now.now }
    ensures problem { IfOk result (λ opened. opened.problem
        ≡ record { rows = problem_rows tree.now.entries pins.now.own heat.now.heats now.now; ranks = ranks }) }
    ensures dirs { IfOk result (λ opened. opened.dirs.items ≡ unpinned tree.now.entries pins.now.own) }
    ensures off { result ≡ Err OpenError.BalancerOff ↔ (rank_count ranks ≡ 0) }
    ensures memory { 0 < rank_count ranks → IsOkUnless result OpenError.Memory }
{
    if ranks.is_empty() {
        return Err(OpenError::BalancerOff);
    }
    let listed = rows(alloc, tree, pins, heat, now)?;
    match Problem::new(listed.rows, ranks) {
        Ok(problem) => Ok(Opened {
            problem,
            dirs: listed.dirs,
        }),
        Err(_) => unreachable!(),
    }
}
