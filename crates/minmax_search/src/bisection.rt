//! The search for the least greatest heat.

ghost use Rattle.std.specs.Prelude.{◌<◌, ◌≤◌, length, IfOk};
ghost use Rattle.mds_types.specs.Problem.{IsForest};
ghost use Rattle.mds_types.specs.RankSet.{rank_count};
ghost use Rattle.minmax_search.specs.Found.{IsFound};

use crate::choice_of_proof::prove_least;
use crate::found::BestCut;
use crate::narrow::{narrow, start};
use mds_types::{CutProof, Problem, ProblemRow};
use residual_cut::{Walk, Weighed, cut_cool, cut_linked, weigh};
use std::alloc::{AllocError, Global};

/// A cut into at most `ranks` parts with the least greatest heat. They may be more than a set of ranks holds.
pub fn search_rows(alloc: Global, rows: &[ProblemRow], ranks: u32) -> Result<BestCut, AllocError>
    requires forest { IsForest rows.now }
    requires some { 0 < length rows.now }
    requires ranks { 0 < ranks }
    ensures { IfOk result (IsFound rows.now ranks) }
{
    let mut passes = 0;
    let from = start(rows, ranks);
    let trees = weigh(alloc, rows, from.low)?;
    let mut rest = trees.heat.clone()?;
    let of = Weighed {
        rows,
        trees: &trees,
        ranks,
    };
    let greatest = narrow(alloc, of, &mut rest, from, &mut passes)?;
    let of = Walk {
        rows,
        links: &trees.links,
        bound: greatest,
    };
    let cut = cut_linked(alloc, of, &mut passes)?;
    let proof = prove_least(alloc, of, ranks, &mut passes)?;
    Ok(BestCut {
        cut,
        greatest,
        proof,
        passes,
    })
}

/// A cut into at most as many parts as there are ranks, with the least greatest heat.
pub fn search(problem: &Problem, alloc: Global) -> Result<BestCut, AllocError>
    ensures { IfOk result (IsFound problem.now.rows (rank_count problem.now.ranks)) }
{
    let rows = problem.rows();
    if rows.is_empty() {
        let mut passes = 0;
        return Ok(BestCut {
            cut: cut_cool(alloc, rows, 0, &mut passes)?,
            greatest: 0,
            proof: CutProof::Zero,
            passes,
        });
    }
    search_rows(alloc, rows, u32::from(problem.ranks().len()))
}
