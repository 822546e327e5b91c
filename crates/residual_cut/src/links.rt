//! The children of each row as a list through two arrays.

ghost use Rattle.std.specs.Prelude.{IfOk};
ghost use Rattle.mds_types.specs.Problem.{IsForest};
ghost use Rattle.residual_cut.specs.Links.{CanCut, IsLinked};

use mds_types::ProblemRow;
use std::alloc::{AllocError, Global};

/// Each row's first child and next sibling, or 0 where it has none.
#[derive(Drop)]
pub struct Links {
    /// The first child of each row.
    pub first: Vec<u32>,
    /// The next child of the same parent.
    pub next: Vec<u32>,
}

/// Rows that can be cut at a bound.
#[derive(Clone, Copy)]
pub struct Walk<'a> {
    /// The rows.
    pub rows: &'a [ProblemRow],
    /// Their children.
    pub links: &'a Links,
    /// No piece is to be hotter, in accesses.
    pub bound: u64,
    pub ghost can_cut: { CanCut rows.now links.now bound },
}

/// Links the children of each row in rising order.
pub fn link(alloc: Global, rows: &[ProblemRow]) -> Result<Links, AllocError>
    requires { IsForest rows.now }
    ensures { IfOk result (λ links. IsLinked rows.now links.first.items links.next.items 1) }
{
    let mut first = vec![in alloc; 0; rows.len()]?;
    let mut next = vec![in alloc; 0; rows.len()]?;
    for i in (1..rows.len()).rev() {
        let parent = rows[i].parent as usize;
        next[i] = first[parent];
        first[parent] = i as u32;
    }
    Ok(Links { first, next })
}
