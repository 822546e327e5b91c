//! The largest connected sets of directories that all are to go from one rank to another.
ghost use Rattle.std.specs.Prelude.{◌≡◌, IfOk};
ghost use Rattle.tree_parts.specs.Largest.{AreOrders};
ghost use Rattle.tree_parts.specs.Orders.{orders};

use crate::found::FoundSets;
use crate::moves::{move_of, parent_that_moves_too};
use dirtree::Tree;
use mds_types::{Dir, Order, Rank};
use std::alloc::{AllocError, Global};

/// The orders that bring each directory to the rank that it is to be at.
///
/// `now[d]` is the rank that has directory d, and `target[d]` the rank that it is to be at. A
/// directory moves where these are two ranks. What lies beyond the end of either list stays.
///
/// There is one order for each largest set of directories that is connected in the tree and goes
/// from one rank to another. They are in the rising order of their tops, and the directories of
/// each by their own. One pass finds them, since a parent's number is smaller than its child's.
pub fn orders(
    alloc: Global,
    tree: &Tree,
    now: &[Option<Rank>],
    target: &[Option<Rank>],
) -> Result<Vec<Order>, AllocError>
    ensures exact { IfOk result (λ found. found.items ≡ orders tree.now.entries now.now target.now) }
    ensures largest { IfOk result (λ found. AreOrders tree.now.entries now.now target.now found.items) }
{
    let mut found = FoundSets::new(alloc, tree.numbers())?;
    for number in 0..tree.numbers() {
        let dir = Dir::new(number);
        if let Some(made) = move_of(tree, now, target, dir) {
            match parent_that_moves_too(tree, now, target, dir, &made) {
                Some(parent) => found.join(parent, dir)?,
                None => found.begin(alloc, &made, dir)?,
            }
        }
    }
    found.into_orders(alloc)
}
