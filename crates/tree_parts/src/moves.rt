//! The move that a directory is to make, and the directories that move with their parents.
ghost use Rattle.std.specs.Prelude.{◌≡◌, Some, true, false, slice_index_or, MatchOption};
ghost use Rattle.dirtree.specs.Tree.{parent_of};
ghost use Rattle.tree_parts.specs.Moves.{is_same_move, is_top, move_of};

use dirtree::Tree;
use mds_types::{Dir, Rank};

/// From one rank to another.
#[derive(Clone, Copy)]
pub(crate) struct Move {
    pub(crate) from: Rank,
    pub(crate) to: Rank,
}

impl Move {
    fn is_same(&self, other: &Move) -> bool
        ensures { result ≡ is_same_move (Some self.now) (Some other.now) }
    {
        self.from == other.from && self.to == other.to
    }
}

// The rank of a directory in a list of ranks by directories' numbers.
fn rank_at(ranks: &[Option<Rank>], dir: Dir) -> Option<Rank>
    ensures { result ≡ slice_index_or ranks.now dir None }
{
    match ranks.get(dir.number() as usize) {
        Some(rank) => *rank,
        None => None,
    }
}

/// The move that a directory is to make. `now[d]` is the rank that has directory d, and `target[d]`
/// the rank that it is to be at.
pub(crate) fn move_of(
    tree: &Tree,
    now: &[Option<Rank>],
    target: &[Option<Rank>],
    dir: Dir,
) -> Option<Move>
    ensures { result ≡ move_of tree.now.entries now.now target.now dir }
{
    let from = rank_at(now, dir)?;
    let to = rank_at(target, dir)?;
    if from == to || !tree.contains(dir) {
        return None;
    }
    Some(Move { from, to })
}

/// The parent of a directory that is to make this move, if the parent is to make it too.
pub(crate) fn parent_that_moves_too(
    tree: &Tree,
    now: &[Option<Rank>],
    target: &[Option<Rank>],
    dir: Dir,
    made: &Move,
) -> Option<Dir>
    requires { move_of tree.now.entries now.now target.now dir ≡ Some made.now }
    ensures { let top = is_top tree.now.entries (move_of tree.now.entries now.now target.now) dir in
        MatchOption result (top ≡ true) (λ parent. (top ≡ false) × (parent ≡ parent_of tree.now.entries dir)) }
{
    if dir == Dir::ROOT {
        return None;
    }
    let parent = tree.row(dir)?.parent;
    let above = move_of(tree, now, target, parent)?;
    if above.is_same(made) {
        Some(parent)
    } else {
        None
    }
}
