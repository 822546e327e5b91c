//! Orders of random trees, compared with the sets that grow from one directory.

use crate::random::Random;
use crate::same::{Sure, same_in};
use dirtree::Tree;
use mds_types::{Dir, Dirs, Order, Rank};
use std::alloc::{AllocError, Global};
use std::process::Abort;
use tree_parts::orders;

/// Directories of a tree.
const DIRS: usize = 16;

/// The parent of each directory, and its ranks before and after. The root is its own parent.
#[derive(Drop)]
struct Moves {
    parents: [u32; DIRS],
    now: [Option<Rank>; DIRS],
    target: [Option<Rank>; DIRS],
}

/// A rank of two, seldom none.
fn random_rank(random: &mut Random) -> Option<Rank> {
    Rank::new([0, 0, 0, 0, 1, 1, 1, 1, 64][random.below(9) as usize])
}

fn random_moves(random: &mut Random) -> Moves {
    let mut moves = Moves {
        parents: [0; DIRS],
        now: [None; DIRS],
        target: [None; DIRS],
    };
    for dir in 0..DIRS {
        moves.parents[dir] = random.below(dir.max(1) as u64) as u32;
        moves.now[dir] = random_rank(random);
        moves.target[dir] = random_rank(random);
    }
    moves
}

fn tree_of(rt: &impl Abort, alloc: Global, parents: &[u32; DIRS]) -> Tree {
    let mut tree = Tree::new(alloc, 64).sure(rt);
    for dir in 1..DIRS {
        let name = format!(in alloc; "d{dir}").sure(rt);
        let made = tree.make(alloc, Dir::new(parents[dir]), name.as_str(), 1);
        same_in(rt, &made, &Ok(Dir::new(dir as u32)), &dir);
    }
    tree
}

impl Moves {
    /// The source and the destination of a directory that moves.
    fn of(&self, dir: usize) -> Option<(Rank, Rank)> {
        let from = (*self.now.get(dir)?)?;
        let to = (*self.target.get(dir)?)?;
        if from == to { None } else { Some((from, to)) }
    }

    /// Adds each directory that moves as its parent does, where the parent is in, and the other way round.
    fn grow(&self, inside: &mut [bool; DIRS]) {
        for dir in 1..DIRS {
            let parent = self.parents[dir] as usize;
            if parent < DIRS && self.of(dir) == self.of(parent) && (inside[dir] || inside[parent]) {
                inside[dir] = true;
                inside[parent] = true;
            }
        }
    }

    /// The directories that a set of one grows to, by as many rounds as there are directories.
    fn grown(&self, alloc: Global, start: usize) -> Result<Vec<Dir>, AllocError> {
        let mut inside = [false; DIRS];
        if start < DIRS {
            inside[start] = true;
        }
        for _ in 0..DIRS {
            self.grow(&mut inside);
        }
        let mut dirs = Vec::new(alloc);
        for (dir, is_in) in inside.iter().enumerate() {
            if *is_in {
                dirs.push(Dir::new(dir as u32))?;
            }
        }
        Ok(dirs)
    }

    /// The grown sets, each from the least of its directories.
    fn orders(&self, alloc: Global) -> Result<Vec<Order>, AllocError> {
        let mut orders = Vec::new(alloc);
        for start in 0..DIRS {
            let dirs = self.grown(alloc, start)?;
            if let Some((from, to)) = self.of(start)
                && dirs.first() == Some(&Dir::new(start as u32))
            {
                let dirs = Dirs::new(dirs);
                orders.push(Order { from, to, dirs })?;
            }
        }
        Ok(orders)
    }
}

#[test]
fn orders_of_random_trees_are_grown_sets(rt: HostRuntime) {
    let mut random = Random::new(7);
    for round in 0..200 {
        let moves = random_moves(&mut random);
        let tree = tree_of(&rt, rt.alloc(), &moves.parents);
        let found = orders(rt.alloc(), &tree, &moves.now, &moves.target).sure(&rt);
        let wanted = moves.orders(rt.alloc()).sure(&rt);
        same_in(&rt, &found.as_slice(), &wanted.as_slice(), &round);
    }
}
