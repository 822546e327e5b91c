//! Costs of parts in chunks of rows, and which of several best placings is found.
//!
//! Each call that takes memory is made again where a growth was refused, so the tests hold with any one
//! growth refused.
ghost use Rattle.std.specs.Prelude.{◌≡◌, ◌<◌, ◌≤◌, ℕ, true, length, slice_index};
ghost use Rattle.mds_types.specs.RankSet.{rank_count};

use crate::given::problem;
use crate::same::{Sure, holds_in, same_in};
use mds_types::{Problem, Rank, RankSet};
use rank_assign::{Assigned, Costs, assign, costs_by, sums};
use std::alloc::Global;
use std::process::Abort;
use std::thread::Threads;

/// Whether there is a part for each row, below a count that the ranks allow.
fn fits(problem: &Problem, part: &[u32], count: u32) -> bool
    ensures size { result ≡ true → length part.now ≡ length problem.now.rows }
    ensures below { result ≡ true → (i : ℕ) → i < length problem.now.rows → slice_index part.now i < count }
    ensures few { result ≡ true → count ≤ rank_count problem.now.ranks }
{
    part.len() == problem.rows().len()
        && count <= u32::from(problem.ranks().len())
        && part.iter().all(|&p| p < count)
}

/// The part of each row of a chain.
const PART: &[u32] = &[0, 0, 1, 1];

/// The costs of a division in two, from chunks of `chunk` rows.
fn costs_of<R: Abort + Threads + Sync>(
    rt: &R,
    alloc: Global,
    problem: &Problem,
    chunk: usize,
) -> Costs {
    if chunk == 0 || !fits(problem, PART, 2) {
        panic!(rt; "no division");
    }
    match costs_by(rt, alloc, problem, PART, 2, chunk) {
        Ok(costs) => costs,
        Err(_) => costs_by(rt, alloc, problem, PART, 2, chunk).sure(rt),
    }
}

/// The inodes of each part by present rank.
fn sums_of(rt: &impl Abort, alloc: Global, problem: &Problem) -> Vec<u64> {
    if problem.rows().len() < 4 || !fits(problem, PART, 2) {
        panic!(rt; "no division");
    }
    match sums(alloc, problem, PART, 2, 0, 4) {
        Ok(sums) => sums,
        Err(_) => sums(alloc, problem, PART, 2, 0, 4).sure(rt),
    }
}

#[test]
fn adds_up_chunks_of_rows(rt: HostRuntime) {
    let chain = [(0, 0), (0, 3), (1, 3), (2, 3)];
    let problem = problem(&rt, rt.alloc(), &chain, 3);
    for chunk in [1, 3, 4, 100] {
        let costs = costs_of(&rt, rt.alloc(), &problem, chunk);
        same_in(&rt, &costs.cells(), &[0, 2, 0, 2].as_slice(), &chunk);
    }
    let sums = sums_of(&rt, rt.alloc(), &problem);
    same_in(&rt, &sums.get(64).copied(), &Some(2), &"part 1, rank 0");
}

/// The placing that is found in the end.
fn assigned(rt: &impl Abort, alloc: Global, costs: &Costs) -> Assigned {
    match assign(alloc, costs) {
        Ok(placing) => placing,
        Err(_) => assign(alloc, costs).sure(rt),
    }
}

/// The costs that are in these cells, which fit.
fn given_costs(rt: &impl Abort, alloc: Global, ranks: u64, cells: &[u64], count: u32) -> Costs {
    let cells = match cells.to_vec(alloc) {
        Ok(cells) => cells,
        Err(_) => cells.to_vec(alloc).sure(rt),
    };
    let costs = Costs::new(count, RankSet::from_bits(ranks), cells);
    costs.ok_or("no costs").sure(rt)
}

/// Whether these are the numbers of the ranks.
fn are_ranks(ranks: &[Rank], numbers: &[u8]) -> bool {
    for (rank, number) in ranks.iter().zip(numbers.iter()) {
        if rank.number() != *number {
            return false;
        }
    }
    ranks.len() == numbers.len()
}

// (ranks, cells, the rank of each part)
const TIES: [(u64, &[u64], &[u8]); 3] = [
    (5, &[], &[]),
    (7, &[1, 1, 1], &[0]),
    (0x31, &[2, 2, 2, 2, 2, 2], &[0, 4]),
];

#[test]
fn takes_one_of_several_best_placings(rt: HostRuntime) {
    for (ranks, cells, wanted) in TIES {
        let count = wanted.len() as u32;
        let costs = given_costs(&rt, rt.alloc(), ranks, cells, count);
        let placing = assigned(&rt, rt.alloc(), &costs);
        holds_in(&rt, are_ranks(placing.ranks.as_slice(), wanted), &cells);
    }
}
