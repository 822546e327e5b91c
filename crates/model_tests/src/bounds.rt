//! Which of several divisions with the least greatest heat is found, and which proof.
//!
//! Each call that takes memory is made again where a growth was refused, so the tests hold with any one
//! growth refused.

use crate::cuts::{STAR, STAR_TABLE, cut_within};
use crate::given::{
    Given, InTable, are_entries, chain, first_ranks, over, problem, random_rows, star,
};
use crate::random::Random;
use crate::same::{Sure, holds_in, same, same_in};
use mds_types::{CutProof, Problem, ProblemRow};
use minmax_search::{BestCut, search};
use std::alloc::Global;
use std::process::Abort;

/// What the search finds in the end.
fn found(rt: &impl Abort, alloc: Global, problem: &Problem) -> BestCut {
    match search(problem, alloc) {
        Ok(best) => best,
        Err(_) => search(problem, alloc).sure(rt),
    }
}

/// A proof that no division is cooler.
#[derive(Drop)]
enum Shown {
    Zero,
    Heavy(u32),
    Table(&'static [InTable]),
}

/// Whether this proof is shown.
fn is_shown(proof: &CutProof, shown: &Shown) -> bool {
    match (proof, shown) {
        (CutProof::Zero, Shown::Zero) => true,
        (CutProof::Heavy(row), Shown::Heavy(wanted)) => *row == *wanted,
        (CutProof::Table(table), Shown::Table(wanted)) => are_entries(table.rows(), wanted),
        _ => false,
    }
}

// (rows, ranks, the part of each row, the proof): the proof names the least row that is as hot
const SMALL_TREES: [(&[Given], u64, &[u32], &Shown); 5] = [
    (&STAR, 3, &[0, 1, 0, 0], &Shown::Table(&STAR_TABLE)),
    (&STAR, 7, &[0, 1, 2, 0], &Shown::Heavy(1)),
    (
        &[(0, 2), (0, 7), (0, 7), (1, 7)],
        15,
        &[0, 1, 2, 3],
        &Shown::Heavy(1),
    ),
    (&[], 3, &[], &Shown::Zero),
    (&[(0, 0), (0, 0)], 3, &[0, 0], &Shown::Zero),
];

#[test]
fn finds_one_division_and_proof(rt: HostRuntime) {
    for (rows, ranks, part, shown) in SMALL_TREES {
        let best = found(&rt, rt.alloc(), &problem(&rt, rt.alloc(), rows, ranks));
        same(&rt, &best.cut.part.as_slice(), &part);
        holds_in(&rt, is_shown(&best.proof, shown), &part);
    }
}

/// A large tree needs few passes.
fn needs_few_passes(rt: &impl Abort, alloc: Global, rows: Vec<ProblemRow>) {
    let best = found(rt, alloc, &over(rt, rows, u64::MAX));
    // at least the cut, the table below it and one walk that failed
    holds_in(rt, (3..=60).contains(&best.passes), &best.passes);
}

#[test]
fn searches_large_trees(rt: HostRuntime) {
    needs_few_passes(&rt, rt.alloc(), chain(&rt, rt.alloc(), 65536));
    let rows = star(&rt, rt.alloc(), 65535, 1 << 40, 0, 0);
    needs_few_passes(&rt, rt.alloc(), rows);
}

/// Whether the search's cut is that at the heat that it finds, and its table that just below.
fn is_cut_there(rt: &impl Abort, alloc: Global, rows: Vec<ProblemRow>, ranks: u8) -> bool {
    let problem = over(rt, rows, first_ranks(ranks));
    let best = found(rt, alloc, &problem);
    let is_same = cut_within(rt, alloc, &problem, best.greatest) == best.cut;
    let CutProof::Table(table) = &best.proof else {
        return is_same;
    };
    let below = cut_within(rt, alloc, &problem, best.greatest.saturating_sub(1));
    is_same && below.rows.as_slice() == table.rows()
}

#[test]
fn cut_and_table_are_those_at_the_bound(rt: HostRuntime) {
    let mut random = Random::new(23);
    for round in 0..60 {
        let count = 1 + random.below(40) as u32;
        let ranks = 1 + random.below(9) as u8;
        let rows = random_rows(&rt, rt.alloc(), &mut random, count, 12);
        holds_in(&rt, is_cut_there(&rt, rt.alloc(), rows, ranks), &round);
    }
}
