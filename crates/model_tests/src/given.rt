//! Problems and lists that tests are given.
//!
//! Each call that takes memory is made again where a growth was refused, so tests that use these hold with any
//! one growth refused.

use crate::random::Random;
use crate::same::Sure;
use mds_types::{Problem, ProblemRow, Rank, RankSet, Row};
use std::alloc::Global;
use std::process::Abort;

/// Parent and heat of a row, which has one inode, at rank 0.
pub type Given = (u32, u64);

/// Cuts, rest, price of a table's row, and whether it is cut.
pub type InTable = (u32, u64, u64, bool);

/// An empty list with room for `count` entries.
fn room<T>(rt: &impl Abort, alloc: Global, count: usize) -> Vec<T> {
    match Vec::with_capacity(alloc, count) {
        Ok(list) => list,
        Err(_) => Vec::with_capacity(alloc, count).sure(rt),
    }
}

/// Whether a table has these rows.
pub fn are_entries(rows: &[Row], wanted: &[InTable]) -> bool {
    for (row, wanted) in rows.iter().zip(wanted.iter()) {
        if (row.cuts, row.rest, row.price, row.cut) != *wanted {
            return false;
        }
    }
    rows.len() == wanted.len()
}

/// A row of one inode at rank 0.
fn small_row(parent: u32, heat: u64) -> ProblemRow {
    ProblemRow {
        parent,
        heat,
        inodes: 1,
        now: Rank::default(),
    }
}

/// `count` rows below a cold root. The first one's heat, and what each has more or less than the one before.
pub fn star(
    rt: &impl Abort,
    alloc: Global,
    count: usize,
    first: u64,
    more: u64,
    less: u64,
) -> Vec<ProblemRow> {
    let mut rows = room(rt, alloc, count.saturating_add(1));
    let mut heat = first;
    rows.push(small_row(0, 0)).sure(rt);
    for _ in 0..count {
        rows.push(small_row(0, heat)).sure(rt);
        heat = heat.saturating_add(more).saturating_sub(less);
    }
    rows
}

/// A chain of `count` rows of heat 1.
pub fn chain(rt: &impl Abort, alloc: Global, count: u32) -> Vec<ProblemRow> {
    let mut rows = room(rt, alloc, count as usize);
    for row in 0..count {
        rows.push(small_row(row.saturating_sub(1), 1)).sure(rt);
    }
    rows
}

/// A chain of twice as many rows, cold but for those before and after the row `half`. The search cuts at that row.
pub fn two_hot(rt: &impl Abort, alloc: Global, half: u32) -> Vec<ProblemRow> {
    let mut rows = chain(rt, alloc, half.saturating_mul(2));
    for (i, row) in rows.iter_mut().enumerate() {
        row.heat = u64::from(i.abs_diff(half as usize) == 1);
    }
    rows
}

/// Random rows with heats below a limit.
pub fn random_rows(
    rt: &impl Abort,
    alloc: Global,
    random: &mut Random,
    count: u32,
    heat_limit: u64,
) -> Vec<ProblemRow> {
    assert!(rt; heat_limit > 0);
    match random.rows(alloc, count, heat_limit) {
        Ok(rows) => rows,
        Err(_) => random.rows(alloc, count, heat_limit).sure(rt),
    }
}

/// The problem of these rows, with the ranks of a bit map.
pub fn problem(rt: &impl Abort, alloc: Global, given: &[Given], ranks: u64) -> Problem {
    let mut rows = room(rt, alloc, given.len());
    for &(parent, heat) in given {
        rows.push(small_row(parent, heat)).sure(rt);
    }
    over(rt, rows, ranks)
}

/// The problem of rows that are listed.
pub fn over(rt: &impl Abort, rows: Vec<ProblemRow>, ranks: u64) -> Problem {
    match Problem::new(rows, RankSet::from_bits(ranks)) {
        Ok(problem) => problem,
        Err(_) => panic!(rt; "no problem"),
    }
}

/// The first `count` ranks.
pub fn first_ranks(count: u8) -> u64 {
    if count >= 64 {
        return u64::MAX;
    }
    (1 << count) - 1
}
