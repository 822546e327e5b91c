//! Which of several cuts within a bound is found: the hottest rests go first, among equals the smaller row.
//!
//! Each call that takes memory is made again where a growth was refused, so the tests hold with any one
//! growth refused.

use crate::given::{Given, InTable, are_entries, over, problem, star};
use crate::same::{Sure, holds_in, same_in};
use mds_types::Problem;
use residual_cut::{Cut, cut_at};
use std::alloc::Global;
use std::process::Abort;

/// What a cut is in the end.
pub fn cut_within(rt: &impl Abort, alloc: Global, problem: &Problem, bound: u64) -> Cut {
    let (mut first, mut second) = (0, 0);
    match cut_at(problem, alloc, bound, &mut first) {
        Ok(cut) => cut,
        Err(_) => cut_at(problem, alloc, bound, &mut second).sure(rt),
    }
}

/// A root with three directories.
pub const STAR: [Given; 4] = [(0, 2), (0, 5), (0, 4), (0, 3)];

/// The table of its cut within 7 or 8.
pub const STAR_TABLE: [InTable; 4] = [
    (2, 5, 4, false),
    (0, 5, 0, true),
    (0, 4, 0, true),
    (0, 3, 0, false),
];

/// A root with four directories, two of them equally hot.
const EQUALS: [Given; 5] = [(0, 1), (0, 3), (0, 5), (0, 5), (0, 4)];

// (rows that are cut within a bound, the part of each row, the table)
const CUTS: [(&[Given], u64, &[u32], &[InTable]); 3] = [
    (&STAR, 7, &[0, 1, 2, 0], &STAR_TABLE),
    (
        &EQUALS,
        13,
        &[0, 0, 1, 0, 0],
        &[
            (1, 13, 5, false),
            (0, 3, 0, false),
            (0, 5, 0, true),
            (0, 5, 0, false),
            (0, 4, 0, false),
        ],
    ),
    (
        &EQUALS,
        8,
        &[0, 0, 1, 2, 0],
        &[
            (2, 8, 5, false),
            (0, 3, 0, false),
            (0, 5, 0, true),
            (0, 5, 0, true),
            (0, 4, 0, false),
        ],
    ),
];

#[test]
fn cuts_the_hottest_pieces(rt: HostRuntime) {
    for (rows, bound, part, table) in CUTS {
        let cut = cut_within(&rt, rt.alloc(), &problem(&rt, rt.alloc(), rows, 1), bound);
        same_in(&rt, &cut.part.as_slice(), &part, &bound);
        holds_in(&rt, are_entries(&cut.rows, table), &bound);
    }
}

/// Whether just the rows from `low` to `high` are parts of their own.
fn are_cut(part: &[u32], low: u32, high: u32) -> bool {
    for row in 0..301u32 {
        let is_cut = low <= row && row <= high;
        let expected = if is_cut {
            row.saturating_sub(low) + 1
        } else {
            0
        };
        if part.get(row as usize).copied() != Some(expected) {
            return false;
        }
    }
    true
}

// (the first one's heat, what each has more, or less, the bound, the first and the last that is cut)
const WIDE: [(u64, u64, u64, u64, u32, u32); 3] = [
    (1, 1, 0, 20000, 200, 300),
    (300, 0, 1, 20000, 1, 101),
    (10, 0, 0, 1000, 1, 200),
];

#[test]
fn cuts_many_children_of_one_row(rt: HostRuntime) {
    for (first, more, less, bound, low, high) in WIDE {
        let rows = star(&rt, rt.alloc(), 300, first, more, less);
        let cut = cut_within(&rt, rt.alloc(), &over(&rt, rows, 1), bound);
        holds_in(&rt, are_cut(&cut.part, low, high), &(low, high));
    }
}
