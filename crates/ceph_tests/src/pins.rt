//! Pins and changes of pins on small trees.

use crate::given::{changes_of, rank};
use crate::same::{Row, Sure, same_rows};
use ceph_plan::{Pin, PinChange, PinRow, are_rows, pins_for};
use mds_types::Rank;
use std::alloc::Global;
use std::process::Abort;

// A row's parent, target, foreign pin and resting rank; -1 is none.
type Given = (u32, u8, i8, i8);

fn some_rank(number: i8) -> Option<Rank> {
    u8::try_from(number).ok().map(rank)
}

/// What is tried, the rows, and the pins: each one's row and rank.
const PINNED: &[(&str, &[Given], &[(u32, u8)])] = &[
    (
        "all is where it is to be",
        &[(0, 0, -1, 0), (0, 0, -1, 0), (1, 0, -1, 0)],
        &[],
    ),
    (
        "the subtree of row 1 goes to rank 1, but for row 3",
        &[
            (0, 0, -1, 0),
            (0, 1, -1, 0),
            (1, 1, -1, 0),
            (2, 0, -1, 0),
            (1, 1, -1, 0),
        ],
        &[(3, 0), (1, 1)],
    ),
    (
        "row 1 is at rank 2, where nothing pins it: it has to be called back",
        &[(0, 0, -1, 0), (0, 0, -1, 2), (1, 0, -1, 2)],
        &[(1, 0)],
    ),
    (
        "where a row rests isn't known: each child of the root is pinned",
        &[
            (0, 0, -1, 0),
            (0, 0, -1, -1),
            (1, 0, -1, -1),
            (0, 0, -1, -1),
        ],
        &[(3, 0), (1, 0)],
    ),
    (
        "row 1 and what is below it belong to somebody else",
        &[(0, 0, -1, 0), (0, 1, 2, 2), (1, 1, -1, 2), (0, 1, -1, 0)],
        &[(3, 1)],
    ),
];

/// Rows, the first of which have these earlier pins; -1 is none.
fn rows_of(rt: &impl Abort, alloc: Global, given: &[Given], earlier: &[i8]) -> Vec<PinRow> {
    let mut rows = Vec::new(alloc);
    for (at, (parent, target, foreign, rest)) in given.iter().enumerate() {
        let row = PinRow {
            parent: *parent,
            target: rank(*target),
            foreign: some_rank(*foreign),
            earlier: some_rank(earlier.get(at).copied().unwrap_or(-1)),
            rest: some_rank(*rest),
        };
        rows.push(row).sure(rt);
    }
    rows
}

fn pins_of(rt: &impl Abort, alloc: Global, given: &[Given]) -> Vec<Pin> {
    let rows = rows_of(rt, alloc, given, &[]);
    assert!(rt; are_rows(&rows));
    pins_for(alloc, &rows).sure(rt)
}

impl Row<(u32, u8)> for Pin {
    fn is_as(&self, row: &(u32, u8)) -> bool {
        (self.row, self.rank.number()) == *row
    }
}

fn pins_so(rt: &impl Abort, alloc: Global, given: &[Given], wanted: &[(u32, u8)], name: &str) {
    same_rows(rt, &pins_of(rt, alloc, given), wanted, name);
}

#[test]
fn pins_where_a_rank_changes(rt: HostRuntime) {
    for (name, given, wanted) in PINNED {
        pins_so(&rt, rt.alloc(), given, wanted, name);
    }
}

// Row 1 goes from rank 1 to rank 2 and takes row 2 with it, row 3 is no longer apart, and row 4 has its pin already.
const GIVEN: &[Given] = &[
    (0, 0, -1, 0),
    (0, 2, -1, 0),
    (1, 2, -1, 0),
    (2, 2, -1, 0),
    (0, 1, -1, 0),
];

const EARLIER: &[i8] = &[-1, 1, -1, 0, 1];

/// The rows whose pins change, and their new pins; -1 is none.
const CHANGED: &[(u32, i8)] = &[(1, 2), (3, -1)];

impl Row<(u32, i8)> for PinChange {
    fn is_as(&self, row: &(u32, i8)) -> bool {
        (self.row, self.pin) == (row.0, some_rank(row.1))
    }
}

#[test]
fn changes_earlier_pins(rt: HostRuntime) {
    let rows = rows_of(&rt, rt.alloc(), GIVEN, EARLIER);
    let changes = changes_of(&rt, rt.alloc(), &rows);
    same_rows(&rt, &changes, CHANGED, "changes");
}
