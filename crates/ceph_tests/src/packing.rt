//! Parts that are packed on ranks, and what that comes to.

use crate::given::{by_rank, first, rank};
use crate::same::{Row, Sure, same_in, same_rows};
use ceph_plan::{Packed, Packings, are_parts, are_pinned, heats_bound, one_hour, pack};
use mds_types::{Problem, ProblemRow, Rank, RankSet};
use std::alloc::{AllocError, Global};
use std::process::Abort;

// Each row's heat, and the rank that has it now.
fn rows_of(rt: &impl Abort, alloc: Global, given: &[(u64, u8)]) -> Vec<ProblemRow> {
    let mut rows = Vec::new(alloc);
    for (heat, now) in given {
        rows.push(ProblemRow {
            parent: 0,
            heat: *heat,
            inodes: 1,
            now: rank(*now),
        })
        .sure(rt);
    }
    rows
}

// Row i is of part i.
const PARTS: &[u32] = &[0, 1, 2, 3, 4, 5];

// The packings, none where `pack` doesn't take what it is given.
fn packed_rows(
    alloc: Global,
    problem: &Problem,
    part: &[u32],
    by_rank: &[u64],
) -> Result<Option<Packings>, AllocError> {
    let rows = problem.rows();
    let ranks = problem.ranks();
    let fits = rows.len() == part.len() && !rows.is_empty() && ranks.has(Rank::default());
    if fits && are_parts(part, 64) && are_pinned(by_rank) {
        let hours = one_hour(alloc, rows, by_rank)?;
        Ok(Some(pack(alloc, rows, part, 64, &hours, ranks)?))
    } else {
        Ok(None)
    }
}

// The packing of this tolerance.
fn of_tolerance(packings: &[Packed], keep: u8) -> Option<&Packed> {
    for packed in packings {
        if packed.packing.keep == keep {
            return Some(packed);
        }
    }
    None
}

fn packed(rt: &impl Abort, alloc: Global, row: &Case) -> Packings {
    let ranks = RankSet::from_bits(7);
    let problem = Problem::new(rows_of(rt, alloc, row.given), ranks).sure(rt);
    let part = first(PARTS, row.given.len());
    let by_rank = by_rank(rt, alloc, row.pinned);
    let packings = packed_rows(alloc, &problem, part, &by_rank).sure(rt);
    packings.ok_or("it isn't packed").sure(rt)
}

/// The loads of the first ranks, the greatest, that of the packing by heat only, and the inodes that move.
type Loads<'a> = (&'a [u64], u64, u64, u64);

/// What is tried, and what it comes to.
struct Case {
    name: &'static str,
    /// Heats, and the ranks that have them now.
    given: &'static [(u64, u8)],
    /// What is pinned to the first ranks.
    pinned: &'static [u64],
    /// By how many percent a load may pass the greatest so that a part stays: one of those that are tried.
    keep: u8,
    ranks: &'static [u8],
    loads: Loads<'static>,
}

const PACKED: &[Case] = &[
    Case {
        name: "the hottest first",
        given: &[(0, 0), (7, 0), (6, 0), (5, 0), (4, 0), (3, 0)],
        pinned: &[],
        keep: 0,
        ranks: &[0, 0, 1, 2, 2, 1],
        loads: (&[7, 9, 9], 9, 9, 4),
    },
    Case {
        name: "among equals the rank that has most of the part",
        given: &[(0, 0), (7, 2)],
        pinned: &[],
        keep: 0,
        ranks: &[0, 2],
        loads: (&[0, 0, 7], 7, 7, 0),
    },
    Case {
        name: "a part stays where it is while another rank is hotter anyway",
        given: &[(3, 0), (5, 0)],
        pinned: &[0, 100],
        keep: 0,
        ranks: &[0, 0],
        loads: (&[8, 100, 0], 100, 100, 0),
    },
    Case {
        name: "and goes where the least is pinned otherwise",
        given: &[(3, 0), (99, 0)],
        pinned: &[0, 100],
        keep: 0,
        ranks: &[0, 2],
        loads: (&[3, 100, 99], 100, 100, 1),
    },
    Case {
        name: "a part stays where the load passes the greatest by as much as is allowed",
        given: &[(0, 0), (1000, 1), (500, 1)],
        pinned: &[],
        keep: 50,
        ranks: &[0, 1, 1],
        loads: (&[0, 1500, 0], 1500, 1000, 0),
    },
    Case {
        name: "and goes where it passes it by more",
        given: &[(0, 0), (1000, 1), (501, 1)],
        pinned: &[],
        keep: 50,
        ranks: &[0, 1, 0],
        loads: (&[501, 1000, 0], 1000, 1000, 1),
    },
];

impl Row<u8> for Rank {
    fn is_as(&self, row: &u8) -> bool {
        self.number() == *row
    }
}

fn loads_of(found: &Packed) -> Loads<'_> {
    let packing = &found.packing;
    (
        first(&packing.load, 3),
        packing.greatest,
        packing.even,
        found.moved,
    )
}

/// The parts are at the row's ranks, and the first ranks have its loads.
fn same_packing(rt: &impl Abort, found: &Packed, row: &Case) {
    let ranks = first(&found.packing.rank, row.ranks.len());
    same_rows(rt, ranks, row.ranks, row.name);
    same_in(rt, &loads_of(found), &row.loads, &row.name);
}

fn packs_so(rt: &impl Abort, alloc: Global, row: &Case) {
    let packings = packed(rt, alloc, row);
    let found = of_tolerance(&packings.each, row.keep);
    same_packing(rt, found.ok_or("no such tolerance").sure(rt), row);
}

#[test]
fn packs_the_hottest_first(rt: HostRuntime) {
    for row in PACKED {
        packs_so(&rt, rt.alloc(), row);
    }
}

/// Heats, what is pinned to the first of three ranks, and what no assignment can get below.
const BOUNDS: &[(&[u64], &[u64], u64)] = &[
    // the mean load, rounded up
    (&[3, 2, 2, 2], &[], 3),
    (&[6, 5, 4, 3], &[1], 7),
    // the hottest directory, where least is pinned
    (&[150, 20], &[30, 60, 60], 180),
    // what is pinned to one rank
    (&[7], &[0, 100], 100),
    (&[], &[], 0),
];

/// The bound of heats, where this is pinned to the first ranks.
fn bound_of(rt: &impl Abort, alloc: Global, heats: &[u64], pinned: &[u64]) -> u64 {
    let pinned = by_rank(rt, alloc, pinned);
    assert!(rt; are_pinned(&pinned));
    let ranks = RankSet::from_bits(7);
    assert!(rt; ranks.has(Rank::default()));
    heats_bound(heats, &pinned, ranks)
}

#[test]
fn bounds_what_can_be_had(rt: HostRuntime) {
    for (heats, pinned, wanted) in BOUNDS {
        same_in(
            &rt,
            &bound_of(&rt, rt.alloc(), heats, pinned),
            wanted,
            heats,
        );
    }
}
