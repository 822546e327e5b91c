//! Plans and proposals of small trees.

use crate::given::{by_rank, first};
use crate::refused::{WANTED, proposed};
use crate::same::{Sure, same_in};
use ceph_plan::{PlanError, Planned, Wanted, choose_plan, one_hour};
use mds_types::{ProblemRow, Rank, RankSet};
use std::alloc::Global;
use std::process::Abort;

/// A root with children that have these heats, all at rank 0.
pub(crate) fn star(rt: &impl Abort, alloc: Global, heats: &[u64]) -> Vec<ProblemRow> {
    let mut rows = Vec::new(alloc);
    for heat in heats {
        rows.push(ProblemRow {
            parent: 0,
            heat: *heat,
            inodes: 10,
            now: Rank::default(),
        })
        .sure(rt);
    }
    rows
}

/// The greatest load of a plan, and the inodes that move.
fn planned(rt: &impl Abort, alloc: Global, heats: &[u64], pinned: &[u64]) -> (u64, u64) {
    let rows = star(rt, alloc, heats);
    let pinned = by_rank(rt, alloc, pinned);
    let plan = proposed(alloc, &rows, &pinned).sure(rt).plan;
    (plan.packing.greatest, plan.moved)
}

/// Heats, those pinned to the first ranks, and then the greatest load, and the inodes that move.
const PLANNED: &[(&[u64], &[u64], (u64, u64))] = &[
    (&[0, 6, 5, 4, 3], &[], (7, 20)),
    // what is pinned counts
    (&[0, 6, 6], &[0, 6], (6, 10)),
    // one hot child: the rest is divided all the same
    (&[0, 90, 20, 20, 20, 20, 20, 20], &[0, 60, 60], (120, 50)),
    (&[0], &[], (0, 0)),
];

#[test]
fn plans_as_cool_as_can_be(rt: HostRuntime) {
    for (heats, pinned, wanted) in PLANNED {
        let told = planned(&rt, rt.alloc(), heats, pinned);
        same_in(&rt, &told, wanted, heats);
    }
}

/// The plan for one hour.
fn chosen(
    alloc: Global,
    rows: &[ProblemRow],
    wanted: Wanted,
    held: &[u64],
    ranks: RankSet,
) -> Result<Planned, PlanError> {
    let hours = one_hour(alloc, rows, held)?;
    choose_plan(alloc, rows, wanted, &hours, ranks)
}

/// Why there is no plan of these rows, pinned heats and ranks.
fn refusal(alloc: Global, rows: &[ProblemRow], held: &[u64], mask: u64) -> Option<PlanError> {
    chosen(alloc, rows, WANTED, held, RankSet::from_bits(mask)).err()
}

/// No heat is pinned to any rank.
const NOTHING_HELD: &[u64] = &[0; 64];

/// The heats of rows, how many ranks have pinned heats, which ranks are usable, and why that is refused.
const REFUSED: &[(&[u64], usize, u64, Option<PlanError>)] = &[
    (&[1, 2], 64, 6, Some(PlanError::NoRankZero)),
    (&[], 64, 7, Some(PlanError::NoDirectory)),
    (&[1, 2], 63, 7, Some(PlanError::PinnedTooHot)),
];

#[test]
fn refuses_what_it_cant_plan(rt: HostRuntime) {
    for (heats, ranks, mask, error) in REFUSED {
        let rows = star(&rt, rt.alloc(), heats);
        let found = refusal(rt.alloc(), &rows, first(NOTHING_HELD, *ranks), *mask);
        same_in(&rt, &found, error, heats);
    }
}

/// The inodes that move with each of these tolerances, where 50 children of the root have heat by Zipf's law.
fn moved_by_tolerance(rt: &impl Abort, alloc: Global, tolerances: &[u8]) -> Vec<u64> {
    let mut heats = Vec::new(alloc);
    for place in 0..=50u64 {
        let heat = if place == 0 { 0 } else { 100_000 / place };
        heats.push(heat).sure(rt);
    }
    let rows = star(rt, alloc, &heats);
    let mut moved = Vec::new(alloc);
    for keep in tolerances {
        let wanted = Wanted {
            keep: *keep,
            ..WANTED
        };
        let ranks = RankSet::from_bits(7);
        let plan = chosen(alloc, &rows, wanted, NOTHING_HELD, ranks).sure(rt);
        moved.push(plan.moved).sure(rt);
    }
    moved
}

/// How often a number is greater than the one before.
fn rises(numbers: &[u64]) -> u32 {
    let (mut rises, mut before) = (0u32, u64::MAX);
    for number in numbers {
        if *number > before {
            rises = rises.saturating_add(1);
        }
        before = *number;
    }
    rises
}

/// Tolerances in percent, a larger one after a smaller one.
const TOLERATED: &[u8] = &[0, 1, 5, 20, 100];

#[test]
fn a_larger_tolerance_moves_no_more(rt: HostRuntime) {
    let moved = moved_by_tolerance(&rt, rt.alloc(), TOLERATED);
    same_in(&rt, &rises(&moved), &0, &moved.as_slice());
}
