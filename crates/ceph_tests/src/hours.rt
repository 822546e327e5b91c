//! Plans for several hours, hours that were not seen, and which hours are planned for.

use crate::given::by_rank;
use crate::plans::star;
use crate::refused::WANTED;
use crate::same::{Sure, same, same_in};
use ceph_plan::{Hour, HoursProposal, OwnPins, chosen_hours, made_hours, propose_for};
use mds_types::RankSet;
use std::alloc::Global;
use std::process::Abort;

/// Ranks 0 and 1.
const TWO_RANKS: u64 = 3;

/// A root with 4 children.
const FOUR: &[u64] = &[0, 0, 0, 0, 0];

/// The hour in which the rows have these heats, and nothing is pinned.
fn hour(rt: &impl Abort, alloc: Global, heats: &[u64]) -> Hour {
    Hour {
        heats: Vec::from_slice(alloc, heats).sure(rt),
        pinned: by_rank(rt, alloc, &[]),
    }
}

/// Hours in which the rows have these heats.
fn hours(rt: &impl Abort, alloc: Global, table: &[&[u64]]) -> Vec<Hour> {
    let mut hours = Vec::new(alloc);
    for heats in table {
        hours.push(hour(rt, alloc, heats)).sure(rt);
    }
    hours
}

/// So many rows without pins.
fn no_pins(rt: &impl Abort, alloc: Global, rows: usize) -> Vec<OwnPins> {
    let none = OwnPins {
        foreign: None,
        earlier: None,
        is_left: false,
    };
    vec![in alloc; none; rows].sure(rt)
}

/// A plan of a root with 4 children at rank 0 for two ranks and these hours, each of which counts in full.
fn planned(rt: &impl Abort, alloc: Global, table: &[&[u64]]) -> HoursProposal {
    let rows = star(rt, alloc, FOUR);
    let hours = hours(rt, alloc, table);
    let weights = vec![in alloc; 100u8; hours.len()].sure(rt);
    let own = no_pins(rt, alloc, rows.len());
    assert!(rt; own.len() == rows.len());
    let ranks = RankSet::from_bits(TWO_RANKS);
    propose_for(alloc, &rows, WANTED, &hours, &weights, ranks, &own).sure(rt)
}

/// The greatest of the first two loads of an hour.
fn greatest(loads: &[u64], hour: usize) -> u64 {
    let at = hour.saturating_mul(64);
    let one = loads.get(at).copied().unwrap_or_default();
    let other = loads.get(at.saturating_add(1)).copied().unwrap_or_default();
    one.max(other)
}

/// The greatest load of an hour as things are, with the plan, and what no plan gets below.
fn of_hour(found: &HoursProposal, hour: usize) -> (u64, u64, u64) {
    let bound = found.bounds.get(hour).copied().unwrap_or_default();
    (
        greatest(&found.before, hour),
        greatest(&found.loads, hour),
        bound,
    )
}

/// Hours, the heats of their rows, and what each of them comes to. Two children are hot in one hour, the others in the
/// next: they are apart in each, which no plan for one hour alone gives, nor one for their sum. The last three hours
/// are even once two parts are exchanged for one.
const PLANNED: &[(&[&[u64]], &[(u64, u64, u64)])] = &[
    (
        &[&[0, 10, 10, 0, 0], &[0, 0, 0, 10, 10]],
        &[(20, 10, 10), (20, 10, 10)],
    ),
    (&[&[0, 10, 10, 0, 0]], &[(20, 10, 10)]),
    (
        &[&[0, 9, 9, 0, 0], &[0, 0, 6, 6, 0], &[0, 4, 4, 4, 4]],
        &[(18, 9, 9), (12, 6, 6), (16, 8, 8)],
    ),
];

#[test]
fn a_plan_is_even_in_each_hour(rt: HostRuntime) {
    for (table, wanted) in PLANNED {
        let found = planned(&rt, rt.alloc(), table);
        for (hour, wanted) in wanted.iter().enumerate() {
            same_in(&rt, &of_hour(&found, hour), wanted, table);
        }
    }
}

/// Half of the load is alike on eight of the nine children, and the hot one has half of what it has.
const MADE: &[u64] = &[0, 80, 10, 10, 10, 10, 10, 10, 10, 10];

#[test]
fn half_of_the_load_is_made(rt: HostRuntime) {
    let now = hour(&rt, rt.alloc(), &[0, 160, 0, 0, 0, 0, 0, 0, 0, 0]);
    let rows = star(&rt, rt.alloc(), &now.heats);
    let mut free = vec![in rt.alloc(); true; rows.len()].sure(&rt);
    if let Some(hot) = free.get_mut(1) {
        *hot = false;
    }
    assert!(rt; free.len() == rows.len());
    let made = made_hours(rt.alloc(), &rows, &free, &now, 4).sure(&rt);
    same(&rt, &made.len(), &1);
    for one in &made {
        same(&rt, &one.parent, &0);
        same(&rt, &one.hour.heats.as_slice(), &MADE);
    }
}

/// The hours of which two are chosen: the second is as the first, and the last has little load.
const SEEN: &[&[u64]] = &[
    &[0, 10, 10, 0, 0],
    &[0, 10, 10, 0, 0],
    &[0, 0, 0, 10, 10],
    &[0, 0, 0, 0, 1],
];

#[test]
fn hours_that_differ_are_chosen(rt: HostRuntime) {
    let rows = star(&rt, rt.alloc(), FOUR);
    let hours = hours(&rt, rt.alloc(), SEEN);
    let own = no_pins(&rt, rt.alloc(), rows.len());
    assert!(rt; own.len() == rows.len());
    let ranks = RankSet::from_bits(TWO_RANKS);
    let chosen = chosen_hours(rt.alloc(), &rows, WANTED, &hours, ranks, &own, 2).sure(&rt);
    same(&rt, &chosen.as_slice(), &[0usize, 2].as_slice());
}
