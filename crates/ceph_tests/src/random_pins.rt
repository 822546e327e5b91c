//! Changes of pins on random trees, judged by a plain walk up from each directory.

use crate::given::{changes_of, first, rank};
use crate::same::{Sure, same_in};
use ceph_plan::{PinChange, PinRow};
use mds_types::Rank;
use std::alloc::Global;
use std::process::Abort;

/// How many trees are tried.
const TREES: u64 = 10_000;

/// The next of a sequence of numbers below `limit`.
fn below(seed: &mut u64, limit: u8) -> u8 {
    *seed = seed
        .wrapping_mul(6364136223846793005)
        .wrapping_add(1442695040888963407);
    let number = (*seed >> 33).checked_rem(u64::from(limit)).unwrap_or(0);
    u8::try_from(number).unwrap_or(0)
}

/// A rank in one case of `one_in`.
fn maybe_rank(seed: &mut u64, one_in: u8) -> Option<Rank> {
    if below(seed, one_in) == 0 {
        Some(rank(below(seed, 4)))
    } else {
        None
    }
}

/// A row below the root with any target, pins and parent.
fn random_row(seed: &mut u64, at: u8) -> PinRow {
    PinRow {
        parent: u32::from(below(seed, at)),
        target: rank(below(seed, 4)),
        foreign: maybe_rank(seed, 8),
        earlier: maybe_rank(seed, 3),
        rest: None,
    }
}

/// A random tree.
fn random_rows(rt: &impl Abort, alloc: Global, seed: &mut u64) -> Vec<PinRow> {
    let root = PinRow {
        parent: 0,
        target: rank(0),
        foreign: None,
        earlier: None,
        rest: Some(rank(0)),
    };
    let mut rows = Vec::new(alloc);
    rows.push(root).sure(rt);
    for at in 1..=below(seed, 12) {
        rows.push(random_row(seed, at)).sure(rt);
    }
    rows
}

/// A row's own pin once these changes are made.
fn own_pin(row: &PinRow, at: usize, changes: &[PinChange]) -> Option<Rank> {
    let mut pin = row.foreign.or(row.earlier);
    for change in changes {
        if change.row as usize == at {
            pin = change.pin;
        }
    }
    pin
}

/// The rank of the nearest pin at or above a row, once these changes are made.
fn nearest(rows: &[PinRow], changes: &[PinChange], at: usize) -> Option<Rank> {
    let mut here = at;
    let mut pin = None;
    for _ in rows {
        if let (None, Some(row)) = (pin, rows.get(here)) {
            pin = own_pin(row, here, changes);
            here = row.parent as usize;
        }
    }
    pin
}

/// Whether a foreign pin is at or above a row.
fn is_held(rows: &[PinRow], at: usize) -> bool {
    let mut here = at;
    let mut is_held = false;
    for _ in rows {
        if let Some(row) = rows.get(here) {
            is_held |= row.foreign.is_some();
            here = row.parent as usize;
        }
    }
    is_held
}

/// Whether a row is where it should once all changes are made (a foreign pin may hold it elsewhere), and its nearest
/// pin isn't on a third rank once the first `made` are made.
fn is_right(rows: &[PinRow], changes: &[PinChange], made: usize, at: usize, target: Rank) -> bool {
    let now = nearest(rows, first(changes, made), at);
    let last = nearest(rows, changes, at);
    let is_there = last == Some(target) || at == 0 || is_held(rows, at);
    is_there && (now.is_none() || now == last || now == nearest(rows, &[], at))
}

/// How many rows of a tree aren't right once the first `made` changes are made.
fn wrong_count(rows: &[PinRow], changes: &[PinChange], made: usize) -> usize {
    let mut count = 0usize;
    for (at, row) in rows.iter().enumerate() {
        let is_right = is_right(rows, changes, made, at, row.target);
        count = count.saturating_add(usize::from(!is_right));
    }
    count
}

/// How many rows are misplaced in the end or stray meanwhile.
fn all_wrong(rows: &[PinRow], changes: &[PinChange]) -> usize {
    let mut count = 0usize;
    for made in 0..=changes.len() {
        count = count.saturating_add(wrong_count(rows, changes, made));
    }
    count
}

/// Tries one random tree: how many rows are wrong.
fn tried(rt: &impl Abort, alloc: Global, seed: &mut u64) -> usize {
    let rows = random_rows(rt, alloc, seed);
    let changes = changes_of(rt, alloc, &rows);
    all_wrong(&rows, &changes)
}

#[test]
fn random_trees_end_where_they_should(rt: HostRuntime) {
    let mut seed = 1;
    for tree in 0..TREES {
        same_in(&rt, &tried(&rt, rt.alloc(), &mut seed), &0, &tree);
    }
}
