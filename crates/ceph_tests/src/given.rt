//! What the tests of several crates are given.

use crate::same::Sure;
use ceph_plan::{PinChange, PinRow, are_rows, changes_for};
use mds_types::Rank;
use std::alloc::Global;
use std::process::Abort;

/// The rank of a number below 64.
pub(crate) fn rank(number: u8) -> Rank {
    Rank::new(number).unwrap_or_default()
}

/// The first `count` of a list, or all.
pub(crate) fn first<T>(all: &[T], count: usize) -> &[T] {
    all.get(..count).unwrap_or(all)
}

/// A number for each of 64 ranks, of which the first have these.
pub(crate) fn by_rank(rt: &impl Abort, alloc: Global, first: &[u64]) -> Vec<u64> {
    let mut all = Vec::from_slice(alloc, first).sure(rt);
    all.resize(64, 0).sure(rt);
    all
}

/// The changes that put each row at its target.
pub(crate) fn changes_of(rt: &impl Abort, alloc: Global, rows: &[PinRow]) -> Vec<PinChange> {
    assert!(rt; are_rows(rows));
    changes_for(alloc, rows).sure(rt)
}
