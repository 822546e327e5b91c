//! From dumps to pins while single growths of memory are refused (`rt try --test --fail-alloc N`).

use crate::same::{holds_in, same};
use ceph_dumps::{DumpError, read_listing, read_loads, read_subtrees};
use ceph_folding::fold;
use ceph_plan::{OwnPins, PartCount, PlanError, Proposal, Wanted, one_hour, propose};
use ceph_snapshot::{
    Directory, Gathering, Held, Snapshot, SnapshotError, held_heat, holds, rows_of,
};
use mds_types::{ProblemRow, Rank, RankSet};
use std::alloc::{AllocError, AllocFailed, Global};

/// Why there was no answer.
#[derive(Clone, Copy, Debug)]
pub(crate) enum Refused {
    /// A growth was refused.
    Memory,
    /// Anything else, which no dump here gives a cause for.
    Wrong,
}

impl From<AllocError> for Refused {
    fn from(_: AllocError) -> Refused {
        Refused::Memory
    }
}

impl<T: Drop> From<AllocFailed<T>> for Refused {
    fn from(_: AllocFailed<T>) -> Refused {
        Refused::Memory
    }
}

impl From<DumpError> for Refused {
    fn from(error: DumpError) -> Refused {
        match error {
            DumpError::Memory => Refused::Memory,
            _ => Refused::Wrong,
        }
    }
}

impl From<SnapshotError> for Refused {
    fn from(error: SnapshotError) -> Refused {
        match error {
            SnapshotError::Memory => Refused::Memory,
            SnapshotError::TooMany
            | SnapshotError::Elsewhere
            | SnapshotError::TwoClaims { .. }
            | SnapshotError::Unclaimed { .. } => Refused::Wrong,
        }
    }
}

impl From<PlanError> for Refused {
    fn from(error: PlanError) -> Refused {
        match error {
            PlanError::Memory => Refused::Memory,
            _ => Refused::Wrong,
        }
    }
}

/// Five directories with heat below the root.
const LOADS: &[u8] =
    b"{\"dirfrags\":[{\"path\":\"/a\",\"pop_me\":{\"Decay Counters\":[{\"value\":6}]}},\
{\"path\":\"/b\",\"pop_me\":{\"Decay Counters\":[{\"value\":5}]}},\
{\"path\":\"/c\",\"pop_me\":{\"Decay Counters\":[{\"value\":4}]}},\
{\"path\":\"/d/x\",\"pop_me\":{\"Decay Counters\":[{\"value\":1}]}},\
{\"path\":\"/d\",\"pop_me\":{\"Decay Counters\":[{\"value\":3}]}}]}";

/// The root at rank 0.
const SUBTREES: &[u8] =
    b"[{\"is_auth\":true,\"auth_first\":0,\"auth_second\":-2,\"export_pin\":-1,\"dir\":{\"path\":\"\"}}]";

/// The entries of one directory.
const LISTING: &[u8] = b"# file: c\nceph.dir.entries=\"7\"\n";

/// Adds all that the dumps say.
fn add_all(alloc: Global, all: &mut Gathering) -> Result<(), Refused> {
    all.add_subtrees(Rank::default(), &read_subtrees(alloc, SUBTREES)?)?;
    all.add_loads(Rank::default(), &read_loads(alloc, LOADS)?)?;
    all.add_listing(&read_listing(alloc, LISTING)?)?;
    Ok(())
}

/// The directories of the dumps.
fn gathered(alloc: Global) -> Result<Snapshot, Refused> {
    let mut all = Gathering::new(alloc)?;
    add_all(alloc, &mut all)?;
    Ok(all.snapshot(&[], 1, RankSet::from_bits(7))?)
}

/// The directories that are left where one is folded.
fn left(alloc: Global, directories: Vec<Directory>) -> Result<Vec<Directory>, Refused> {
    let mut none = Vec::new(alloc);
    let (left, folded) = fold(alloc, directories, 5, &mut none)?;
    if folded == 1 {
        Ok(left)
    } else {
        Err(Refused::Wrong)
    }
}

/// As many parts as give the coolest plan, and none stays where it is for its inodes only.
pub(crate) const WANTED: Wanted = Wanted {
    parts: PartCount::Auto(1000),
    keep: 0,
    most_inodes: u64::MAX,
    rests: false,
};

/// A plan of these rows for three ranks, where nothing is pinned yet.
pub(crate) fn proposed(
    alloc: Global,
    rows: &[ProblemRow],
    pinned: &[u64],
) -> Result<Proposal, Refused> {
    let none = OwnPins {
        foreign: None,
        earlier: None,
        is_left: false,
    };
    let own = vec![in alloc; none; rows.len()]?;
    if own.len() != rows.len() {
        return Err(Refused::Wrong);
    }
    let hours = one_hour(alloc, rows, pinned)?;
    let ranks = RankSet::from_bits(7);
    Ok(propose(alloc, rows, WANTED, &hours, ranks, &own)?)
}

/// A plan of these directories, of which these are held.
fn planned(
    alloc: Global,
    directories: &[Directory],
    holds: &[Held],
    spread: &[u64],
) -> Result<Proposal, Refused> {
    if holds.len() != directories.len() || spread.len() != 64 {
        return Err(Refused::Wrong);
    }
    let pinned = held_heat(alloc, directories, holds, spread)?;
    let rows = rows_of(alloc, directories, holds)?;
    proposed(alloc, &rows, &pinned)
}

/// How many directories are left of six, the greatest load, the inodes that move, and the changes of pins.
type Answer = (usize, u64, u64, usize);

/// The answer for the directories that are left.
fn answer_of(alloc: Global, left: &[Directory], spread: &[u64]) -> Result<Answer, Refused> {
    let holds = holds(alloc, left)?;
    let found = planned(alloc, left, &holds, spread)?;
    let plan = &found.plan;
    let changes = found.changes.len();
    Ok((left.len(), plan.packing.greatest, plan.moved, changes))
}

/// The answer from the dumps on.
fn answer(alloc: Global) -> Result<Answer, Refused> {
    let snapshot = gathered(alloc)?;
    let left = left(alloc, snapshot.directories)?;
    answer_of(alloc, &left, &snapshot.spread)
}

// With `rt try --test --fail-alloc N`, the N-th growth is refused: one turn at most
// lacks memory, and each other answers as ever.
#[test]
fn a_refused_growth_is_told(rt: HostRuntime) {
    let mut refused = 0u32;
    for _ in 0..3 {
        match answer(rt.alloc()) {
            // /a and /b go, at an inode each; /c, and /d with what is folded into it, stay
            Ok(found) => same(&rt, &found, &(5, 8000, 2, 4)),
            Err(Refused::Memory) => refused = refused.saturating_add(1),
            Err(Refused::Wrong) => holds_in(&rt, false, &"refused for another cause"),
        }
    }
    holds_in(&rt, refused <= 1, &refused);
}
