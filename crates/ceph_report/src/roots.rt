//! How many roots of subtrees each rank has: Ceph keeps their list in memory, and writes it at the head of each segment
//! of a rank's journal.
ghost use Rattle.std.specs.Prelude.{◌≡◌, ◌<◌, ℕ, IfOk, None, length, slice_index, slice_index_or, if◌then◌else◌};
ghost use Rattle.ceph_snapshot.specs.Holding.{now_at};
ghost use Rattle.ceph_report.specs.Amounts.{AreAmounts};
ghost use Rattle.ceph_report.specs.Roots.{AreRoots, is_root, root_count};

use ceph_pins::pins_after;
use ceph_plan::{PinChange, PinRow};
use ceph_snapshot::Directory;
use mds_types::Rank;
use mds_types::limits::RANK_LIMIT;
use std::alloc::{AllocError, Global};

/// How many roots of subtrees each of 64 ranks has.
#[derive(Drop)]
pub struct Roots {
    /// Before changes of pins.
    pub now: Vec<u64>,
    /// Once they are made, and all directories are at their ranks.
    pub planned: Vec<u64>,
}

/// The rank that each directory is at.
fn ranks_now(alloc: Global, directories: &[Directory]) -> Result<Vec<Rank>, AllocError>
    ensures size { IfOk result (λ ranks. length ranks.items ≡ length directories.now) }
    ensures ranks { IfOk result (λ ranks. (i : ℕ) → i < length directories.now
        → slice_index ranks.items i ≡ now_at directories.now i) }
{
    let mut ranks = Vec::with_capacity(alloc, directories.len())?;
    for directory in directories {
        ranks.push(directory.now)?;
    }
    Ok(ranks)
}

/// The rank at a place, rank 0 where there is none.
fn rank_at(ranks: &[Rank], at: usize) -> Rank
    ensures { result ≡ slice_index ranks.now at }
{
    ranks.get(at).copied().unwrap_or_default()
}

/// 1 where the directory at a place is the root of a subtree, and 0 where it isn't.
fn root_of(directories: &[Directory], ranks: &[Rank], own: &[Option<Rank>], at: usize) -> u64
    requires { at < length own.now }
    ensures { result ≡ (if is_root directories.now (slice_index ranks.now) (λ i. slice_index_or own.now i None) at
        then 1 else 0) }
{
    let (pin, above) = match directories.get(at) {
        Some(directory) => (directory.pin, directory.parent as usize),
        None => (None, 0),
    };
    let is_apart = rank_at(ranks, at) != rank_at(ranks, above);
    u64::from(at == 0 || pin.is_some() || own[at].is_some() || is_apart)
}

/// How many roots of subtrees each rank has, where directories are at these ranks and this program's pins are these.
fn root_counts(
    alloc: Global,
    directories: &[Directory],
    ranks: &[Rank],
    own: &[Option<Rank>],
) -> Result<Vec<u64>, AllocError>
    ensures { IfOk result (λ counts. AreAmounts counts.items
        (λ r. root_count directories.now (slice_index ranks.now) (λ i. slice_index_or own.now i None) r
        (length own.now))) }
{
    let mut counts = vec![in alloc; 0u64; usize::from(RANK_LIMIT)]?;
    for at in 0..own.len() {
        let number = usize::from(rank_at(ranks, at).number());
        let more = root_of(directories, ranks, own, at);
        counts[number] = counts[number].saturating_add(more);
    }
    Ok(counts)
}

/// How many roots of subtrees each rank has before the changes, and after them, when `goals[i]` is the rank of
/// directory i.
pub fn roots_of(
    alloc: Global,
    directories: &[Directory],
    rows: &[PinRow],
    changes: &[PinChange],
    goals: &[Rank],
) -> Result<Roots, AllocError>
    ensures { IfOk result (AreRoots directories.now rows.now changes.now goals.now) }
{
    let ranks = ranks_now(alloc, directories)?;
    let before = pins_after(alloc, rows, &[])?;
    let after = pins_after(alloc, rows, changes)?;
    Ok(Roots {
        now: root_counts(alloc, directories, &ranks, &before)?,
        planned: root_counts(alloc, directories, goals, &after)?,
    })
}
