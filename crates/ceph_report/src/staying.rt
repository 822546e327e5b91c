//! Which directories are left where they are, and why: others decide about them, or Ceph itself.
ghost use Rattle.std.specs.Prelude.{◌≡◌, ◌==◌, ◌<◌, ◌≤◌, None, is_some, length, min, slice_index, slice_index_or};
ghost use Rattle.std.specs.Prelude.{IfOk, ℕ};
ghost use Rattle.ceph_snapshot.specs.Holding.{most_heat, parent_at};
ghost use Rattle.ceph_report.specs.Moves.{AreLeaders};
ghost use Rattle.ceph_report.specs.Staying.{AreStays, followers, follows, has_policy_at, is_parted_at};
ghost use Rattle.ceph_report.specs.Staying.{stay_at, stay_of};

use crate::moves::leader;
use ceph_snapshot::{Directory, EphemeralPin};
use std::alloc::{AllocError, Global};

/// Why a directory is left where it is.
#[derive(Clone, Copy)]
pub enum Reason {
    /// Its own policy, by which Ceph pins what is below it.
    Policy(EphemeralPin),
    /// Somebody's pin to a rank that isn't there.
    Absent,
    /// Its inode number over the mount is another one than in the dumps, or it has none there.
    Doubtful,
    /// It is at several ranks, or Ceph pinned it by a policy that isn't known.
    Spread,
}

/// That a directory is left where it is.
#[derive(Clone, Copy)]
pub struct Stay {
    /// Why.
    pub why: Reason,
    /// How many directories below it are left with it: those of a policy, down to the next ones that have one.
    pub below: u64,
}

/// The place of the nearest directory at or above each directory that has a policy; the root's where there is none.
fn policy_leaders(alloc: Global, directories: &[Directory]) -> Result<Vec<usize>, AllocError>
    ensures led { IfOk result (λ leaders. AreLeaders (parent_at directories.now) (has_policy_at directories.now)
        (length directories.now) leaders.items) }
    ensures above { IfOk result (λ leaders. (i : ℕ) → i < length directories.now
        → slice_index leaders.items i ≤ i) }
{
    let mut leaders = Vec::with_capacity(alloc, directories.len())?;
    for at in 0..directories.len() {
        let directory = &directories[at];
        let has_policy = directory.policy.is_some();
        let one = leader(&leaders, has_policy, directory.parent as usize);
        leaders.push(one)?;
    }
    Ok(leaders)
}

/// 1 where another directory leads the one at this place, else 0.
fn follows(leaders: &[usize], at: usize) -> u64
    requires { at < length leaders.now }
    ensures { result ≡ follows leaders.now at }
{
    if leaders[at] == at { 0 } else { 1 }
}

/// How many directories each directory leads, without itself.
fn followers(alloc: Global, leaders: &[usize]) -> Result<Vec<u64>, AllocError>
    requires { (i : ℕ) → i < length leaders.now → slice_index leaders.now i < length leaders.now }
    ensures size { IfOk result (λ counts. length counts.items ≡ length leaders.now) }
    ensures counts { IfOk result (λ counts. (i : ℕ) → i < length leaders.now → slice_index counts.items i
        ≡ min most_heat (followers leaders.now (length leaders.now) i)) }
{
    let mut counts = vec![in alloc; 0u64; leaders.len()]?;
    for at in 0..leaders.len() {
        let leader = leaders[at];
        let more = follows(leaders, at);
        counts[leader] = counts[leader].saturating_add(more);
    }
    Ok(counts)
}

/// Whether the directory at a place is at several ranks, and what is above it doesn't.
fn is_torn(directories: &[Directory], leaders: &[usize], at: usize) -> bool
    requires size { length leaders.now ≡ length directories.now }
    requires inside { at < length directories.now }
    ensures { result ≡ is_parted_at directories.now leaders.now at }
{
    let directory = &directories[at];
    let is_ruled = match directories.get(leaders[at]) {
        Some(leader) => leader.policy.is_some(),
        None => false,
    };
    let is_below = match directories.get(directory.parent as usize) {
        Some(parent) => parent.is_spread,
        None => false,
    };
    directory.is_spread && !is_ruled && !is_below
}

/// Whether a directory with this policy is left where it is, and why.
fn stay_of(
    policy: Option<EphemeralPin>,
    is_absent: bool,
    is_doubtful: bool,
    is_torn: bool,
    below: u64,
) -> Option<Stay>
    ensures { result ≡ stay_of policy is_absent is_doubtful is_torn below }
{
    let (why, below) = match policy {
        Some(policy) => (Reason::Policy(policy), below),
        None if is_absent => (Reason::Absent, 0),
        None if is_doubtful => (Reason::Doubtful, 0),
        None if is_torn => (Reason::Spread, 0),
        None => return None,
    };
    Some(Stay { why, below })
}

/// Whether the directory at a place is left where it is, and why. `counts[i]` is how many directories follow
/// directory i.
fn stay_at(directories: &[Directory], leaders: &[usize], counts: &[u64], at: usize) -> Option<Stay>
    requires size { length leaders.now ≡ length directories.now }
    requires inside { at < length directories.now }
    requires counts { slice_index counts.now at ≡ min most_heat (followers leaders.now (length leaders.now) at) }
    requires counted { at < length counts.now }
    ensures { result ≡ stay_at directories.now leaders.now at }
{
    let directory = &directories[at];
    let is_torn = is_torn(directories, leaders, at);
    stay_of(
        directory.policy,
        directory.idle.is_some(),
        directory.is_doubtful,
        is_torn,
        counts[at],
    )
}

/// The same of each directory.
fn all_stays(
    alloc: Global,
    directories: &[Directory],
    leaders: &[usize],
    counts: &[u64],
) -> Result<Vec<Option<Stay>>, AllocError>
    requires size { length leaders.now ≡ length directories.now }
    requires counted { length counts.now ≡ length directories.now }
    requires counts { (i : ℕ) → i < length leaders.now
        → slice_index counts.now i ≡ min most_heat (followers leaders.now (length leaders.now) i) }
    ensures size { IfOk result (λ stays. length stays.items ≡ length directories.now) }
    ensures at { IfOk result (λ stays. (i : ℕ) → i < length directories.now
        → slice_index_or stays.items i None ≡ stay_at directories.now leaders.now i) }
{
    let mut stays = Vec::with_capacity(alloc, directories.len())?;
    for at in 0..directories.len() {
        stays.push(stay_at(directories, leaders, counts, at))?;
    }
    Ok(stays)
}

/// Of each directory whether it is left where it is, and why.
pub fn stays_of(alloc: Global, directories: &[Directory]) -> Result<Vec<Option<Stay>>, AllocError>
    ensures { IfOk result (λ stays. AreStays directories.now stays.items) }
{
    let leaders = policy_leaders(alloc, directories)?;
    let counts = followers(alloc, &leaders)?;
    all_stays(alloc, directories, &leaders, &counts)
}
