//! The directory where Ceph's policy of distributed pins helps most, and what it gives there.
ghost use Rattle.std.specs.Prelude.{◌≡◌, ◌+◌, ◌<◌, ◌↔◌, ℕ, drop, false, length, min, slice_index, true};
ghost use Rattle.std.specs.Prelude.{IfOk, IfSome, IsTrue, MatchOption};
ghost use Rattle.ceph_snapshot.specs.Holding.{most_heat};
ghost use Rattle.ceph_pins.specs.Spreads.{CanBeSpread, IsAdvised, IsPlaceFound, child_rank, heat_at_rank};
ghost use Rattle.ceph_pins.specs.Spreads.{is_at_rank};

use crate::children::{heat_at, heats_below, hot_children};
use crate::ranks::rank_of_child;
use ceph_snapshot::Directory;
use std::alloc::{AllocError, Global};

/// What Ceph's policy of distributed pins on a directory would give.
#[derive(Drop)]
pub struct Advice {
    /// The path of the directory.
    pub path: Vec<u8>,
    /// How many hot children it has that nothing holds.
    pub children: usize,
    /// The heat at and below its children, in thousandths.
    pub heat: u64,
    /// What of that would be at each rank, in thousandths.
    pub spread: Vec<u64>,
}

/// Whether the policy can be set on a directory, and has at least 16 hot children to spread.
fn can_be_spread(directories: &[Directory], hot: &[u64], at: usize) -> bool
    requires inside { at < length directories.now }
    requires size { length hot.now ≡ length directories.now }
    ensures { IsTrue result ↔ CanBeSpread directories.now hot.now at }
{
    let directory = &directories[at];
    at > 0
        && directory.inode.is_some()
        && directory.policy.is_none()
        && !directory.is_fixed()
        && hot[at] >= 16
}

/// Whether more heat is below a directory than below the one that was found before, if there is one.
fn is_hotter(below: &[u64], at: usize, found: Option<usize>) -> bool
    requires inside { at < length below.now }
    requires found { IfSome found (λ place. place < length below.now) }
    ensures { MatchOption found (IsTrue result)
        (λ place. IsTrue result ↔ (slice_index below.now place < slice_index below.now at)) }
{
    match found {
        None => true,
        Some(place) => below[place] < below[at],
    }
}

/// The directory whose children have most heat, of those on which the policy can be set.
fn hottest(directories: &[Directory], below: &[u64], hot: &[u64]) -> Option<usize>
    requires below { length below.now ≡ length directories.now }
    requires hot { length hot.now ≡ length directories.now }
    ensures { IsPlaceFound directories.now below.now hot.now (length directories.now) result }
{
    let mut found = None;
    for at in 0..directories.len() {
        if can_be_spread(directories, hot, at) && is_hotter(below, at, found) {
            found = Some(at);
        }
    }
    found
}

/// What follows a directory's path and a slash.
fn name_after<'a>(path: &'a [u8], above: &[u8]) -> &'a [u8]
    ensures { result.now ≡ drop (length above.now + 1) path.now }
{
    if above.len() < path.len() {
        &path[above.len() + 1..]
    } else {
        &path[path.len()..]
    }
}

/// The rank to which the policy on the directory at `place` would pin the one at `at`.
#[tactic(auto, unfolding(crate::specs::Spreads::child_rank))]
fn child_rank(directories: &[Directory], size: u8, place: usize, at: usize) -> u8
    requires place { place < length directories.now }
    requires at { at < length directories.now }
    ensures value { result ≡ child_rank directories.now size place at }
    ensures small { 0 < size → result < size }
{
    let above = &directories[place];
    let name = name_after(&directories[at].path, &above.path);
    rank_of_child(above.inode.unwrap_or(0), name, size)
}

/// Adds the heat at and below a directory to that of its rank, if it is a child of the directory at `place`.
#[tactic(auto, unfolding(crate::specs::Children::is_child_of, crate::specs::Spreads::is_at_rank))]
fn add_child(
    directories: &[Directory],
    spread: &mut Vec<u64>,
    size: u8,
    place: usize,
    at: usize,
    heat: u64,
)
    requires some { 0 < size }
    requires size { length spread.old.items ≡ size }
    requires place { place < length directories.now }
    requires inside { at < length directories.now }
    ensures size { length spread.new.items ≡ size }
    ensures rank { (r : ℕ) → is_at_rank directories.now size place r at ≡ true
        → slice_index spread.new.items r ≡ min most_heat (slice_index spread.old.items r + heat) }
    ensures others { (r : ℕ) → is_at_rank directories.now size place r at ≡ false
        → slice_index spread.new.items r ≡ slice_index spread.old.items r }
{
    if place < at && directories[at].parent as usize == place {
        let rank = usize::from(child_rank(directories, size, place, at));
        spread[rank] = spread[rank].saturating_add(heat);
    }
}

/// What would be at each rank of what the children of a directory have.
fn spread_over(
    alloc: Global,
    directories: &[Directory],
    heats: &[u64],
    below: &[u64],
    size: u8,
    place: usize,
) -> Result<Vec<u64>, AllocError>
    requires heats { length heats.now ≡ length directories.now }
    requires below { length below.now ≡ length directories.now }
    requires some { 0 < size }
    requires inside { place < length directories.now }
    ensures ranks { IfOk result (λ spread. length spread.items ≡ size) }
    ensures spread { IfOk result (λ spread. (r : ℕ) → r < size → slice_index spread.items r
        ≡ min most_heat (heat_at_rank directories.now heats.now below.now size (length directories.now) place r)) }
{
    let mut spread = vec![in alloc; 0u64; usize::from(size)]?;
    for at in 0..directories.len() {
        add_child(
            directories,
            &mut spread,
            size,
            place,
            at,
            heat_at(heats, below, at),
        );
    }
    Ok(spread)
}

/// The directory where the policy helps most, and what it gives there. `heats[i]` is the own heat of directory i, and 0
/// if something holds it. The policy doesn't move that of the directory itself. There is none for fewer than two ranks.
pub fn advised(
    alloc: Global,
    directories: &[Directory],
    heats: &[u64],
    size: u8,
) -> Result<Option<Advice>, AllocError>
    requires { length heats.now ≡ length directories.now }
    ensures { IfOk result (λ found. IsAdvised directories.now heats.now size found) }
{
    let below = heats_below(alloc, directories, heats)?;
    let hot = hot_children(alloc, directories, heats, &below)?;
    let Some(place) = hottest(directories, &below, &hot) else {
        return Ok(None);
    };
    if size < 2 {
        return Ok(None);
    }
    Ok(Some(Advice {
        path: Vec::from_slice(alloc, &directories[place].path)?,
        children: hot[place] as usize,
        heat: below[place],
        spread: spread_over(alloc, directories, heats, &below, size, place)?,
    }))
}
