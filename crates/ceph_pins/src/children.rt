//! The heat of the children of each directory, with what is below them.
ghost use Rattle.std.specs.Prelude.{◌≡◌, ◌+◌, ◌<◌, ℕ, false, length, min, nat_lt, slice_index, true, IfOk};
ghost use Rattle.std.specs.Prelude.{if◌then◌else◌};
ghost use Rattle.ceph_snapshot.specs.Holding.{most_heat};
ghost use Rattle.ceph_pins.specs.Children.{AreBelow, AreHotCounts, heat_from, is_child_of};

use ceph_snapshot::Directory;
use std::alloc::{AllocError, Global};

/// The heat at and below a directory, as far as 64 bits can count it.
#[tactic(auto, unfolding(crate::specs::Children::heat_from))]
pub fn heat_at(heats: &[u64], below: &[u64], at: usize) -> u64
    requires heats { at < length heats.now }
    requires below { at < length below.now }
    ensures { result ≡ heat_from heats.now below.now at }
{
    heats[at].saturating_add(below[at])
}

/// Adds a number to the sum of the parent of the directory at `at`, as far as 64 bits can count it.
#[tactic(auto, unfolding(crate::specs::Children::is_child_of))]
fn add_to_parent(directories: &[Directory], sums: &mut Vec<u64>, at: usize, number: u64)
    requires inside { at < length directories.now }
    requires size { length sums.old.items ≡ length directories.now }
    ensures size { length sums.new.items ≡ length sums.old.items }
    ensures parent { (i : ℕ) → is_child_of directories.now i at ≡ true
        → slice_index sums.new.items i ≡ min most_heat (slice_index sums.old.items i + number) }
    ensures others { (i : ℕ) → is_child_of directories.now i at ≡ false
        → slice_index sums.new.items i ≡ slice_index sums.old.items i }
{
    let above = directories[at].parent as usize;
    if above < at {
        sums[above] = sums[above].saturating_add(number);
    }
}

/// The heat below each directory. `heats[i]` is the own heat of directory i.
pub fn heats_below(
    alloc: Global,
    directories: &[Directory],
    heats: &[u64],
) -> Result<Vec<u64>, AllocError>
    requires { length heats.now ≡ length directories.now }
    ensures { IfOk result (λ below. AreBelow directories.now heats.now below.items) }
{
    let mut below = vec![in alloc; 0u64; directories.len()]?;
    for at in (0..directories.len()).rev() {
        let heat = heat_at(heats, &below, at);
        add_to_parent(directories, &mut below, at, heat);
    }
    Ok(below)
}

/// One if a directory is hot, and zero otherwise.
fn one_if_hot(heats: &[u64], below: &[u64], at: usize) -> u64
    requires heats { at < length heats.now }
    requires below { at < length below.now }
    ensures { result ≡ (if nat_lt 0 (heat_from heats.now below.now at) then 1 else 0) }
{
    if heat_at(heats, below, at) > 0 { 1 } else { 0 }
}

/// How many children of each directory are hot.
pub fn hot_children(
    alloc: Global,
    directories: &[Directory],
    heats: &[u64],
    below: &[u64],
) -> Result<Vec<u64>, AllocError>
    requires heats { length heats.now ≡ length directories.now }
    requires below { length below.now ≡ length directories.now }
    ensures { IfOk result (λ hot. AreHotCounts directories.now heats.now below.now hot.items) }
{
    let mut hot = vec![in alloc; 0u64; directories.len()]?;
    for at in 0..directories.len() {
        add_to_parent(directories, &mut hot, at, one_if_hot(heats, below, at));
    }
    Ok(hot)
}
