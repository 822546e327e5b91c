//! What pins hold, and what that comes to at each rank.
//! A directory is held by the nearest pin at or above it that this program didn't set.
//! What is spread, or may not be pinned, is held where it lies, and so is what is below it.
ghost use Rattle.std.specs.Prelude.{◌≡◌, ◌<◌, ◌+◌, ◌↔◌, ℕ, Some, false, length, min, slice_index, true, IfOk};
ghost use Rattle.ceph_snapshot.specs.Holding.{AreParentsFirst, IsHeld, held_at};
ghost use Rattle.ceph_snapshot.specs.Holding.{held_below, held_below_then, hold_below, is_at, most_heat};

use crate::directory::{Directory, own_heats};
use mds_types::Rank;
use std::alloc::{AllocError, Global};

/// What holds a directory.
#[derive(Clone, Copy, Debug, PartialEq, Eq)]
pub enum Held {
    /// Nothing: it can be planned.
    Free,
    /// A pin at or above it, to this rank.
    Pinned(Rank),
    /// It or a directory above it is spread or may not be pinned, and it lies at this rank.
    Spread(Rank),
}

impl Held {
    /// The rank at which it is held.
    pub fn rank(self) -> Option<Rank>
        ensures { (r : ℕ) → (result ≡ Some r) ↔ (is_at self r ≡ true) }
    {
        match self {
            Held::Free => None,
            Held::Pinned(rank) | Held::Spread(rank) => Some(rank),
        }
    }
}

/// The rank at which a directory's heat counts as held. What is spread itself counts where it was seen.
fn counted(is_spread: bool, hold: Held) -> Option<Rank>
    ensures { (r : ℕ) → (result ≡ Some r) ↔ ((is_at hold r ≡ true) × (is_spread ≡ false)) }
{
    if is_spread { None } else { hold.rank() }
}

/// What holds a directory with this pin that is at rank `now`, where its parent is held so.
fn next_hold(pin: Option<Rank>, is_fixed: bool, now: Rank, above: Held) -> Held
    ensures { result ≡ hold_below pin is_fixed now above }
{
    if let Some(rank) = pin {
        return Held::Pinned(rank);
    }
    if is_fixed {
        return Held::Spread(now);
    }
    match above {
        Held::Spread(_) => Held::Spread(now),
        Held::Free | Held::Pinned(_) => above,
    }
}

/// What holds each directory. The root itself can't be pinned.
pub fn holds(alloc: Global, directories: &[Directory]) -> Result<Vec<Held>, AllocError>
    ensures size { IfOk result (λ holds. length holds.items ≡ length directories.now) }
    ensures held { IfOk result (λ holds. AreParentsFirst directories.now → (i : ℕ) → i < length directories.now
        → IsHeld directories.now i (held_at holds.items i)) }
{
    let mut found = Vec::with_capacity(alloc, directories.len())?;
    for (at, directory) in directories.iter().enumerate() {
        let hold = if at == 0 {
            Held::Free
        } else {
            match found.get(directory.parent as usize) {
                Some(above) => {
                    next_hold(directory.pin, directory.is_fixed(), directory.now, *above)
                }
                None => Held::Free,
            }
        };
        found.push(hold)?;
    }
    Ok(found)
}

/// The heat that is held at each of 64 ranks where directory i has `heats[i]`, in thousandths: `spread` and what is
/// pinned.
pub fn held_heat_then(
    alloc: Global,
    directories: &[Directory],
    holds: &[Held],
    heats: &[u64],
    spread: &[u64],
) -> Result<Vec<u64>, AllocError>
    requires holds { length holds.now ≡ length directories.now }
    requires heats { length heats.now ≡ length directories.now }
    requires spread { length spread.now ≡ 64 }
    ensures size { IfOk result (λ held. length held.items ≡ 64) }
    ensures heats { IfOk result (λ held. (r : ℕ) → r < 64 → slice_index held.items r
        ≡ min most_heat (slice_index spread.now r
        + held_below_then directories.now holds.now (slice_index heats.now) r (length directories.now))) }
{
    let mut held = spread.to_vec(alloc)?;
    for (at, directory) in directories.iter().enumerate() {
        if let Some(rank) = counted(directory.is_spread, holds[at]) {
            let number = usize::from(rank.number());
            held[number] = held[number].saturating_add(heats[at]);
        }
    }
    Ok(held)
}

/// The heat that is held at each of 64 ranks, in thousandths: `spread` and what is pinned.
pub fn held_heat(
    alloc: Global,
    directories: &[Directory],
    holds: &[Held],
    spread: &[u64],
) -> Result<Vec<u64>, AllocError>
    requires holds { length holds.now ≡ length directories.now }
    requires spread { length spread.now ≡ 64 }
    ensures size { IfOk result (λ heats. length heats.items ≡ 64) }
    ensures heats { IfOk result (λ heats. (r : ℕ) → r < 64 → slice_index heats.items r
        ≡ min most_heat (slice_index spread.now r + held_below directories.now holds.now r (length directories.now))) }
{
    let heats = own_heats(alloc, directories)?;
    let held = held_heat_then(alloc, directories, holds, &heats, spread)?;
    Ok(held)
}
