//! Which directories may not be pinned: what Ceph itself pins, what somebody pinned to a rank that isn't there, and
//! what may be another directory over the mount.
ghost use Rattle.std.specs.Prelude.{◌≡◌, ◌==◌, ◌<◌, ◌&&◌, ◌||◌, ◌↔◌, ◌⊎◌};
ghost use Rattle.std.specs.Prelude.{ℕ, None, Some, length, true, IfOk, OnOk, slice_get};
ghost use Rattle.std.specs.Option.{option_map};
ghost use Rattle.ceph_dumps.specs.declared.listing.EphemeralPin.TheVariants.{Random};
ghost use Rattle.ceph_snapshot.specs.Holding.{AreParentsFirst, is_marked};
ghost use Rattle.ceph_snapshot.specs.Gathered.{listed_of, numbers_at, whose_pin_at};
ghost use Rattle.ceph_snapshot.specs.Policies.{KeepUnpinnable, HasBeaten, kept_where};
ghost use Rattle.ceph_snapshot.specs.Sightings.{position_of, account_of};

use crate::directory::Directory;
use ceph_dumps::EphemeralPin;
use std::alloc::{AllocError, Global};

/// Whether a pin on the parent of a directory would beat a random policy: at the directory, or below it as this says.
fn is_beaten(directory: &Directory, is_above: bool) -> bool
    ensures { (result ≡ true) ↔ ((directory.entry.now.pin ≡ None)
        × ((is_above ≡ true) ⊎ (directory.entry.now.policy ≡ Some Random))) }
{
    directory.pin.is_none() && (is_above || matches!(directory.policy, Some(EphemeralPin::Random)))
}

/// Marks a directory below the root, or none.
fn mark_if(marks: &mut Vec<bool>, at: usize, is_so: bool)
    ensures size { length marks.new.items ≡ length marks.old.items }
    ensures marks { (i : ℕ) → 0 < i → i < length marks.old.items
        → is_marked marks.new.items i ≡ ((is_so && (i == at)) || is_marked marks.old.items i) }
{
    if is_so && 0 < at && at < marks.len() {
        marks[at] = true;
    }
}

/// Which directories have a random policy below them, with no pin between.
fn above_random(alloc: Global, directories: &[Directory]) -> Result<Vec<bool>, AllocError>
    ensures size { IfOk result (λ marks. length marks.items ≡ length directories.now) }
    ensures marks { IfOk result (λ marks. AreParentsFirst directories.now → (i : ℕ) → 0 < i
        → i < length directories.now → (is_marked marks.items i ≡ true) ↔ HasBeaten directories.now 1 i) }
{
    let mut marks = vec![in alloc; false; directories.len()]?;
    for at in (1..directories.len()).rev() {
        let directory = &directories[at];
        let is_so = is_beaten(directory, marks[at]);
        mark_if(&mut marks, directory.parent as usize, is_so);
    }
    Ok(marks)
}

/// Keeps those directories that may not be pinned. `above[i]` says whether directory i has a random policy below it.
fn mark_kept(directories: &mut Vec<Directory>, above: &[bool])
    requires { length above.now ≡ length directories.old.items }
    ensures size { length directories.new.items ≡ length directories.old.items }
    ensures kept { (i : ℕ) → i < length directories.old.items → slice_get directories.new.items i
        ≡ option_map (kept_where (is_marked above.now i)) (slice_get directories.old.items i) }
{
    for at in 0..directories.len() {
        let directory = &mut directories[at];
        directory.is_kept = above[at]
            || directory.policy.is_some()
            || directory.idle.is_some()
            || directory.is_doubtful;
    }
}

/// Keeps those directories that may not be pinned: they stay where they lie.
pub(crate) fn keep(alloc: Global, directories: &mut Vec<Directory>) -> Result<(), AllocError>
    ensures size { OnOk result (length directories.new.items ≡ length directories.old.items) }
    ensures owner { OnOk result ((i : ℕ) → whose_pin_at directories.new.items i
        ≡ whose_pin_at directories.old.items i) }
    ensures account { OnOk result ((i : ℕ) → option_map account_of (slice_get directories.new.items i)
        ≡ option_map account_of (slice_get directories.old.items i)) }
    ensures place { OnOk result ((i : ℕ) → option_map position_of (slice_get directories.new.items i)
        ≡ option_map position_of (slice_get directories.old.items i)) }
    ensures listed { OnOk result ((i : ℕ) → option_map listed_of (slice_get directories.new.items i)
        ≡ option_map listed_of (slice_get directories.old.items i)) }
    ensures numbers { OnOk result ((i : ℕ) → numbers_at directories.new.items i
        ≡ numbers_at directories.old.items i) }
    ensures kept { OnOk result (AreParentsFirst directories.new.items → KeepUnpinnable directories.new.items) }
{
    let above = above_random(alloc, directories.as_slice())?;
    mark_kept(directories, above.as_slice());
    Ok(())
}
