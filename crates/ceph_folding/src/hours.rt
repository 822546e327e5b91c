//! The heats of earlier hours, folded as the directories are.
ghost use Rattle.std.specs.Prelude.{◌≡◌, ◌<◌, ℕ, Vec, false, length, slice_index, IfErr, IfOk};
ghost use Rattle.std.specs.Global.{Global};
ghost use Rattle.std.specs.List.{IsAmong};
ghost use Rattle.ceph_folding.specs.Folding.{AreHeatsLeft, AreHoursLeft, AreHoursOf, kept_below};
ghost use Rattle.ceph_folding.specs.TooMany.{IsPastCount};
ghost use Rattle.ceph_snapshot.specs.Growth.{IsGrowthError};
ghost use Rattle.ceph_snapshot.specs.Holding.{is_marked};

use crate::amounts::at_homes;
use ceph_snapshot::SnapshotError;
use std::alloc::{AllocError, Global};

/// The heats of the directories that are kept, one after another.
fn kept_heats(alloc: Global, heats: &[u64], gone: &[bool]) -> Result<Vec<u64>, AllocError>
    requires { length gone.now ≡ length heats.now }
    ensures size { IfOk result (λ kept. length kept.items ≡ kept_below (is_marked gone.now) (length heats.now)) }
    ensures kept { IfOk result (λ kept. (i : ℕ) → i < length heats.now → is_marked gone.now i ≡ false
        → slice_index kept.items (kept_below (is_marked gone.now) i) ≡ slice_index heats.now i) }
{
    let mut kept = Vec::new(alloc);
    for at in 0..heats.len() {
        if !gone[at] {
            kept.push(heats[at])?;
        }
    }
    Ok(kept)
}

/// The heats of an hour once those of the directories that are gone have come to their homes.
fn folded_hour(
    alloc: Global,
    heats: &[u64],
    gone: &[bool],
    homes: &[usize],
) -> Result<Vec<u64>, SnapshotError>
    requires gone { length gone.now ≡ length heats.now }
    requires homes { length homes.now ≡ length heats.now }
    requires inside { (i : ℕ) → i < length heats.now → slice_index homes.now i < length heats.now }
    ensures left { IfOk result (λ left.
        AreHeatsLeft (is_marked gone.now) (slice_index homes.now) heats.now left.items) }
    ensures many { IfErr result (IsGrowthError
        (IsPastCount (slice_index heats.now) (slice_index homes.now) (length heats.now))) }
{
    let sums = at_homes(alloc, heats, homes)?;
    Ok(kept_heats(alloc, &sums, gone)?)
}

/// The heats of each hour once those of the directories that are gone have come to their homes.
pub(crate) fn folded_hours(
    alloc: Global,
    hours: &[Vec<u64>],
    gone: &[bool],
    homes: &[usize],
) -> Result<Vec<Vec<u64>>, SnapshotError>
    requires hours { AreHoursOf (length gone.now) hours.now }
    requires homes { length homes.now ≡ length gone.now }
    requires inside { (i : ℕ) → i < length gone.now → slice_index homes.now i < length gone.now }
    ensures left { IfOk result (λ left.
        AreHoursLeft (is_marked gone.now) (slice_index homes.now) hours.now left.items) }
    ensures many { IfErr result (IsGrowthError ((hour : Vec ℕ Global) × IsAmong hours.now hour
        × IsPastCount (slice_index hour.items) (slice_index homes.now) (length gone.now))) }
{
    let mut left = Vec::with_capacity(alloc, hours.len())?;
    for hour in hours {
        left.push(folded_hour(alloc, hour, gone, homes)?)?;
    }
    Ok(left)
}
