//! What is counted of the hours that are given: that of now, and earlier ones.
ghost use Rattle.std.specs.Prelude.{◌≡◌, ◌++◌, All, IfErr, IfOk, List, length, map};
ghost use Rattle.ceph_dumps.specs.OneForOne.{AreOneForOne};
ghost use Rattle.ceph_folding.specs.Folding.{AreHoursOf};
ghost use Rattle.ceph_plan.specs.declared.hours.Hour.{Hour as TheHour};
ghost use Rattle.mdbal_ceph.specs.Hours.{AreSeenAt, IsHourThen, IsSeenAt, has_heat};
ghost use Rattle.mdbal_ceph.specs.NotMade.{HasNothingLeft, IsPastFault};

use crate::no_result::{NoResult, PastFault};
use crate::past::EarlierHour;
use ceph_plan::Hour;
use ceph_snapshot::{Directory, Held, free_heats_then, heats_then, held_heat_then};
use std::alloc::{AllocError, Global};

/// The heat of an earlier hour at the directories of now.
#[derive(Drop)]
pub struct PastHour<'a> {
    /// `heats[i]` is the heat of directory i then, in thousandths.
    pub heats: Vec<u64>,
    /// By rank the heat of what was spread then, in thousandths.
    pub spread: &'a [u64],
}

/// Whether there is any heat.
fn has_heat(heats: &[u64]) -> bool
    ensures { result ≡ has_heat heats.now }
{
    heats.iter().any(|heat| *heat > 0)
}

/// The heat that each directory had in an earlier hour. An hour all of whose heat is at directories that are gone is
/// refused.
fn heats_at(
    alloc: Global,
    directories: &[Directory],
    hour: &EarlierHour<'_>,
) -> Result<Vec<u64>, NoResult>
    ensures seen { IfOk result (λ heats. IsSeenAt directories.now hour.now.kept heats) }
    ensures failed { IfErr result (HasNothingLeft directories.now hour.now) }
{
    let heats = heats_then(alloc, directories, &hour.kept.heats)?;
    if !hour.kept.heats.is_empty() && !has_heat(&heats) {
        let name = String::from_str(alloc, hour.name)?;
        return Err(NoResult::Past(name, PastFault::NothingInCommon));
    }
    Ok(heats)
}

/// The heat that each directory had in each earlier hour.
pub(crate) fn past_heats(
    alloc: Global,
    directories: &[Directory],
    earlier: &[EarlierHour<'_>],
) -> Result<Vec<Vec<u64>>, NoResult>
    ensures each { IfOk result (λ hours. AreSeenAt directories.now earlier.now hours.items) }
    ensures sizes { IfOk result (λ hours. AreHoursOf (length directories.now) hours.items) }
    ensures failed { IfErr result (IsPastFault directories.now earlier.now) }
{
    let mut hours = Vec::with_capacity(alloc, earlier.len())?;
    for hour in earlier {
        hours.push(heats_at(alloc, directories, hour)?)?;
    }
    Ok(hours)
}

/// Earlier hours with these heats of the directories.
pub(crate) fn past_hours<'a, 'b>(
    alloc: Global,
    earlier: &'a [EarlierHour<'b>],
    heats: &[Vec<u64>],
) -> Result<Vec<PastHour<'a>>, AllocError>
    requires { length heats.now ≡ length earlier.now }
    ensures heats { IfOk result (λ past. map (λ hour. hour.heats.items) past.items
        ≡ map (λ hour. hour.items) heats.now) }
    ensures spread { IfOk result (λ past. map (λ hour. hour.spread.now) past.items
        ≡ map (λ hour. hour.kept.spread.items) earlier.entry.now) }
{
    let mut past = Vec::with_capacity(alloc, heats.len())?;
    for at in 0..heats.len() {
        past.push(PastHour {
            heats: Vec::from_slice(alloc, &heats[at])?,
            spread: &earlier[at].kept.spread,
        })?;
    }
    Ok(past)
}

/// What is counted of an earlier hour.
fn hour_then(
    alloc: Global,
    directories: &[Directory],
    holds: &[Held],
    past: &PastHour<'_>,
) -> Result<Hour, AllocError>
    requires holds { length holds.now ≡ length directories.now }
    requires heats { length past.now.heats.items ≡ length directories.now }
    requires spread { length past.now.spread.now ≡ 64 }
    ensures { IfOk result (IsHourThen directories.now holds.now past.now) }
{
    Ok(Hour {
        heats: free_heats_then(alloc, holds, &past.heats)?,
        pinned: held_heat_then(alloc, directories, holds, &past.heats, past.spread)?,
    })
}

/// The hour of now, and what is counted of earlier ones.
pub(crate) fn given_hours(
    alloc: Global,
    directories: &[Directory],
    holds: &[Held],
    first: Vec<Hour>,
    past: &[PastHour<'_>],
) -> Result<Vec<Hour>, AllocError>
    requires holds { length holds.now ≡ length directories.now }
    requires heats { All (λ hour. length hour.heats.items ≡ length directories.now) past.now }
    requires spread { All (λ hour. length hour.spread.now ≡ 64) past.now }
    ensures { IfOk result (λ given. (rest : List TheHour) × AreOneForOne (IsHourThen directories.now holds.now)
        past.now rest × (given.items ≡ first.items ++ rest)) }
{
    let mut given = first;
    for at in 0..past.len() {
        given.push(hour_then(alloc, directories, holds, &past[at])?)?;
    }
    Ok(given)
}
