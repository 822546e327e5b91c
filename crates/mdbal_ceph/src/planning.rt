//! Which hours are planned for, and what the plan comes to in each of them.
ghost use Rattle.std.specs.Prelude.{◌≡◌, ◌⊎◌, ◌<◌, ◌≤◌, ◌+◌, ◌*◌, ◌^◌, ◌++◌, [], ℕ, Bool, IfErr, IfOk, List, length};
ghost use Rattle.std.specs.Prelude.{map};
ghost use Rattle.std.specs.Prelude.{slice_index, slice_index_or};
ghost use Rattle.std.specs.Option.{option_map};
ghost use Rattle.ceph_dumps.specs.OneForOne.{AreOneForOne};
ghost use Rattle.ceph_plan.specs.ChosenHours.{AreThose};
ghost use Rattle.ceph_plan.specs.MadeHours.{AreMadeHours, IsMadeRefusal};
ghost use Rattle.ceph_plan.specs.declared.hours.Hour.{Hour as TheHour};
ghost use Rattle.mdbal_ceph.specs.Hours.{AreFree, ArePlannedFor, AreToldHours, IsCopied, IsPlanOfHours, told_name};
ghost use Rattle.mdbal_ceph.specs.Hours.{is_chosen, left_names, loads_in, made_most, made_name, hour_weight};
ghost use Rattle.mdbal_ceph.specs.NotMade.{IsNoHoursPlan};

use crate::no_result::NoResult;
use crate::values::MOST_HOURS;
use ceph_plan::{
    Hour, HoursProposal, MADE_WEIGHT, MadeHour, OwnPins, PlanError, Proposal, Wanted, chosen_hours,
    made_hours, propose_for,
};
use ceph_report::PlannedHour;
use ceph_snapshot::{Directory, Held};
use mds_types::{ProblemRow, RankSet};
use std::alloc::{AllocError, Global};

/// What plan is asked for.
#[derive(Clone, Copy)]
pub struct PlanAsked<'a> {
    /// What is wanted of it.
    pub wanted: Wanted,
    /// The ranks that may have a part.
    pub ranks: RankSet,
    /// The names of the hours that are given: that of now first.
    pub names: &'a [&'a str],
    /// How many hours are chosen, where more are given.
    pub chosen: u8,
    /// How many hours are made, as far as 32 hours leave room.
    pub made: u8,
}

/// A plan for hours, and what it comes to in each of them.
#[derive(Drop)]
pub(crate) struct PlanOfHours {
    /// The plan, and the changes of pins.
    pub proposal: Proposal,
    /// The hours that it is for, that of now first.
    pub hours: Vec<PlannedHour>,
    /// The names of the hours that were given, and not planned for.
    pub left: Vec<Vec<u8>>,
}

/// Which directories nothing holds.
fn free_of(alloc: Global, holds: &[Held]) -> Result<Vec<bool>, AllocError>
    ensures { IfOk result (λ free. AreFree holds.now free.items) }
{
    let mut free = Vec::with_capacity(alloc, holds.len())?;
    for hold in holds {
        free.push(matches!(hold, Held::Free))?;
    }
    Ok(free)
}

/// How many hours may be made beside those that were chosen.
fn made_most(asked: &PlanAsked<'_>, chosen: usize) -> usize
    ensures { result ≡ made_most asked.now chosen }
{
    usize::from(asked.made).min(usize::from(MOST_HOURS).saturating_sub(chosen))
}

/// The hours that are made, at most this many.
pub(crate) fn made_for(
    alloc: Global,
    rows: &[ProblemRow],
    holds: &[Held],
    present: &Hour,
    most: usize,
) -> Result<Vec<MadeHour>, PlanError>
    requires { length holds.now ≡ length rows.now }
    ensures made { IfOk result (λ made. (free : List Bool) × AreFree holds.now free
        × AreMadeHours rows.now free present.now most made.items) }
    ensures failed { IfErr result (λ error. (error ≡ PlanError.Memory) ⊎ IsMadeRefusal rows.now present.now error) }
{
    let free = free_of(alloc, holds)?;
    if most == 0 {
        return Ok(Vec::new(alloc));
    }
    made_hours(alloc, rows, &free, present, most)
}

/// The chosen hours.
fn chosen_of(alloc: Global, given: &[Hour], chosen: &[usize]) -> Result<Vec<Hour>, AllocError>
    requires { (k : ℕ) → k < length chosen.now → slice_index chosen.now k < length given.now }
    ensures { IfOk result (λ seen. AreThose given.now chosen.now seen.items) }
{
    let mut seen = Vec::with_capacity(alloc, chosen.len())?;
    for place in chosen {
        seen.push(Hour {
            heats: Vec::from_slice(alloc, &given[*place].heats)?,
            pinned: Vec::from_slice(alloc, &given[*place].pinned)?,
        })?;
    }
    Ok(seen)
}

/// These hours, and the made ones.
fn with_made(alloc: Global, seen: Vec<Hour>, made: &[MadeHour]) -> Result<Vec<Hour>, AllocError>
    ensures { IfOk result (λ hours. (added : List TheHour) × AreOneForOne IsCopied made.now added
        × (hours.items ≡ seen.items ++ added)) }
{
    let mut hours = seen;
    for one in made {
        hours.push(Hour {
            heats: Vec::from_slice(alloc, &one.hour.heats)?,
            pinned: Vec::from_slice(alloc, &one.hour.pinned)?,
        })?;
    }
    Ok(hours)
}

/// What each of so many hours counts, of which the first were seen and the others made.
fn weights_of(alloc: Global, seen: usize, made: usize) -> Result<Vec<u8>, AllocError>
    requires { seen + made < 2 ^ 63 }
    ensures size { IfOk result (λ weights. length weights.items ≡ seen + made) }
    ensures weights { IfOk result (λ weights. (k : ℕ) → k < seen + made
        → slice_index weights.items k ≡ hour_weight seen k) }
{
    let mut weights = Vec::new(alloc);
    for k in 0..seen + made {
        weights.push(if k < seen { 100 } else { MADE_WEIGHT })?;
    }
    Ok(weights)
}

/// The hours that are planned for, and what each counts.
pub(crate) fn planned_for(
    alloc: Global,
    given: &[Hour],
    chosen: &[usize],
    made: &[MadeHour],
) -> Result<(Vec<Hour>, Vec<u8>), AllocError>
    requires inside { (k : ℕ) → k < length chosen.now → slice_index chosen.now k < length given.now }
    requires few { length chosen.now + length made.now < 2 ^ 63 }
    ensures { IfOk result (λ found. ArePlannedFor given.now chosen.now made.now found.0.items found.1.items) }
{
    let seen = chosen_of(alloc, given, chosen)?;
    let hours = with_made(alloc, seen, made)?;
    let weights = weights_of(alloc, chosen.len(), made.len())?;
    Ok((hours, weights))
}

/// The path of the directory for which an hour was made.
fn made_name(
    alloc: Global,
    directories: &[Directory],
    one: Option<&MadeHour>,
) -> Result<Vec<u8>, AllocError>
    ensures { IfOk result (λ name. name.items
        ≡ made_name directories.now (option_map (λ one. one.now) one.entry)) }
{
    let Some(one) = one else {
        return Ok(Vec::new(alloc));
    };
    match directories.get(one.parent as usize) {
        Some(directory) => Vec::from_slice(alloc, &directory.path),
        None => Ok(Vec::new(alloc)),
    }
}

/// The name of the hour at a place.
fn name_at(alloc: Global, names: &[&str], place: usize) -> Result<Vec<u8>, AllocError>
    ensures { IfOk result (λ name. name.items ≡ slice_index_or (map (λ name. name.now) names.now) place []) }
{
    match names.get(place) {
        Some(name) => Vec::from_slice(alloc, name.as_bytes()),
        None => Ok(Vec::new(alloc)),
    }
}

/// The name of hour k of those that are planned for.
fn told_name(
    alloc: Global,
    names: &[&str],
    directories: &[Directory],
    chosen: &[usize],
    made: &[MadeHour],
    k: usize,
) -> Result<Vec<u8>, AllocError>
    ensures { IfOk result (λ name. name.items
        ≡ told_name (map (λ name. name.now) names.now) directories.now chosen.now made.now k) }
{
    match chosen.get(k) {
        Some(place) => name_at(alloc, names, *place),
        None => made_name(alloc, directories, made.get(k.saturating_sub(chosen.len()))),
    }
}

/// The loads of the ranks in hour k, of a table of loads.
fn loads_in(alloc: Global, loads: &[u64], k: usize) -> Result<Vec<u64>, AllocError>
    requires { k * 64 + 64 ≤ length loads.now }
    ensures { IfOk result (λ found. found.items ≡ loads_in loads.now k) }
{
    Vec::from_slice(alloc, &loads[k * 64..k * 64 + 64])
}

/// What is told of hour k, which has this name.
fn told_hour(
    alloc: Global,
    found: &HoursProposal,
    name: Vec<u8>,
    is_seen: bool,
    k: usize,
) -> Result<PlannedHour, AllocError>
    requires bounds { k < length found.now.bounds.items }
    requires before { k * 64 + 64 ≤ length found.now.before.items }
    requires loads { k * 64 + 64 ≤ length found.now.loads.items }
    ensures name { IfOk result (λ hour. hour.name.items ≡ name.items) }
    ensures seen { IfOk result (λ hour. hour.is_seen ≡ is_seen) }
    ensures bound { IfOk result (λ hour. hour.bound ≡ slice_index found.now.bounds.items k) }
    ensures now { IfOk result (λ hour. hour.now.items ≡ loads_in found.now.before.items k) }
    ensures planned { IfOk result (λ hour. hour.planned.items ≡ loads_in found.now.loads.items k) }
{
    Ok(PlannedHour {
        name,
        is_seen,
        bound: found.bounds[k],
        now: loads_in(alloc, &found.before, k)?,
        planned: loads_in(alloc, &found.loads, k)?,
    })
}

/// What is told of each hour that was planned for.
pub(crate) fn told_hours(
    alloc: Global,
    names: &[&str],
    directories: &[Directory],
    chosen: &[usize],
    made: &[MadeHour],
    found: &HoursProposal,
) -> Result<Vec<PlannedHour>, AllocError>
    requires bounds { length found.now.bounds.items ≡ length chosen.now + length made.now }
    requires before { length found.now.before.items ≡ length found.now.bounds.items * 64 }
    requires loads { length found.now.loads.items ≡ length found.now.bounds.items * 64 }
    ensures { IfOk result (λ hours. AreToldHours (map (λ name. name.now) names.now) directories.now chosen.now made.now
        found.now hours.items) }
{
    let mut hours = Vec::with_capacity(alloc, found.bounds.len())?;
    for k in 0..found.bounds.len() {
        let name = told_name(alloc, names, directories, chosen, made, k)?;
        hours.push(told_hour(alloc, found, name, k < chosen.len(), k)?)?;
    }
    Ok(hours)
}

/// Whether an hour is one of the chosen ones.
fn is_chosen(chosen: &[usize], hour: usize) -> bool
    ensures { result ≡ is_chosen chosen.now hour }
{
    chosen.contains(&hour)
}

/// The names of the hours that were given, and are not planned for.
pub(crate) fn left_names(
    alloc: Global,
    names: &[&str],
    chosen: &[usize],
) -> Result<Vec<Vec<u8>>, AllocError>
    ensures { IfOk result (λ left. map (λ name. name.items) left.items
        ≡ left_names (map (λ name. name.now) names.now) chosen.now (length names.now)) }
{
    let mut left = Vec::new(alloc);
    for hour in 0..names.len() {
        if !is_chosen(chosen, hour) {
            left.push(name_at(alloc, names, hour)?)?;
        }
    }
    Ok(left)
}

/// A plan for those of the given hours that are chosen, and for made ones. The first of the given hours is that of now.
pub(crate) fn plan_hours(
    alloc: Global,
    asked: &PlanAsked<'_>,
    directories: &[Directory],
    holds: &[Held],
    rows: &[ProblemRow],
    own: &[OwnPins],
    given: &[Hour],
) -> Result<PlanOfHours, NoResult>
    requires some { 0 < length given.now }
    requires holds { length holds.now ≡ length rows.now }
    requires own { length own.now ≡ length rows.now }
    ensures plan { IfOk result (λ found. IsPlanOfHours asked.now directories.now holds.now
        rows.now own.now given.now found.proposal found.hours.items
        (map (λ name. name.items) found.left.items)) }
    ensures failed { IfErr result (IsNoHoursPlan asked.now rows.now own.now given.now) }
{
    let (wanted, ranks) = (asked.wanted, asked.ranks);
    let most = usize::from(asked.chosen);
    let chosen = chosen_hours(alloc, rows, wanted, given, ranks, own, most)?;
    let most = made_most(asked, chosen.len());
    let made = made_for(alloc, rows, holds, &given[0], most)?;
    let (hours, weights) = planned_for(alloc, given, &chosen, &made)?;
    let found = propose_for(alloc, rows, wanted, &hours, &weights, ranks, own)?;
    let told = told_hours(alloc, asked.names, directories, &chosen, &made, &found)?;
    let left = left_names(alloc, asked.names, &chosen)?;
    Ok(PlanOfHours {
        proposal: found.proposal,
        hours: told,
        left,
    })
}
