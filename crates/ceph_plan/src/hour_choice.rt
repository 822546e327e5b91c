//! Which hours are planned for, of more than a plan takes: the present, and those in which a plan for the others is
//! most uneven.
ghost use Rattle.std.specs.Prelude.{◌≡◌, ◌<◌, ◌≤◌, ◌+◌, ◌*◌, ◌⊎◌, ◌↔◌, ℕ, length, slice_index, slice_index_or};
ghost use Rattle.std.specs.Prelude.{IfErr, IfNone, IfOk, IfSome, IsTrue, false, true};
ghost use Rattle.mds_types.specs.RankSet.{has_rank};
ghost use Rattle.ceph_plan.specs.Balance.{allowed};
ghost use Rattle.ceph_plan.specs.ChosenHours.{AreChosenHours, AreForChoice, AreMarked, AreThose, CanChoose};
ghost use Rattle.ceph_plan.specs.ChosenHours.{HasHour, IsChoiceFault, IsChoiceRefusal, IsLittle, IsMoreUneven};
ghost use Rattle.ceph_plan.specs.ChosenHours.{IsNextHour, IsNextToCome, IsSomeRefusal, MayBeChosen, MayCome};
ghost use Rattle.ceph_plan.specs.ChosenHours.{judged, judged_parts, load_at, load_in_hour};
ghost use Rattle.ceph_plan.specs.HourPlans.{IsCountedHour};
ghost use Rattle.ceph_plan.specs.Packing.{AreHours, greatest_of};

use crate::bound::{has_number, sum_of, total};
use crate::choice::{PartCount, Wanted};
use crate::for_hours::{HOUR_LIMIT, planned_loads, propose_for};
use crate::hours::Hour;
use crate::hours_error::HoursError;
use crate::plan_error::PlanError;
use crate::proposal::OwnPins;
use crate::shares::{are_hours, bounds_of};
use mds_types::{ProblemRow, Rank, RankSet};
use std::alloc::{AllocError, Global};

/// Hours of which some are chosen, for a plan of these rows.
#[derive(Drop)]
struct Choosing<'a> {
    /// The rows.
    rows: &'a [ProblemRow],
    /// What plan is wanted.
    wanted: Wanted,
    /// The hours, the present first.
    hours: &'a [Hour],
    /// The ranks.
    ranks: RankSet,
    /// The rows' own pins.
    own: &'a [OwnPins],
    /// What no assignment of the rows to the ranks gets below, in each hour.
    bounds: &'a [u64],
    /// Whether each hour may be chosen.
    kept: &'a [bool],
}

/// The load of an hour: the heat of its rows, and what is pinned to ranks of the set.
fn load_of(hour: &Hour, ranks: RankSet, rows: usize) -> u64
    requires { IsCountedHour hour.now.heats.items hour.now.pinned.items rows }
    ensures { result ≡ load_at ranks hour.now.heats.items hour.now.pinned.items }
{
    sum_of(&hour.heats) + total(&hour.pinned, ranks)
}

/// The load of each hour.
fn loads_of(
    alloc: Global,
    hours: &[Hour],
    ranks: RankSet,
    rows: usize,
) -> Result<Vec<u64>, AllocError>
    requires { AreHours hours.now rows }
    ensures size { IfOk result (λ loads. length loads.items ≡ length hours.now) }
    ensures loads { IfOk result (λ loads. (h : ℕ) → h < length hours.now
        → slice_index loads.items h ≡ load_in_hour ranks hours.now h) }
{
    let mut loads = Vec::with_capacity(alloc, hours.len())?;
    for hour in hours {
        loads.push(load_of(hour, ranks, rows))?;
    }
    Ok(loads)
}

/// Whether more than half of these loads are more than ten times this one.
fn is_little(loads: &[u64], load: u64) -> bool
    ensures { IsTrue result ↔ IsLittle (length loads.now) (slice_index loads.now) load }
{
    let all = loads.len();
    let mut greater = 0usize;
    for other in loads {
        if u128::from(*other) > u128::from(load) * 10 {
            greater += 1;
        }
    }
    greater > all / 2
}

/// Whether an hour may be chosen, by its load: the present may, and each that doesn't have little.
fn may_be_chosen(loads: &[u64], h: usize) -> bool
    requires { h < length loads.now }
    ensures { IsTrue result ↔ MayBeChosen (length loads.now) (slice_index loads.now) h }
{
    h == 0 || !is_little(loads, loads[h])
}

/// Whether each hour may be chosen, by its load.
fn kept_hours(alloc: Global, loads: &[u64]) -> Result<Vec<bool>, AllocError>
    ensures size { IfOk result (λ kept. length kept.items ≡ length loads.now) }
    ensures kept { IfOk result (λ kept. (h : ℕ) → h < length loads.now → slice_index_or kept.items h false ≡ true
        ↔ MayBeChosen (length loads.now) (slice_index loads.now) h) }
{
    let mut kept = Vec::with_capacity(alloc, loads.len())?;
    for h in 0..loads.len() {
        kept.push(may_be_chosen(loads, h))?;
    }
    Ok(kept)
}

/// The places of the hours that may be chosen.
fn places(alloc: Global, kept: &[bool]) -> Result<Vec<usize>, AllocError>
    ensures { IfOk result (λ found. AreMarked kept.now found.items) }
{
    let mut found = Vec::new(alloc);
    for (h, kept) in kept.iter().enumerate() {
        if *kept {
            found.push(h)?;
        }
    }
    Ok(found)
}

/// Whether an hour is one of these.
fn has_hour(chosen: &[usize], hour: usize) -> bool
    ensures { IsTrue result ↔ HasHour chosen.now hour }
{
    for one in chosen {
        if *one == hour {
            return true;
        }
    }
    false
}

/// These hours alone.
fn those(alloc: Global, hours: &[Hour], chosen: &[usize]) -> Result<Vec<Hour>, AllocError>
    requires { (k : ℕ) → k < length chosen.now → slice_index chosen.now k < length hours.now }
    ensures { IfOk result (λ found. AreThose hours.now chosen.now found.items) }
{
    let mut found = Vec::with_capacity(alloc, chosen.len())?;
    for h in chosen {
        let heats = hours[*h].heats.to_vec(alloc)?;
        let pinned = hours[*h].pinned.to_vec(alloc)?;
        found.push(Hour { heats, pinned })?;
    }
    Ok(found)
}

/// The greatest load of a rank of the set in an hour, of a table of loads.
fn greatest_in(loads: &[u64], ranks: RankSet, hour: usize) -> u64
    requires { hour * 64 + 64 ≤ length loads.now }
    ensures { result ≡ greatest_of ranks (λ r. slice_index loads.now (hour * 64 + r)) }
{
    let mut most = 0;
    for number in 0..64u8 {
        if has_number(ranks, number) {
            most = loads[hour * 64 + usize::from(number)].max(most);
        }
    }
    most
}

/// The greatest load of a rank of the set in each of so many hours, of a table of loads.
fn greatest_of_hours(
    alloc: Global,
    loads: &[u64],
    ranks: RankSet,
    hours: usize,
) -> Result<Vec<u64>, AllocError>
    requires { length loads.now ≡ hours * 64 }
    ensures size { IfOk result (λ found. length found.items ≡ hours) }
    ensures greatest { IfOk result (λ found. (h : ℕ) → h < hours
        → slice_index found.items h ≡ greatest_of ranks (λ r. slice_index loads.now (h * 64 + r))) }
{
    let mut found = Vec::with_capacity(alloc, hours)?;
    for hour in 0..hours {
        found.push(greatest_in(loads, ranks, hour))?;
    }
    Ok(found)
}

/// Whether a load passes a bound by more than `keep` percent.
fn is_uneven(load: u64, bound: u64, keep: u8) -> bool
    ensures { IsTrue result ↔ (allowed keep bound < load) }
{
    let bound = u128::from(bound);
    u128::from(load) > bound + bound / 100 * u128::from(keep)
}

/// Whether a load is greater than another one, each to its bound.
fn is_more_uneven(load: u64, bound: u64, other: u64, others: u64) -> bool
    ensures { IsTrue result ↔ (other * bound < load * others) }
{
    u128::from(load) * u128::from(others) > u128::from(other) * u128::from(bound)
}

/// Whether an hour may be chosen, isn't yet, and passes its bound by more than `keep` percent with this greatest load.
fn may_come(of: &Choosing<'_>, greatest: &[u64], chosen: &[usize], h: usize) -> bool
    requires can { CanChoose of.now.ranks of.now.hours.now of.now.rows.now of.now.own.now of.now.bounds.now
        of.now.kept.now }
    requires size { length greatest.now ≡ length of.now.hours.now }
    requires inside { h < length of.now.hours.now }
    ensures { IsTrue result ↔ MayCome of.now.wanted.keep of.now.kept.now of.now.bounds.now greatest.now chosen.now h }
{
    of.kept[h] && is_uneven(greatest[h], of.bounds[h], of.wanted.keep) && !has_hour(chosen, h)
}

/// Whether an hour is more uneven than the best one so far, or there is none.
fn is_before(of: &Choosing<'_>, greatest: &[u64], h: usize, best: usize) -> bool
    requires can { CanChoose of.now.ranks of.now.hours.now of.now.rows.now of.now.own.now of.now.bounds.now
        of.now.kept.now }
    requires size { length greatest.now ≡ length of.now.hours.now }
    requires inside { h < length of.now.hours.now }
    requires best { best ≤ length of.now.hours.now }
    ensures { IsTrue result ↔ ((best ≡ length of.now.hours.now)
        ⊎ IsMoreUneven of.now.bounds.now greatest.now h best) }
{
    best == of.hours.len()
        || is_more_uneven(greatest[h], of.bounds[h], greatest[best], of.bounds[best])
}

/// The hour that may be chosen, isn't yet, and passes its bound by more than `keep` percent with these greatest loads;
/// of several the one with the greatest load to its bound. How many hours there are, if there is none.
fn most_uneven(of: &Choosing<'_>, greatest: &[u64], chosen: &[usize]) -> usize
    requires can { CanChoose of.now.ranks of.now.hours.now of.now.rows.now of.now.own.now of.now.bounds.now
        of.now.kept.now }
    requires size { length greatest.now ≡ length of.now.hours.now }
    ensures { IsNextToCome of.now.wanted.keep of.now.kept.now of.now.bounds.now greatest.now chosen.now result }
{
    let mut best = of.hours.len();
    for h in 0..of.hours.len() {
        if may_come(of, greatest, chosen, h) && is_before(of, greatest, h, best) {
            best = h;
        }
    }
    best
}

/// Into how many parts the directories are divided for the plan that hours are judged by, if any number may be.
pub const JUDGED_PARTS: u16 = 512;

/// Into how many parts the directories are divided for the plan that hours are judged by.
fn judged_parts(parts: PartCount) -> PartCount
    ensures { result ≡ judged_parts parts }
{
    match parts {
        PartCount::Auto(_) => PartCount::AtMost(JUDGED_PARTS),
        PartCount::AtMost(most) => PartCount::AtMost(most),
    }
}

/// What is wanted of the plan that hours are judged by.
fn judged(wanted: Wanted) -> Wanted
    ensures { result ≡ judged wanted }
{
    Wanted {
        parts: judged_parts(wanted.parts),
        ..wanted
    }
}

/// The hour in which a plan for the chosen ones is most uneven, and by more than is allowed. How many hours there are,
/// if there is none.
fn next_hour(alloc: Global, of: &Choosing<'_>, chosen: &[usize]) -> Result<usize, PlanError>
    requires can { CanChoose of.now.ranks of.now.hours.now of.now.rows.now of.now.own.now of.now.bounds.now
        of.now.kept.now }
    requires inside { (k : ℕ) → k < length chosen.now → slice_index chosen.now k < length of.now.hours.now }
    ensures next { IfOk result (IsNextHour of.now.ranks of.now.hours.now of.now.rows.now of.now.wanted of.now.own.now
        chosen.now) }
    ensures refused { IfErr result (λ error. (error ≡ PlanError.Memory)
        ⊎ IsSomeRefusal of.now.ranks of.now.hours.now of.now.rows.now of.now.wanted of.now.own.now error) }
{
    let those = those(alloc, of.hours, chosen)?;
    let weights = vec![in alloc; 100u8; chosen.len()]?;
    let (rows, wanted, ranks, own) = (of.rows, judged(of.wanted), of.ranks, of.own);
    let found = propose_for(alloc, rows, wanted, &those, &weights, ranks, own)?;
    let plan = &found.proposal.plan;
    let loads = planned_loads(alloc, of.hours, &plan.part, &plan.packing.rank)?;
    let greatest = greatest_of_hours(alloc, &loads, ranks, of.hours.len())?;
    Ok(most_uneven(of, &greatest, chosen))
}

/// The present, and again and again the hour in which a plan for those chosen is most uneven, until there are as many
/// as wanted, or a plan for them is even enough in all.
fn spread(alloc: Global, of: &Choosing<'_>, most: usize) -> Result<Vec<usize>, PlanError>
    requires can { CanChoose of.now.ranks of.now.hours.now of.now.rows.now of.now.own.now of.now.bounds.now
        of.now.kept.now }
    requires most { 0 < most }
    ensures chosen { IfOk result (λ found. AreChosenHours of.now.ranks of.now.hours.now of.now.rows.now of.now.wanted
        of.now.own.now most found.items) }
    ensures refused { IfErr result (λ error. (error ≡ PlanError.Memory)
        ⊎ IsSomeRefusal of.now.ranks of.now.hours.now of.now.rows.now of.now.wanted of.now.own.now error) }
{
    let mut chosen = vec![in alloc; 0usize; 1]?;
    while chosen.len() < most {
        let next = next_hour(alloc, of, &chosen)?;
        if next == of.hours.len() {
            return Ok(chosen);
        }
        chosen.push(next)?;
    }
    Ok(chosen)
}

/// Why none of these hours of so many rows can be chosen.
fn choice_fault(hours: &[Hour], rows: usize, most: usize) -> Option<HoursError>
    ensures fault { IfSome result (IsChoiceFault hours.now rows most) }
    ensures sound { IfNone result (AreForChoice hours.now rows most) }
{
    if hours.is_empty() || most == 0 {
        Some(HoursError::NoHour)
    } else if most > HOUR_LIMIT {
        Some(HoursError::TooMany)
    } else if !are_hours(hours, rows) {
        Some(HoursError::NotCounted)
    } else {
        None
    }
}

/// The places of the hours that are to be planned for, of hours of which some can be chosen.
fn choose(
    alloc: Global,
    rows: &[ProblemRow],
    wanted: Wanted,
    hours: &[Hour],
    ranks: RankSet,
    own: &[OwnPins],
    most: usize,
) -> Result<Vec<usize>, PlanError>
    requires zero { has_rank ranks 0 ≡ true }
    requires own { length own.now ≡ length rows.now }
    requires hours { AreForChoice hours.now (length rows.now) most }
    ensures chosen { IfOk result (λ found. AreChosenHours ranks hours.now rows.now wanted own.now most found.items) }
    ensures refused { IfErr result (λ error. (error ≡ PlanError.Memory)
        ⊎ IsSomeRefusal ranks hours.now rows.now wanted own.now error) }
{
    let loads = loads_of(alloc, hours, ranks, rows.len())?;
    let kept = kept_hours(alloc, &loads)?;
    let all = places(alloc, &kept)?;
    if all.len() <= most {
        return Ok(all);
    }
    let bounds = bounds_of(alloc, hours, ranks)?;
    let of = Choosing {
        rows,
        wanted,
        hours,
        ranks,
        own,
        bounds: &bounds,
        kept: &kept,
    };
    spread(alloc, &of, most)
}

/// The places of the hours that are to be planned for, at most `most`: the present, which is the first, and of the
/// others those in which a plan for the chosen ones is most uneven, until it is within `wanted.keep` percent in all.
///
/// That plan divides the rows once, as `wanted.parts` says, or into at most `JUDGED_PARTS` parts where any number may
/// be.
///
/// An hour isn't chosen where more than half of all hours have more than ten times its load.
pub fn chosen_hours(
    alloc: Global,
    rows: &[ProblemRow],
    wanted: Wanted,
    hours: &[Hour],
    ranks: RankSet,
    own: &[OwnPins],
    most: usize,
) -> Result<Vec<usize>, PlanError>
    requires own { length own.now ≡ length rows.now }
    ensures chosen { IfOk result (λ found. AreChosenHours ranks hours.now rows.now wanted own.now most found.items) }
    ensures refused { IfErr result (IsChoiceRefusal ranks hours.now rows.now wanted own.now most) }
{
    if !ranks.has(Rank::default()) {
        return Err(PlanError::NoRankZero);
    }
    if let Some(fault) = choice_fault(hours, rows.len(), most) {
        return Err(PlanError::Hours(fault));
    }
    choose(alloc, rows, wanted, hours, ranks, own, most)
}
