//! Which rank each part goes to: the hottest part first, where most of it is or on the least loaded rank.
ghost use Rattle.std.specs.Prelude.{◌≡◌, ◌==◌, ◌<◌, ◌≤◌, ◌+◌, ◌*◌, ◌^◌, ℕ, length, slice_index, false, true, IfOk};
ghost use Rattle.std.specs.Prelude.{IsTrue, if◌then◌else◌};
ghost use Rattle.mds_types.specs.Sums.{sum_below};
ghost use Rattle.mds_types.specs.RankSet.{has_rank};
ghost use Rattle.ceph_plan.specs.Balance.{AreGreatest, ArePartAmounts, ArePartHours, CanTake, HaveRanks, IsEvenPacking};
ghost use Rattle.ceph_plan.specs.Balance.{IsEvened, IsHomeRank, made};
ghost use Rattle.ceph_plan.specs.Balance.{IsKeptPacking, IsKeptWithin, IsNearMean, IsSent, allowed, greatest_by};
ghost use Rattle.ceph_plan.specs.Balance.{inodes_there, part_inodes_at};
ghost use Rattle.ceph_plan.specs.Packing.{AreHours, HaveParts, heat_in, heats_in, worst};

use crate::bound::{has_number, most};
use crate::exchange::exchanged;
use crate::hours::Hour;
use crate::loads::{add, greatest_loads, load_with, pinned_loads, worst_loads};
use crate::order::PartHeat;
use mds_types::{ProblemRow, Rank, RankSet};
use std::alloc::{AllocError, Global};

/// The heat of each part, of rows of these heats.
fn part_heats(
    alloc: Global,
    heats: &[u64],
    part: &[u32],
    count: u32,
) -> Result<Vec<u64>, AllocError>
    requires size { length part.now ≡ length heats.now }
    requires below { (i : ℕ) → i < length heats.now → slice_index part.now i < count }
    requires total { sum_below (length heats.now) (slice_index heats.now) ≤ 2 ^ 56 }
    ensures size { IfOk result (λ found. length found.items ≡ count) }
    ensures heats { IfOk result (λ found. (p : ℕ) → p < count → slice_index found.items p
        ≡ sum_below (length heats.now) (λ i. if slice_index part.now i == p then slice_index heats.now i else 0)) }
{
    let mut found = vec![in alloc; 0u64; count as usize]?;
    for (i, heat) in heats.iter().enumerate() {
        found[part[i] as usize] += *heat;
    }
    Ok(found)
}

/// What is counted of the parts in each hour.
pub fn part_hours(
    alloc: Global,
    hours: &[Hour],
    part: &[u32],
    count: u32,
) -> Result<Vec<Hour>, AllocError>
    requires hours { AreHours hours.now (length part.now) }
    requires below { (i : ℕ) → i < length part.now → slice_index part.now i < count }
    ensures { IfOk result (λ parts. ArePartHours hours.now (length part.now) part.now count parts.items) }
{
    let mut parts = Vec::new(alloc);
    for hour in hours {
        let heats = part_heats(alloc, &hour.heats, part, count)?;
        let pinned = hour.pinned.to_vec(alloc)?;
        parts.push(Hour { heats, pinned })?;
    }
    Ok(parts)
}

/// The heat of a part, in the hour in which it is greatest.
fn greatest_heat(hours: &[Hour], part: usize) -> u64
    requires { (h : ℕ) → h < length hours.now → part < length (heats_in hours.now h) }
    ensures { result ≡ worst hours.now (λ h. heat_in hours.now h part) }
{
    let mut most = 0;
    for hour in hours {
        most = hour.heats[part].max(most);
    }
    most
}

/// The heat of each part, in the hour in which it is greatest.
pub fn greatest_heats(alloc: Global, hours: &[Hour], count: u32) -> Result<Vec<u64>, AllocError>
    requires { (h : ℕ) → h < length hours.now → length (heats_in hours.now h) ≡ count }
    ensures size { IfOk result (λ heats. length heats.items ≡ count) }
    ensures greatest { IfOk result (λ heats. AreGreatest hours.now heats.items) }
{
    let mut heats = Vec::with_capacity(alloc, count as usize)?;
    for part in 0..count as usize {
        heats.push(greatest_heat(hours, part))?;
    }
    Ok(heats)
}

/// The inodes of a row.
pub(crate) fn inodes_of(row: &ProblemRow) -> u64
    ensures is { result ≡ row.entry.now.inodes }
    ensures small { result < 2 ^ 32 }
{
    u64::from(row.inodes)
}

/// The inodes of each part at each rank, 64 numbers a part.
pub fn part_inodes(
    alloc: Global,
    rows: &[ProblemRow],
    part: &[u32],
    count: u32,
) -> Result<Vec<u64>, AllocError>
    requires few { count ≤ 65536 }
    requires parts { HaveParts rows.now part.now count }
    ensures size { IfOk result (λ inodes. length inodes.items ≡ count * 64) }
    ensures inodes { IfOk result (λ inodes. (p r : ℕ) → p < count → r < 64
        → inodes_there inodes.items p r ≡ part_inodes_at rows.now part.now p r) }
{
    let mut inodes = vec![in alloc; 0u64; count as usize * 64]?;
    for (i, row) in rows.iter().enumerate() {
        let at = part[i] as usize * 64 + usize::from(row.now.number());
        inodes[at] += inodes_of(row);
    }
    Ok(inodes)
}

/// What is packed, and on which ranks.
#[derive(Drop)]
pub struct PartAmounts<'a> {
    /// What is counted of the parts in each hour.
    pub hours: &'a [Hour],
    /// The heat of each part, in the hour in which it is greatest.
    pub heats: &'a [u64],
    /// The parts, the hottest last.
    pub order: &'a [u32],
    /// The inodes of each part at each rank, 64 numbers a part.
    pub inodes: &'a [u64],
    /// The parts in each hour, the hottest in it last.
    pub sorted: &'a [Vec<PartHeat>],
    /// The part of the root, which goes to rank 0.
    pub root: u32,
    /// The ranks that may have a part, with rank 0.
    pub ranks: RankSet,
    pub ghost are: { ArePartAmounts hours.now heats.now order.now inodes.now root ranks },
}

/// Whether a rank comes before the best one so far: its load is less, or as much and it has more of the inodes.
fn is_before(load: u64, inodes: u64, least: u64, most: u64) -> bool
    ensures ahead { IsTrue result → load ≤ least }
    ensures behind { result ≡ false → least ≤ load }
{
    load < least || (load == least && inodes > most)
}

/// The better of two ranks for a part, if the one of this number is one of the set, and its load with the part.
fn better_rank(
    loads: &[u64],
    parts: &PartAmounts<'_>,
    part: usize,
    best: (Rank, u64),
    number: u8,
) -> (Rank, u64)
    requires room { CanTake parts.now.hours.now (length parts.now.heats.now) loads.now part }
    requires usable { has_rank parts.now.ranks best.0 ≡ true }
    requires load { best.1 ≡ made parts.now.hours.now loads.now part best.0 }
    requires number { number < 64 }
    ensures usable { has_rank parts.now.ranks result.0 ≡ true }
    ensures load { result.1 ≡ made parts.now.hours.now loads.now part result.0 }
    ensures down { result.1 ≤ best.1 }
    ensures here { has_rank parts.now.ranks number ≡ true
        → result.1 ≤ made parts.now.hours.now loads.now part number }
{
    if !has_number(parts.ranks, number) {
        return best;
    }
    let Some(rank) = Rank::new(number) else {
        return best;
    };
    let (at, to) = (usize::from(number), usize::from(best.0.number()));
    let load = load_with(loads, parts.hours, part, at);
    let here = &parts.inodes[part * 64..part * 64 + 64];
    if is_before(load, here[at], best.1, here[to]) {
        (rank, load)
    } else {
        best
    }
}

/// The rank of the set whose load is least with the part; among equals the one that has most of its inodes.
fn best_rank(loads: &[u64], parts: &PartAmounts<'_>, part: usize) -> Rank
    requires room { CanTake parts.now.hours.now (length parts.now.heats.now) loads.now part }
    ensures usable { has_rank parts.now.ranks result ≡ true }
    ensures least { (r : ℕ) → has_rank parts.now.ranks r ≡ true
        → made parts.now.hours.now loads.now part result ≤ made parts.now.hours.now loads.now part r }
{
    let mut best = (Rank::default(), load_with(loads, parts.hours, part, 0));
    for number in 1..64u8 {
        best = better_rank(loads, parts, part, best, number);
    }
    best.0
}

/// The first rank that has most of the part's inodes.
fn home_of(inodes: &[u64], part: usize) -> Rank
    requires { part * 64 + 64 ≤ length inodes.now }
    ensures { IsHomeRank inodes.now part result }
{
    let mut most = Rank::default();
    for number in 1..64u8 {
        if inodes[part * 64 + usize::from(number)]
            > inodes[part * 64 + usize::from(most.number())]
        {
            if let Some(rank) = Rank::new(number) {
                most = rank;
            }
        }
    }
    most
}

/// The rank that a part goes to when these are the loads: the one that has most of its inodes if the load there is
/// then within the limit, else one whose load is then least.
fn rank_for(loads: &[u64], parts: &PartAmounts<'_>, part: usize, limit: u64) -> Rank
    requires room { CanTake parts.now.hours.now (length parts.now.heats.now) loads.now part }
    ensures usable { has_rank parts.now.ranks result ≡ true }
    ensures sent { IsSent parts.now.ranks (made parts.now.hours.now loads.now part) parts.now.inodes.now part limit
        result }
{
    let home = home_of(parts.inodes, part);
    let load = load_with(loads, parts.hours, part, usize::from(home.number()));
    if load <= limit && parts.ranks.has(home) {
        home
    } else {
        best_rank(loads, parts, part)
    }
}

/// A rank for each part, and what that comes to.
#[derive(Drop)]
pub(crate) struct Choice {
    /// `rank[p]` is the rank of part p.
    pub rank: Vec<Rank>,
    /// The greatest load of a rank of the set.
    pub greatest: u64,
}

/// Packs the parts, the hottest first. A part stays where most of it is while the load there is within the limit.
fn packed_within(alloc: Global, parts: &PartAmounts<'_>, limit: u64) -> Result<Choice, AllocError>
    ensures kept { IfOk result (λ choice. IsKeptWithin parts.now.ranks parts.now.hours.now parts.now.heats.now
        parts.now.inodes.now parts.now.root limit choice.rank.items) }
    ensures near_mean { limit ≡ 0 → IfOk result (λ choice. IsNearMean parts.now.ranks parts.now.hours.now
        parts.now.heats.now parts.now.root choice.greatest) }
    ensures greatest { IfOk result (λ choice. choice.greatest
        ≡ greatest_by parts.now.ranks parts.now.hours.now parts.now.heats.now choice.rank.items) }
{
    let (hours, root, count) = (parts.hours, parts.root as usize, parts.heats.len());
    let mut rank = vec![in alloc; Rank::default(); count]?;
    let mut done = vec![in alloc; false; count]?;
    let mut loads = pinned_loads(alloc, hours)?;
    add(&mut loads, hours, root, 0);
    done[root] = true;
    let mut left = count;
    while left > 0 {
        left -= 1;
        let part = parts.order[left] as usize;
        if !done[part] {
            let to = rank_for(&loads, parts, part, limit);
            add(&mut loads, hours, part, usize::from(to.number()));
            rank[part] = to;
            done[part] = true;
        }
    }
    let loads = greatest_loads(alloc, &loads, hours.len())?;
    let greatest = most(&loads, parts.ranks);
    Ok(Choice { rank, greatest })
}

/// The load and `keep` hundredths of it, where a hundredth is rounded down.
fn with_percent(load: u64, keep: u8) -> u64
    requires { load ≤ 2 ^ 58 }
    ensures { result ≡ allowed keep load }
{
    load + load / 100 * u64::from(keep)
}

/// A packing with parts exchanged, if that is cooler. It stays as it is if its greatest load is at most this.
fn evened(
    alloc: Global,
    parts: &PartAmounts<'_>,
    enough: u64,
    packed: Choice,
) -> Result<Choice, AllocError>
    requires ranks { HaveRanks parts.now.ranks parts.now.heats.now parts.now.root packed.rank.items }
    requires greatest { packed.greatest
        ≡ greatest_by parts.now.ranks parts.now.hours.now parts.now.heats.now packed.rank.items }
    ensures evened { IfOk result (λ choice. IsEvened parts.now.ranks parts.now.hours.now parts.now.heats.now
        parts.now.root enough packed.rank.items choice.rank.items) }
    ensures greatest { IfOk result (λ choice. choice.greatest
        ≡ greatest_by parts.now.ranks parts.now.hours.now parts.now.heats.now choice.rank.items) }
{
    if packed.greatest <= enough {
        return Ok(packed);
    }
    let rank = exchanged(alloc, parts, &packed.rank)?;
    let loads = worst_loads(alloc, parts.hours, &rank)?;
    let greatest = most(&loads, parts.ranks);
    if greatest < packed.greatest {
        Ok(Choice { rank, greatest })
    } else {
        Ok(packed)
    }
}

/// The packing by heat only: largest first, with parts exchanged.
pub(crate) fn even_choice(alloc: Global, parts: &PartAmounts<'_>) -> Result<Choice, AllocError>
    ensures even { IfOk result (λ choice. IsEvenPacking parts.now.ranks parts.now.hours.now parts.now.heats.now
        parts.now.root choice.rank.items) }
    ensures greatest { IfOk result (λ choice. choice.greatest
        ≡ greatest_by parts.now.ranks parts.now.hours.now parts.now.heats.now choice.rank.items) }
{
    let plain = packed_within(alloc, parts, 0)?;
    evened(alloc, parts, 0, plain)
}

/// A rank of the set for each part: rank 0 for the root's part.
///
/// Another part stays at the rank that has most of its inodes, unless the load there would pass by `keep` percent the
/// greatest load of `even`, the packing by heat only.
pub(crate) fn kept_choice(
    alloc: Global,
    parts: &PartAmounts<'_>,
    even: &Choice,
    keep: u8,
) -> Result<Choice, AllocError>
    requires greatest { even.now.greatest
        ≡ greatest_by parts.now.ranks parts.now.hours.now parts.now.heats.now even.now.rank.items }
    ensures kept { IfOk result (λ choice. IsKeptPacking parts.now.ranks parts.now.hours.now parts.now.heats.now
        parts.now.inodes.now parts.now.root keep even.now.rank.items choice.rank.items) }
    ensures greatest { IfOk result (λ choice. choice.greatest
        ≡ greatest_by parts.now.ranks parts.now.hours.now parts.now.heats.now choice.rank.items) }
{
    let limit = with_percent(even.greatest, keep);
    let kept = packed_within(alloc, parts, limit)?;
    let near = evened(alloc, parts, limit, kept)?;
    if near.greatest <= limit {
        return Ok(near);
    }
    let (rank, greatest) = (even.rank.to_vec(alloc)?, even.greatest);
    Ok(Choice { rank, greatest })
}
