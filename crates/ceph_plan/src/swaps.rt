//! Which parts two ranks exchange where there are several hours, so that neither is loaded as much as the first was in
//! its hottest hour.
//!
//! Of the parts of each other rank those are tried for a part that would even the loads in that hour most nearly, and
//! where none helps, for two parts, and two for one. Nothing relies on what comes of it.

use crate::bound::has_number;
use crate::order::PartHeat;
use crate::rank_choice::PartAmounts;
use mds_types::Rank;
use std::alloc::{AllocError, Global};
use std::cmp::Reverse;

/// So many parts are tried on each side of the nearest.
const WINDOW: usize = 4;

/// No more parts of the most loaded rank than this are tried alone.
const TRIED: usize = 64;

/// So many of the hottest parts of a rank are tried in pairs.
const PAIRED: usize = 12;

/// The loads, and the most loaded rank.
#[derive(Drop)]
pub(crate) struct Ground<'a> {
    /// The parts.
    pub parts: &'a PartAmounts<'a>,
    /// The load of each rank in each hour, 64 numbers an hour.
    pub table: &'a [u64],
    /// The number of the most loaded rank.
    pub most: usize,
    /// The hour in which it is.
    pub hour: usize,
}

/// Two parts of the most loaded rank, two of another rank that come for them, and the greatest load of both ranks then.
/// The root's part stands for none.
#[derive(Clone, Copy)]
pub(crate) struct Swap {
    /// The parts that go.
    pub going: (u32, u32),
    /// The parts that come.
    pub coming: (u32, u32),
    /// The number of the other rank.
    pub to: usize,
    /// The greatest load of both ranks then.
    pub greatest: u64,
    /// The hour in which the last one that was tried was hottest.
    pub hottest: usize,
}

/// The load of a rank in an hour.
pub(crate) fn load_in(table: &[u64], hour: usize, rank: usize) -> u64 {
    match table.get(hour.saturating_mul(64).saturating_add(rank)) {
        Some(load) => *load,
        None => 0,
    }
}

/// The heat of a part in an hour, none of the root's.
fn heat_in(parts: &PartAmounts<'_>, hour: usize, part: u32) -> u64 {
    if part == parts.root {
        return 0;
    }
    match parts.hours.get(hour) {
        Some(known) => match known.heats.get(part as usize) {
            Some(heat) => *heat,
            None => 0,
        },
        None => 0,
    }
}

/// The first hour in which a rank has its greatest load.
pub(crate) fn hottest_hour(table: &[u64], hours: usize, rank: usize) -> usize {
    let mut best = 0;
    for hour in 1..hours {
        if load_in(table, hour, rank) > load_in(table, best, rank) {
            best = hour;
        }
    }
    best
}

/// Adds to the list of each rank its parts but the root's, the hottest in an hour last.
fn fill(
    lists: &mut [Vec<PartHeat>],
    parts: &PartAmounts<'_>,
    rank: &[Rank],
    hour: usize,
) -> Result<(), AllocError> {
    let sorted = match parts.sorted.get(hour) {
        Some(sorted) => sorted.as_slice(),
        None => &[],
    };
    for one in sorted {
        let at = match rank.get(one.part.0 as usize) {
            Some(here) => usize::from(here.number()),
            None => lists.len(),
        };
        if at < lists.len() && one.part.0 != parts.root {
            lists[at].push(*one)?;
        }
    }
    Ok(())
}

/// The parts at each rank but the root's, the hottest in an hour last. The first of each is none.
pub(crate) fn lists(
    alloc: Global,
    parts: &PartAmounts<'_>,
    rank: &[Rank],
    hour: usize,
) -> Result<Vec<Vec<PartHeat>>, AllocError> {
    let none = PartHeat {
        heat: 0,
        part: Reverse(parts.root),
    };
    let mut found = Vec::with_capacity(alloc, 64)?;
    for _ in 0..64 {
        found.push(vec![in alloc; none; 1]?)?;
    }
    fill(&mut found, parts, rank, hour)?;
    Ok(found)
}

/// The heat of two parts in an hour.
fn heat_of(parts: &PartAmounts<'_>, hour: usize, both: (u32, u32)) -> u64 {
    heat_in(parts, hour, both.0).saturating_add(heat_in(parts, hour, both.1))
}

/// The greater load of both ranks in an hour after an exchange.
fn load_after(ground: &Ground<'_>, swap: Swap, hour: usize) -> u64 {
    let going = heat_of(ground.parts, hour, swap.going);
    let coming = heat_of(ground.parts, hour, swap.coming);
    let here = load_in(ground.table, hour, ground.most).saturating_add(coming);
    let there = load_in(ground.table, hour, swap.to).saturating_add(going);
    here.saturating_sub(going).max(there.saturating_sub(coming))
}

/// The greatest load of both ranks in any hour after an exchange, as far as it is less than that of another one, and
/// the hour in which it is. `first` is tried first.
fn greatest_after(ground: &Ground<'_>, swap: Swap, first: usize) -> (u64, usize) {
    let mut most = load_after(ground, swap, first);
    let mut hottest = first;
    for hour in 0..ground.parts.hours.len() {
        if most >= swap.greatest {
            break;
        }
        let load = load_after(ground, swap, hour);
        if load > most {
            most = load;
            hottest = hour;
        }
    }
    (most, hottest)
}

/// The better of two exchanges. The hour that one is too hot in is likely to tell of the next one.
fn better(ground: &Ground<'_>, best: Swap, swap: Swap) -> Swap {
    let limit = Swap {
        greatest: best.greatest,
        ..swap
    };
    let (greatest, hottest) = greatest_after(ground, limit, best.hottest);
    if greatest < best.greatest {
        Swap {
            greatest,
            hottest,
            ..swap
        }
    } else {
        Swap { hottest, ..best }
    }
}

/// The parts of the most loaded rank and of another one, the hottest in the hour last.
#[derive(Drop)]
struct Between<'a> {
    /// The loads, and the most loaded rank.
    ground: &'a Ground<'a>,
    /// The parts of the most loaded rank.
    hot: &'a [PartHeat],
    /// The parts of the other rank.
    cold: &'a [PartHeat],
    /// The number of the other rank.
    to: usize,
}

/// By how much the most loaded rank is hotter than both are where they are as hot in the hour.
fn wanted(of: &Between<'_>) -> u64 {
    let here = load_in(of.ground.table, of.ground.hour, of.ground.most);
    here.saturating_sub(load_in(of.ground.table, of.ground.hour, of.to)) / 2
}

/// No exchange with the rank of this number.
fn none_with(ground: &Ground<'_>, to: usize) -> Swap {
    let root = ground.parts.root;
    Swap {
        going: (root, root),
        coming: (root, root),
        to,
        greatest: load_in(ground.table, ground.hour, ground.most),
        hottest: ground.hour,
    }
}

/// The better of an exchange and another one with each of these parts, which comes.
fn with_coming(of: &Between<'_>, best: Swap, swap: Swap, parts: &[PartHeat]) -> Swap {
    let mut best = best;
    for one in parts {
        let coming = (one.part.0, of.ground.parts.root);
        best = better(of.ground, best, Swap { coming, ..swap });
    }
    best
}

/// The better of an exchange and another one with each of these parts, which goes.
fn with_going(of: &Between<'_>, best: Swap, swap: Swap, parts: &[PartHeat]) -> Swap {
    let mut best = best;
    for one in parts {
        let going = (one.part.0, of.ground.parts.root);
        best = better(of.ground, best, Swap { going, ..swap });
    }
    best
}

/// The parts about a place.
fn about(parts: &[PartHeat], at: usize) -> &[PartHeat] {
    let first = at.saturating_sub(WINDOW).min(parts.len());
    let last = at.saturating_add(WINDOW).min(parts.len());
    if first <= last {
        &parts[first..last]
    } else {
        parts
    }
}

/// The first place whose part is at least as hot.
fn place_of(parts: &[PartHeat], heat: u64) -> usize {
    let (mut low, mut high) = (0, parts.len());
    while low < high {
        let middle = low + (high - low) / 2;
        if parts[middle].heat < heat {
            low = middle + 1;
        } else {
            high = middle;
        }
    }
    low
}

/// The better of an exchange and those of one part for one.
fn best_single(of: &Between<'_>, best: Swap) -> Swap {
    let wanted = wanted(of);
    let none = none_with(of.ground, of.to);
    let step = of.hot.len() / TRIED + 1;
    let mut best = best;
    for (i, one) in of.hot.iter().enumerate() {
        if i % step == 0 {
            let going = (one.part.0, of.ground.parts.root);
            let at = place_of(of.cold, one.heat.saturating_sub(wanted));
            best = with_coming(of, best, Swap { going, ..none }, about(of.cold, at));
        }
    }
    best
}

/// The hottest of these parts, as many as are tried in pairs.
fn hottest(parts: &[PartHeat]) -> &[PartHeat] {
    let first = parts.len().saturating_sub(PAIRED);
    &parts[first..]
}

/// The better of an exchange and those of one part with each of the others, which go, for one that comes.
fn two_go(of: &Between<'_>, best: Swap, one: PartHeat, others: &[PartHeat]) -> Swap {
    let wanted = wanted(of);
    let none = none_with(of.ground, of.to);
    let mut best = best;
    for other in others {
        let going = (one.part.0, other.part.0);
        let heat = one.heat.saturating_add(other.heat).saturating_sub(wanted);
        let near = about(of.cold, place_of(of.cold, heat));
        best = with_coming(of, best, Swap { going, ..none }, near);
    }
    best
}

/// The better of an exchange and those of one part with each of the others, which come, for one that goes.
fn two_come(of: &Between<'_>, best: Swap, one: PartHeat, others: &[PartHeat]) -> Swap {
    let wanted = wanted(of);
    let none = none_with(of.ground, of.to);
    let mut best = best;
    for other in others {
        let coming = (one.part.0, other.part.0);
        let heat = one.heat.saturating_add(other.heat).saturating_add(wanted);
        let near = about(of.hot, place_of(of.hot, heat));
        best = with_going(of, best, Swap { coming, ..none }, near);
    }
    best
}

/// The better of an exchange and those of two parts for one.
fn best_two_go(of: &Between<'_>, best: Swap) -> Swap {
    let parts = hottest(of.hot);
    let mut best = best;
    for i in 0..parts.len() {
        best = two_go(of, best, parts[i], &parts[i + 1..]);
    }
    best
}

/// The better of an exchange and those of one part for two.
fn best_two_come(of: &Between<'_>, best: Swap) -> Swap {
    let parts = hottest(of.cold);
    let mut best = best;
    for i in 0..parts.len() {
        best = two_come(of, best, parts[i], &parts[i + 1..]);
    }
    best
}

/// The parts of the rank of this number.
pub(crate) fn list_of(lists: &[Vec<PartHeat>], number: usize) -> &[PartHeat] {
    match lists.get(number) {
        Some(list) => list.as_slice(),
        None => &[],
    }
}

/// The best exchange, of one part for one, or with `pairs` of two for one and of one for two.
fn best_of(ground: &Ground<'_>, lists: &[Vec<PartHeat>], pairs: bool) -> Swap {
    let mut best = none_with(ground, ground.most);
    let hot = list_of(lists, ground.most);
    for number in 0..64u8 {
        let to = usize::from(number);
        if to != ground.most && has_number(ground.parts.ranks, number) {
            let cold = list_of(lists, to);
            let of = Between {
                ground: &*ground,
                hot,
                cold,
                to,
            };
            best = if pairs {
                best_two_come(&of, best_two_go(&of, best))
            } else {
                best_single(&of, best)
            };
        }
    }
    best
}

/// The exchange that leaves both ranks least loaded in any hour, if there is one that leaves them less loaded than
/// the most loaded rank is: of one part for one, else of two for one.
pub(crate) fn best_swap(ground: &Ground<'_>, lists: &[Vec<PartHeat>]) -> Option<Swap> {
    let now = load_in(ground.table, ground.hour, ground.most);
    let mut best = best_of(ground, lists, false);
    if best.greatest >= now {
        best = best_of(ground, lists, true);
    }
    if best.greatest < now {
        Some(best)
    } else {
        None
    }
}

/// The load of a rank, in the hour in which it is greatest.
pub(crate) fn worst_in(table: &[u64], hours: usize, rank: usize) -> u64 {
    let mut most = 0;
    for hour in 0..hours {
        most = load_in(table, hour, rank).max(most);
    }
    most
}

/// Writes the load of a rank in an hour, if there is one.
fn write(table: &mut [u64], hour: usize, rank: usize, load: u64) {
    let at = hour.saturating_mul(64).saturating_add(rank);
    if at < table.len() {
        table[at] = load;
    }
}

/// Takes the heat of a part from one rank to another one.
pub(crate) fn reload(
    table: &mut [u64],
    parts: &PartAmounts<'_>,
    part: u32,
    from: usize,
    to: usize,
) {
    for hour in 0..parts.hours.len() {
        let heat = heat_in(parts, hour, part);
        let here = load_in(table, hour, from).saturating_sub(heat);
        write(table, hour, from, here);
        let there = load_in(table, hour, to).saturating_add(heat);
        write(table, hour, to, there);
    }
}
