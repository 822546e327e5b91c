//! Parts moved, or exchanged for colder ones, while the greatest load falls.
ghost use Rattle.std.specs.Prelude.{◌≡◌, ◌<◌, ℕ, List, length, IfOk};
ghost use Rattle.ceph_plan.specs.Balance.{HaveRanks};

use crate::bound::has_number;
use crate::loads::loads;
use crate::order::PartHeat;
use crate::rank_choice::PartAmounts;
use crate::swaps::{
    Ground, Swap, best_swap, hottest_hour, list_of, lists, load_in, reload, worst_in,
};
use mds_types::{Rank, RankSet};
use std::alloc::{AllocError, Global};

/// At most this many exchanges are tried.
const MOST_EXCHANGES: u32 = 64;

/// The number of the most loaded rank of the set, and that of the least loaded one, each in its hottest hour.
fn ends(table: &[u64], hours: usize, ranks: RankSet) -> (usize, usize) {
    let (mut most, mut least) = (0, 0);
    let mut high = worst_in(table, hours, 0);
    let mut low = high;
    for number in 1..64u8 {
        if has_number(ranks, number) {
            let at = usize::from(number);
            let load = worst_in(table, hours, at);
            most = if load > high { at } else { most };
            least = if load < low { at } else { least };
            high = high.max(load);
            low = low.min(load);
        }
    }
    (most, least)
}

/// One of the first parts and one of the others, so that the first is hotter by as nearly as possible `wanted`.
fn closest(hot: &[PartHeat], cold: &[PartHeat], wanted: u64) -> Option<(PartHeat, PartHeat)> {
    let (mut i, mut j) = (0, 0);
    let mut least = u64::MAX;
    let mut best = None;
    while i < hot.len() && j < cold.len() {
        let (one, other) = (hot[i], cold[j]);
        let near = other.heat.saturating_add(wanted);
        if one.heat.abs_diff(near) < least {
            least = one.heat.abs_diff(near);
            best = Some((one, other));
        }
        if one.heat < near {
            i += 1;
        } else {
            j += 1;
        }
    }
    best
}

/// Sends a part to the rank of this number, if it is one of the set and the part isn't the root's.
fn send(rank: &mut [Rank], root: u32, ranks: RankSet, part: u32, number: usize)
    ensures { (heats : List ℕ) → HaveRanks ranks heats root rank.old → HaveRanks ranks heats root rank.new }
{
    let place = part as usize;
    if part == root || place >= rank.len() || number >= 64 {
        return;
    }
    if let Some(to) = Rank::new(number as u8) {
        if ranks.has(to) {
            rank[place] = to;
        }
    }
}

/// Of one hour, a part of the most loaded rank and a colder one of the least loaded rank, so that both are loaded less
/// than the first was.
fn closest_swap(ground: &Ground<'_>, lists: &[Vec<PartHeat>], least: usize) -> Option<Swap> {
    let here = load_in(ground.table, 0, ground.most);
    let gap = here.saturating_sub(load_in(ground.table, 0, least));
    let (hot, cold) = (list_of(lists, ground.most), list_of(lists, least));
    let (one, other) = closest(hot, cold, gap / 2)?;
    let change = one.heat.saturating_sub(other.heat);
    if change > 0 && change < gap {
        Some(Swap {
            going: (one.part.0, ground.parts.root),
            coming: (other.part.0, ground.parts.root),
            to: least,
            greatest: here,
            hottest: 0,
        })
    } else {
        None
    }
}

/// Sends a part from one rank to another, as `send` does, and its heat in the table of loads.
fn carry(
    parts: &PartAmounts<'_>,
    table: &mut [u64],
    rank: &mut [Rank],
    part: u32,
    from: usize,
    to: usize,
)
    requires ranks { HaveRanks parts.now.ranks parts.now.heats.now parts.now.root rank.old }
    ensures { HaveRanks parts.now.ranks parts.now.heats.now parts.now.root rank.new }
{
    send(rank, parts.root, parts.ranks, part, to);
    reload(table, parts, part, from, to);
}

/// Sends parts of the most loaded rank to another one, where parts may come back for them, so that both are loaded less
/// than the first was. Whether there are any. The table has the loads.
fn exchange(
    alloc: Global,
    parts: &PartAmounts<'_>,
    table: &mut [u64],
    rank: &mut [Rank],
) -> Result<bool, AllocError>
    requires ranks { HaveRanks parts.now.ranks parts.now.heats.now parts.now.root rank.old }
    ensures { HaveRanks parts.now.ranks parts.now.heats.now parts.now.root rank.new }
{
    let hours = parts.hours.len();
    let (most, least) = ends(table, hours, parts.ranks);
    let ground = Ground {
        parts: &*parts,
        table: &*table,
        most,
        hour: hottest_hour(table, hours, most),
    };
    let lists = lists(alloc, parts, rank, ground.hour)?;
    let swap = if hours == 1 {
        closest_swap(&ground, &lists, least)
    } else {
        best_swap(&ground, &lists)
    };
    let Some(swap) = swap else {
        return Ok(false);
    };
    carry(parts, table, rank, swap.going.0, most, swap.to);
    carry(parts, table, rank, swap.going.1, most, swap.to);
    carry(parts, table, rank, swap.coming.0, swap.to, most);
    carry(parts, table, rank, swap.coming.1, swap.to, most);
    Ok(true)
}

/// The ranks of the parts after exchanges, as long as there are any.
pub fn exchanged(
    alloc: Global,
    parts: &PartAmounts<'_>,
    rank: &[Rank],
) -> Result<Vec<Rank>, AllocError>
    requires ranks { HaveRanks parts.now.ranks parts.now.heats.now parts.now.root rank.now }
    ensures { IfOk result (λ found. HaveRanks parts.now.ranks parts.now.heats.now parts.now.root found.items) }
{
    let mut table = loads(alloc, parts.hours, rank)?;
    let mut found = rank.to_vec(alloc)?;
    for _ in 0..MOST_EXCHANGES {
        if !exchange(alloc, parts, &mut table, &mut found)? {
            return Ok(found);
        }
    }
    Ok(found)
}
