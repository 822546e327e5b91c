//! A rank for each row, from the ranks where the rows are: from ranks that are too hot, directories go to cool ones.
//!
//! What may move is a directory with all that is below it at the same rank. Those with the most heat an inode, or with
//! the most heat, go first, each to the least loaded rank, if that stays within the limit. Nothing relies on what comes
//! of it: there is one rank for each row.
ghost use Rattle.std.specs.Prelude.{◌≡◌, length, IfOk};

use crate::bound::has_number;
use crate::hours::Hour;
use crate::order::PartHeat;
use crate::proposal::OwnPins;
use mds_types::limits::DIR_LIMIT;
use mds_types::{ProblemRow, Rank, RankSet};
use std::alloc::{AllocError, Global};
use std::cmp::Reverse;

/// Which directories go first.
#[derive(Clone, Copy)]
pub(crate) enum First {
    /// Those with the most heat an inode.
    Dense,
    /// Those with the most heat.
    Hot,
}

/// What moves, and within which limit.
#[derive(Drop)]
pub(crate) struct Ground<'a> {
    /// The rows.
    pub rows: &'a [ProblemRow],
    /// What is counted of each hour.
    pub hours: &'a [Hour],
    /// The ranks that may have a part.
    pub ranks: RankSet,
    /// No load is to be above this.
    pub limit: u64,
    /// Which directories go first.
    pub first: First,
    /// No more directories get a pin that have none of ours. Each goes with all that is below it.
    pub most: usize,
    /// No more inodes go.
    pub most_inodes: u64,
    /// What is known of each row: one that is to be left doesn't go.
    pub own: &'a [OwnPins],
}

/// How many directories went, and how many pins may still be new, and how many inodes may still go.
#[derive(Clone, Copy)]
struct Left {
    went: usize,
    pins: usize,
    inodes: u64,
}

/// At most this many rounds are tried.
const MOST_ROUNDS: u32 = 12;

/// No more rows than this are climbed.
const MOST_CLIMBED: u32 = 2000;

/// No rank.
const NONE: u8 = 64;

/// How many ranks there can be.
const RANKS: usize = 64;

/// The number at a place, and 0 past the last one.
fn read(numbers: &[u64], at: usize) -> u64 {
    match numbers.get(at) {
        Some(number) => *number,
        None => 0,
    }
}

/// Writes the number at a place, if it is one.
fn write(numbers: &mut [u64], at: usize, number: u64) {
    if at < numbers.len() {
        numbers[at] = number;
    }
}

/// The number of the rank that is noted for a row, or `NONE`.
fn noted(to: &[u8], row: usize) -> u8 {
    match to.get(row) {
        Some(number) => *number,
        None => NONE,
    }
}

/// The number of the rank of a row, and `NONE` past the last one.
fn rank_at(goals: &[Rank], row: usize) -> u8 {
    match goals.get(row) {
        Some(rank) => rank.number(),
        None => NONE,
    }
}

/// The row above this one, if it is one and goes to the same rank.
fn above(rows: &[ProblemRow], goals: &[Rank], row: usize) -> Option<usize> {
    let up = match rows.get(row) {
        Some(found) => found.parent as usize,
        None => return None,
    };
    if row > 0 && rank_at(goals, up) == rank_at(goals, row) {
        Some(up)
    } else {
        None
    }
}

/// Adds the numbers of each row to those of the row above it, where both go to one rank.
fn add_up(rows: &[ProblemRow], goals: &[Rank], numbers: &mut [u64]) {
    for row in (0..rows.len()).rev() {
        if let Some(up) = above(rows, goals, row) {
            let sum = read(numbers, up).saturating_add(read(numbers, row));
            write(numbers, up, sum);
        }
    }
}

/// The heat of each row with all that is below it at the same rank, hour by hour.
fn heats_below(alloc: Global, ground: &Ground<'_>, goals: &[Rank]) -> Result<Vec<u64>, AllocError> {
    let mut found = Vec::new(alloc);
    for hour in ground.hours {
        let mut heats = hour.heats.to_vec(alloc)?;
        add_up(ground.rows, goals, &mut heats);
        found.extend_from_slice(&heats)?;
    }
    Ok(found)
}

/// The inodes of each row with all that is below it at the same rank.
fn inodes_below(
    alloc: Global,
    rows: &[ProblemRow],
    goals: &[Rank],
) -> Result<Vec<u64>, AllocError> {
    let mut found = Vec::with_capacity(alloc, rows.len())?;
    for row in rows {
        found.push(u64::from(row.inodes))?;
    }
    add_up(rows, goals, &mut found);
    Ok(found)
}

/// What the ranks have, and what moves with each row.
#[derive(Drop)]
struct Sums {
    /// The load of each rank, 64 numbers an hour.
    loads: Vec<u64>,
    /// The heat of each row with all that is below it at the same rank, hour by hour.
    heats: Vec<u64>,
    /// Their inodes.
    inodes: Vec<u64>,
    /// How many hours there are.
    hours: usize,
    /// How many rows there are.
    rows: usize,
}

/// The place of a rank's load, or of a row's heat, where so many are of each hour.
fn place(hour: usize, each: usize, at: usize) -> usize {
    hour.saturating_mul(each).saturating_add(at)
}

/// The load of a rank in an hour.
fn load_in(sums: &Sums, hour: usize, rank: usize) -> u64 {
    read(&sums.loads, place(hour, RANKS, rank))
}

/// The heat that moves with a row in an hour.
fn heat_in(sums: &Sums, hour: usize, row: usize) -> u64 {
    read(&sums.heats, place(hour, sums.rows, row))
}

/// The load of each rank in an hour, where each row goes to this rank.
fn hour_loads(alloc: Global, hour: &Hour, goals: &[Rank]) -> Result<Vec<u64>, AllocError> {
    let mut loads = hour.pinned.to_vec(alloc)?;
    for (i, heat) in hour.heats.iter().enumerate() {
        let at = usize::from(rank_at(goals, i));
        let load = read(&loads, at).saturating_add(*heat);
        write(&mut loads, at, load);
    }
    Ok(loads)
}

/// The loads and sums where each row goes to this rank.
fn sums_of(alloc: Global, ground: &Ground<'_>, goals: &[Rank]) -> Result<Sums, AllocError> {
    let mut loads = Vec::new(alloc);
    for hour in ground.hours {
        let one = hour_loads(alloc, hour, goals)?;
        loads.extend_from_slice(&one)?;
    }
    Ok(Sums {
        loads,
        heats: heats_below(alloc, ground, goals)?,
        inodes: inodes_below(alloc, ground.rows, goals)?,
        hours: ground.hours.len(),
        rows: ground.rows.len(),
    })
}

/// The first hour in which a rank has its greatest load.
fn hottest_hour(sums: &Sums, rank: usize) -> usize {
    let mut best = 0;
    for hour in 1..sums.hours {
        if load_in(sums, hour, rank) > load_in(sums, best, rank) {
            best = hour;
        }
    }
    best
}

/// The first hour in which each rank has its greatest load.
fn hottest_hours(alloc: Global, sums: &Sums) -> Result<Vec<usize>, AllocError> {
    let mut found = Vec::with_capacity(alloc, RANKS)?;
    for rank in 0..RANKS {
        found.push(hottest_hour(sums, rank))?;
    }
    Ok(found)
}

/// The load of a rank with a row, in the hour in which it is greatest.
fn load_with(sums: &Sums, rank: usize, row: usize) -> u64 {
    let mut most = 0;
    for hour in 0..sums.hours {
        let load = load_in(sums, hour, rank).saturating_add(heat_in(sums, hour, row));
        most = load.max(most);
    }
    most
}

/// By what a row goes first: the greater first.
fn weight(first: First, heat: u64, inodes: u64) -> u64 {
    match first {
        First::Dense => heat.saturating_mul(4096) / inodes.max(1),
        First::Hot => heat,
    }
}

/// Whether a row is to be left where it is.
fn is_left(own: &[OwnPins], row: usize) -> bool {
    match own.get(row) {
        Some(known) => known.is_left,
        None => true,
    }
}

/// Whether a row has a pin of ours, so that it can go without a new one.
fn has_pin(own: &[OwnPins], row: usize) -> bool {
    match own.get(row) {
        Some(known) => known.earlier.is_some(),
        None => false,
    }
}

/// The rows that may leave ranks above the limit, those that go first last. They have heat when their rank has most.
fn leaving(
    alloc: Global,
    ground: &Ground<'_>,
    goals: &[Rank],
    sums: &Sums,
) -> Result<Vec<PartHeat>, AllocError> {
    let hottest = hottest_hours(alloc, sums)?;
    let mut found = Vec::new(alloc);
    for row in 1..ground.rows.len() {
        let from = usize::from(rank_at(goals, row));
        let hour = match hottest.get(from) {
            Some(hour) => *hour,
            None => 0,
        };
        let heat = heat_in(sums, hour, row);
        let may_go = row < DIR_LIMIT as usize && !is_left(ground.own, row);
        if may_go && load_in(sums, hour, from) > ground.limit && heat > 0 {
            let heat = weight(ground.first, heat, read(&sums.inodes, row));
            found.push(PartHeat {
                heat,
                part: Reverse(row as u32),
            })?;
        }
    }
    found.sort()?;
    Ok(found)
}

/// The number of the rank of the set that is least loaded with a row.
fn coolest(sums: &Sums, ranks: RankSet, row: usize) -> u8 {
    let mut best = 0;
    let mut least = load_with(sums, 0, row);
    for number in 1..64u8 {
        if has_number(ranks, number) {
            let load = load_with(sums, usize::from(number), row);
            if load < least {
                best = number;
                least = load;
            }
        }
    }
    best
}

/// Whether a row moves already, or one above it with it; also where that takes too long to find out.
fn is_moving(ground: &Ground<'_>, goals: &[Rank], to: &[u8], row: usize) -> bool {
    let mut at = row;
    for _ in 0..MOST_CLIMBED {
        if noted(to, at) != NONE {
            return true;
        }
        match above(ground.rows, goals, at) {
            Some(up) => at = up,
            None => return false,
        }
    }
    true
}

/// Takes what moves with a row out of the sums of one above it.
fn take_from(sums: &mut Sums, up: usize, row: usize) {
    for hour in 0..sums.hours {
        let rest = heat_in(sums, hour, up).saturating_sub(heat_in(sums, hour, row));
        let at = place(hour, sums.rows, up);
        write(&mut sums.heats, at, rest);
    }
    let rest = read(&sums.inodes, up).saturating_sub(read(&sums.inodes, row));
    write(&mut sums.inodes, up, rest);
}

/// Takes what moves with a row out of the sums of the rows above it.
fn take_out(ground: &Ground<'_>, goals: &[Rank], sums: &mut Sums, row: usize) {
    let mut at = row;
    for _ in 0..MOST_CLIMBED {
        match above(ground.rows, goals, at) {
            Some(up) => at = up,
            None => return,
        }
        take_from(sums, at, row);
    }
}

/// Takes what moves with a row from one rank to another.
fn reload(sums: &mut Sums, row: usize, from: usize, to: usize) {
    for hour in 0..sums.hours {
        let heat = heat_in(sums, hour, row);
        let there = load_in(sums, hour, to).saturating_add(heat);
        write(&mut sums.loads, place(hour, RANKS, to), there);
        let here = load_in(sums, hour, from).saturating_sub(heat);
        write(&mut sums.loads, place(hour, RANKS, from), here);
    }
}

/// Notes that a row goes to the rank that is least loaded with it, if it helps. Whether it does.
fn send(ground: &Ground<'_>, goals: &[Rank], sums: &mut Sums, to: &mut [u8], row: usize) -> bool {
    let from = usize::from(rank_at(goals, row));
    let hour = hottest_hour(sums, from);
    if load_in(sums, hour, from) <= ground.limit || heat_in(sums, hour, row) == 0 {
        return false;
    }
    let least = coolest(sums, ground.ranks, row);
    let there = load_with(sums, usize::from(least), row);
    if there > ground.limit || is_moving(ground, goals, to, row) {
        return false;
    }
    if row < to.len() {
        to[row] = least;
    }
    reload(sums, row, from, usize::from(least));
    take_out(ground, goals, sums, row);
    true
}

/// Has each row go where it is noted, with all that is below it at the same rank.
fn settle(rows: &[ProblemRow], goals: &mut [Rank], to: &mut [u8]) {
    for row in 1..rows.len() {
        if noted(to, row) == NONE {
            if let Some(up) = above(rows, goals, row) {
                let number = noted(to, up);
                if row < to.len() {
                    to[row] = number;
                }
            }
        }
    }
    for (row, goal) in goals.iter_mut().enumerate() {
        if let Some(rank) = Rank::new(noted(to, row)) {
            *goal = rank;
        }
    }
}

/// Moves what helps once, as far as there is room. How much room there is then.
fn moved_once(
    alloc: Global,
    ground: &Ground<'_>,
    goals: &mut [Rank],
    mut left: Left,
) -> Result<Left, AllocError> {
    let mut sums = sums_of(alloc, ground, goals)?;
    let order = leaving(alloc, ground, goals, &sums)?;
    let mut to = vec![in alloc; NONE; ground.rows.len()]?;
    for one in order.iter().rev() {
        let row = one.part.0 as usize;
        let inodes = read(&sums.inodes, row);
        let is_pinned = has_pin(ground.own, row);
        let may_go = (is_pinned || left.pins > 0) && inodes <= left.inodes;
        if may_go && send(ground, goals, &mut sums, &mut to, row) {
            left.went = left.went.saturating_add(1);
            left.pins = left.pins.saturating_sub(usize::from(!is_pinned));
            left.inodes -= inodes;
        }
    }
    settle(ground.rows, goals, &mut to);
    Ok(left)
}

/// A rank for each row, from these.
pub(crate) fn moved_from(
    alloc: Global,
    ground: &Ground<'_>,
    start: &[Rank],
) -> Result<Vec<Rank>, AllocError>
    ensures { IfOk result (λ found. length found.items ≡ length start.now) }
{
    let mut goals = start.to_vec(alloc)?;
    let mut left = Left {
        went: 0,
        pins: ground.most,
        inodes: ground.most_inodes,
    };
    for _ in 0..MOST_ROUNDS {
        let rest = moved_once(alloc, ground, &mut goals, left)?;
        if rest.went == left.went {
            return Ok(goals);
        }
        left = rest;
    }
    Ok(goals)
}
