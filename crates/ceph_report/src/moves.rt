//! What goes where: heat and inodes by rank, and by pin.

ghost use Rattle.std.specs.Prelude.{◌≡◌, ◌==◌, ◌&&◌, ◌<◌, ◌≤◌, ◌+◌, is_some, not, length, slice_index, IfOk};
ghost use Rattle.std.specs.Prelude.{None, min, slice_index_or, ℕ};
ghost use Rattle.ceph_plan.specs.Rule.{parent_at};
ghost use Rattle.ceph_snapshot.specs.Rows.{is_free};
ghost use Rattle.ceph_snapshot.specs.Holding.{most_heat};
ghost use Rattle.ceph_report.specs.Amounts.{AreAmounts, cold_inodes, goal_at, goal_of, going_of, heat_going, heat_now};
ghost use Rattle.ceph_report.specs.Amounts.{inodes_from, inodes_to};
ghost use Rattle.ceph_report.specs.Moves.{AreBrought, AreLeaders, AreMoves, brought_at, leader_of, leaving_at};
ghost use Rattle.ceph_report.specs.Moves.{moves_below, pin_move};

use ceph_pins::pins_after;
use ceph_plan::{PinChange, PinRow};
use ceph_snapshot::{Directory, Held};
use mds_types::Rank;
use mds_types::limits::RANK_LIMIT;
use std::alloc::{AllocError, Global};

/// Numbers of each of 64 ranks, and of what goes to another rank.
#[derive(Drop)]
pub struct Sums {
    /// `now[r]` is the heat of what is at rank r now, in thousandths.
    pub now: Vec<u64>,
    /// `into[r]` is how many inodes come to rank r.
    pub into: Vec<u64>,
    /// `out[r]` is how many inodes go from rank r.
    pub out: Vec<u64>,
    /// How many inodes go to another rank in directories without heat of their own.
    pub cold: u64,
    /// The heat that goes to another rank, in thousandths.
    pub heat: u64,
}

/// The rank that a directory is to be at: where it is held, or else its target.
fn goal(hold: Held, target: Rank) -> Rank
    ensures { result ≡ goal_of hold target }
{
    match hold {
        Held::Free => target,
        Held::Pinned(rank) | Held::Spread(rank) => rank,
    }
}

/// The rank that each directory is to be at.
pub fn goals_of(alloc: Global, holds: &[Held], rows: &[PinRow]) -> Result<Vec<Rank>, AllocError>
    requires { length holds.now ≡ length rows.now }
    ensures size { IfOk result (λ goals. length goals.items ≡ length rows.now) }
    ensures goals { IfOk result (λ goals. (i : ℕ) → i < length rows.now
        → slice_index goals.items i ≡ goal_at holds.now rows.now i) }
{
    let mut goals = Vec::with_capacity(alloc, rows.len())?;
    for (at, row) in rows.iter().enumerate() {
        goals.push(goal(holds[at], row.target))?;
    }
    Ok(goals)
}

/// Whether a directory that is at rank `now` goes to another one. What is held stays.
fn is_leaving(now: Rank, hold: Held, goal: Rank) -> bool
    ensures { result ≡ (is_free hold && not (now == goal)) }
{
    match hold {
        Held::Free => now != goal,
        Held::Pinned(_) | Held::Spread(_) => false,
    }
}

/// How many of a directory's inodes go to another rank: all of them, or none.
fn going(now: Rank, hold: Held, goal: Rank, inodes: u64) -> u64
    ensures { result ≡ going_of now hold goal inodes }
{
    if is_leaving(now, hold, goal) {
        inodes
    } else {
        0
    }
}

/// The heat at each rank now, with `spread`, the heat of what is spread.
fn heats_now(
    alloc: Global,
    directories: &[Directory],
    spread: &[u64],
) -> Result<Vec<u64>, AllocError>
    requires { length spread.now ≡ 64 }
    ensures { IfOk result (λ heats. AreAmounts heats.items
        (λ r. slice_index spread.now r + heat_now directories.now r (length directories.now))) }
{
    let mut heats = spread.to_vec(alloc)?;
    for (at, directory) in directories.iter().enumerate() {
        if !directory.is_spread {
            let number = usize::from(directory.now.number());
            heats[number] = heats[number].saturating_add(directory.heat);
        }
    }
    Ok(heats)
}

/// The inodes that come to each rank.
fn inodes_into(
    alloc: Global,
    directories: &[Directory],
    holds: &[Held],
    goals: &[Rank],
) -> Result<Vec<u64>, AllocError>
    requires holds { length holds.now ≡ length directories.now }
    requires goals { length goals.now ≡ length directories.now }
    ensures { IfOk result (λ inodes. AreAmounts inodes.items
        (λ r. inodes_to directories.now holds.now goals.now r (length directories.now))) }
{
    let mut inodes = vec![in alloc; 0u64; usize::from(RANK_LIMIT)]?;
    for (at, directory) in directories.iter().enumerate() {
        let number = usize::from(goals[at].number());
        let more = going(directory.now, holds[at], goals[at], directory.inodes);
        inodes[number] = inodes[number].saturating_add(more);
    }
    Ok(inodes)
}

/// The inodes that go from each rank.
fn inodes_away(
    alloc: Global,
    directories: &[Directory],
    holds: &[Held],
    goals: &[Rank],
) -> Result<Vec<u64>, AllocError>
    requires holds { length holds.now ≡ length directories.now }
    requires goals { length goals.now ≡ length directories.now }
    ensures { IfOk result (λ inodes. AreAmounts inodes.items
        (λ r. inodes_from directories.now holds.now goals.now r (length directories.now))) }
{
    let mut inodes = vec![in alloc; 0u64; usize::from(RANK_LIMIT)]?;
    for (at, directory) in directories.iter().enumerate() {
        let number = usize::from(directory.now.number());
        let more = going(directory.now, holds[at], goals[at], directory.inodes);
        inodes[number] = inodes[number].saturating_add(more);
    }
    Ok(inodes)
}

/// The inodes that go to another rank in directories without heat of their own.
fn cold_inodes(directories: &[Directory], holds: &[Held], goals: &[Rank]) -> u64
    requires holds { length holds.now ≡ length directories.now }
    requires goals { length goals.now ≡ length directories.now }
    ensures { result ≡ min most_heat (cold_inodes directories.now holds.now goals.now (length directories.now)) }
{
    let mut inodes = 0u64;
    for (at, directory) in directories.iter().enumerate() {
        if directory.heat == 0 {
            let more = going(directory.now, holds[at], goals[at], directory.inodes);
            inodes = inodes.saturating_add(more);
        }
    }
    inodes
}

/// The heat that goes to another rank, in thousandths.
fn heat_going(directories: &[Directory], holds: &[Held], goals: &[Rank]) -> u64
    requires holds { length holds.now ≡ length directories.now }
    requires goals { length goals.now ≡ length directories.now }
    ensures { result ≡ min most_heat (heat_going directories.now holds.now goals.now (length directories.now)) }
{
    let mut heat = 0u64;
    for (at, directory) in directories.iter().enumerate() {
        let more = going(directory.now, holds[at], goals[at], directory.heat);
        heat = heat.saturating_add(more);
    }
    heat
}

/// The numbers of each of 64 ranks. `goals[i]` is the rank that directory i is to
/// be at, and `spread` the heat of what is spread.
pub fn sums_of(
    alloc: Global,
    directories: &[Directory],
    holds: &[Held],
    goals: &[Rank],
    spread: &[u64],
) -> Result<Sums, AllocError>
    requires holds { length holds.now ≡ length directories.now }
    requires goals { length goals.now ≡ length directories.now }
    requires spread { length spread.now ≡ 64 }
    ensures now { IfOk result (λ sums. AreAmounts sums.now.items
        (λ r. slice_index spread.now r + heat_now directories.now r (length directories.now))) }
    ensures into { IfOk result (λ sums. AreAmounts sums.into.items
        (λ r. inodes_to directories.now holds.now goals.now r (length directories.now))) }
    ensures out { IfOk result (λ sums. AreAmounts sums.out.items
        (λ r. inodes_from directories.now holds.now goals.now r (length directories.now))) }
    ensures cold { IfOk result (λ sums. sums.cold
        ≡ min most_heat (cold_inodes directories.now holds.now goals.now (length directories.now))) }
    ensures heat { IfOk result (λ sums. sums.heat
        ≡ min most_heat (heat_going directories.now holds.now goals.now (length directories.now))) }
{
    let now = heats_now(alloc, directories, spread)?;
    let into = inodes_into(alloc, directories, holds, goals)?;
    let out = inodes_away(alloc, directories, holds, goals)?;
    Ok(Sums {
        now,
        into,
        out,
        cold: cold_inodes(directories, holds, goals),
        heat: heat_going(directories, holds, goals),
    })
}

/// What a pin brings to its rank.
#[derive(Clone, Copy)]
pub struct Move {
    /// The inodes that come.
    pub inodes: u64,
    /// Their heat, in thousandths.
    pub heat: u64,
    /// The place of the directory that is pinned.
    pub directory: usize,
    /// The rank that it is pinned to.
    pub to: Rank,
}

/// The place of the directory that leads the next one, where `leaders` has those of the directories before it and
/// `parent` is its parent's place: its own place where it leads.
pub(crate) fn leader(leaders: &[usize], leads: bool, parent: usize) -> usize
    requires { (i : ℕ) → i < length leaders.now → slice_index leaders.now i ≤ i }
    ensures is { result ≡ leader_of leads parent (length leaders.now) leaders.now }
    ensures above { result ≤ length leaders.now }
{
    if leads || parent >= leaders.len() {
        leaders.len()
    } else {
        leaders[parent]
    }
}

/// The place of the directory whose pin leads each directory; the root's where there is none.
fn leaders(alloc: Global, rows: &[PinRow], pins: &[Option<Rank>]) -> Result<Vec<usize>, AllocError>
    requires { length pins.now ≡ length rows.now }
    ensures led { IfOk result (λ leaders. AreLeaders (parent_at rows.now)
        (λ i. is_some (slice_index_or pins.now i None)) (length rows.now) leaders.items) }
    ensures above { IfOk result (λ leaders. (i : ℕ) → i < length rows.now → slice_index leaders.items i ≤ i) }
{
    let mut leaders = Vec::with_capacity(alloc, rows.len())?;
    for at in 0..rows.len() {
        let is_pinned = pins[at].is_some();
        let one = leader(&leaders, is_pinned, rows[at].parent as usize);
        leaders.push(one)?;
    }
    Ok(leaders)
}

/// What a pin brings.
#[derive(Clone, Copy)]
enum Brought {
    /// Inodes.
    Inodes,
    /// Their heat.
    Heat,
}

/// How much the directory at a place has that goes to another rank.
fn leaving_at(
    what: Brought,
    directories: &[Directory],
    holds: &[Held],
    rows: &[PinRow],
    at: usize,
) -> u64
    requires { at < length rows.now }
    ensures { result ≡ leaving_at what directories.now holds.now rows.now at }
{
    let hold = holds.get(at).copied().unwrap_or(Held::Free);
    let Some(directory) = directories.get(at) else {
        return 0;
    };
    let amount = match what {
        Brought::Inodes => directory.inodes,
        Brought::Heat => directory.heat,
    };
    going(directory.now, hold, rows[at].target, amount)
}

/// What each directory's pin brings, at the place of the directory.
fn brought_sums(
    alloc: Global,
    what: Brought,
    directories: &[Directory],
    holds: &[Held],
    rows: &[PinRow],
    leaders: &[usize],
) -> Result<Vec<u64>, AllocError>
    requires size { length leaders.now ≡ length rows.now }
    requires inside { (i : ℕ) → i < length rows.now → slice_index leaders.now i < length rows.now }
    ensures size { IfOk result (λ sums. length sums.items ≡ length rows.now) }
    ensures sums { IfOk result (λ sums. (i : ℕ) → i < length rows.now → slice_index sums.items i
        ≡ brought_at what directories.now holds.now rows.now leaders.now i) }
{
    let mut sums = vec![in alloc; 0u64; rows.len()]?;
    for at in 0..leaders.len() {
        let leader = leaders[at];
        let more = leaving_at(what, directories, holds, rows, at);
        sums[leader] = sums[leader].saturating_add(more);
    }
    Ok(sums)
}

/// What the pin of the directory at a place brings, if it has one that brings inodes.
fn pin_move(pin: Option<Rank>, inodes: u64, heat: u64, directory: usize) -> Option<Move>
    ensures { result ≡ pin_move pin inodes heat directory }
{
    let to = pin?;
    if inodes == 0 {
        return None;
    }
    Some(Move {
        inodes,
        heat,
        directory,
        to,
    })
}

/// What pins bring that bring inodes, in the order of the rows.
fn gathered(
    alloc: Global,
    pins: &[Option<Rank>],
    inodes: &[u64],
    heats: &[u64],
) -> Result<Vec<Move>, AllocError>
    requires inodes { length inodes.now ≡ length pins.now }
    requires heats { length heats.now ≡ length pins.now }
    ensures { IfOk result (λ moves. moves.items
        ≡ moves_below
        (λ i. pin_move (slice_index_or pins.now i None) (slice_index inodes.now i) (slice_index heats.now i) i)
        (length pins.now)) }
{
    let mut moves = Vec::new(alloc);
    for at in 0..pins.len() {
        if let Some(one) = pin_move(pins[at], inodes[at], heats[at], at) {
            moves.push(one)?;
        }
    }
    Ok(moves)
}

/// The inodes that the pin of each directory brings to its rank once the changes are made, at the directory's place.
pub fn inodes_brought(
    alloc: Global,
    directories: &[Directory],
    holds: &[Held],
    rows: &[PinRow],
    changes: &[PinChange],
) -> Result<Vec<u64>, AllocError>
    ensures { IfOk result (λ inodes. AreBrought directories.now holds.now rows.now changes.now inodes.items) }
{
    let pins = pins_after(alloc, rows, changes)?;
    let leaders = leaders(alloc, rows, &pins)?;
    let inodes = brought_sums(alloc, Brought::Inodes, directories, holds, rows, &leaders)?;
    Ok(inodes)
}

/// What each pin of this program brings to its rank once the changes are made, the most inodes first. Pins that bring
/// nothing are left out.
pub fn moves_of(
    alloc: Global,
    directories: &[Directory],
    holds: &[Held],
    rows: &[PinRow],
    changes: &[PinChange],
) -> Result<Vec<Move>, AllocError>
    ensures { IfOk result (λ moves. AreMoves directories.now holds.now rows.now changes.now moves.items) }
{
    let pins = pins_after(alloc, rows, changes)?;
    let leaders = leaders(alloc, rows, &pins)?;
    let inodes = brought_sums(alloc, Brought::Inodes, directories, holds, rows, &leaders)?;
    let heats = brought_sums(alloc, Brought::Heat, directories, holds, rows, &leaders)?;
    let mut moves = gathered(alloc, &pins, &inodes, &heats)?;
    moves.sort_by_key(|one| u64::MAX - one.inodes)?;
    Ok(moves)
}
