//! Random boards and plans, which a plain slow program reads too.

use crate::heats::{add, heat_of};
use crate::random::Random;
use crate::same::{Sure, same, same_in};
use arrayvec::ArrayVec;
use dir_pins::Pins;
use dirtree::Tree;
use heat_decay::Heat;
use mds_types::{CutProof, Dir, DualProof, Plan, ProblemRow, Rank, RankSet};
use std::alloc::{AllocError, Global};
use std::process::Abort;
use tree_parts::plan_parts::parts;
use tree_parts::{Opened, PlanPart, open};

/// How many directories a board has room for.
const ROOM: u32 = 24;

/// A board, with the own pins and the ranks of directories as plain lists.
#[derive(Drop)]
struct Board {
    tree: Tree,
    pins: Pins,
    heat: Heat,
    own: [Option<Rank>; ROOM as usize],
    now: [Rank; ROOM as usize],
}

fn empty(alloc: Global) -> Result<Board, AllocError> {
    Ok(Board {
        tree: Tree::new(alloc, ROOM)?,
        pins: Pins::new(alloc, ROOM, 4)?,
        heat: Heat::new(alloc, ROOM)?,
        own: [None; ROOM as usize],
        now: [Rank::default(); ROOM as usize],
    })
}

/// Makes a directory, or removes one, unless it is refused.
fn change_tree(rt: &impl Abort, alloc: Global, random: &mut Random, tree: &mut Tree, change: u32) {
    let dir = Dir::new(random.below(u64::from(tree.numbers())) as u32);
    if random.below(5) == 0 {
        let _refused = tree.remove(dir);
        return;
    }
    let name = format!(in alloc; "d{change}").sure(rt);
    let _refused = tree.make(alloc, dir, name.as_str(), random.below(100) as u32);
}

/// Pins a directory, unless it is refused.
fn set_pin(rt: &impl Abort, board: &mut Board, dir: u32, pin: u8) {
    assert!(rt; board.tree.limit() <= board.pins.limit());
    let set = board.pins.set(&board.tree, Dir::new(dir), i32::from(pin));
    if let Some(own) = board.own.get_mut(dir as usize)
        && set.is_ok()
    {
        *own = Rank::new(pin);
    }
}

fn random_board(rt: &impl Abort, alloc: Global, random: &mut Random) -> Board {
    let mut board = empty(alloc).sure(rt);
    for change in 0..40 {
        change_tree(rt, alloc, random, &mut board.tree, change);
    }
    for dir in 0..ROOM {
        set_pin(rt, &mut board, dir, random.below(24) as u8);
        add(&mut board.heat, dir, u128::from(random.below(1000)));
    }
    for rank in &mut board.now {
        *rank = Rank::new(random.below(4) as u8).unwrap_or_default();
    }
    board
}

/// Whether a directory or one above it has an own pin.
fn is_held(board: &Board, dir: Dir) -> bool {
    let mut at = dir;
    for _ in 0..ROOM {
        if let Some(Some(_)) = board.own.get(at.number() as usize) {
            return true;
        }
        let Some(row) = board.tree.row(at) else {
            return false;
        };
        at = row.parent;
    }
    false
}

/// The directories that no pin holds. Each is found by its path.
fn slow_dirs(rt: &impl Abort, alloc: Global, board: &Board) -> Vec<Dir> {
    let mut dirs = Vec::new(alloc);
    for row in board.tree.rows(alloc).sure(rt) {
        let path = board.tree.path(alloc, row.dir).sure(rt);
        same(rt, &board.tree.find(path.as_str()), &Ok(row.dir));
        if !is_held(board, row.dir) {
            dirs.push(row.dir).sure(rt);
        }
    }
    dirs
}

/// The place of a value, by a scan.
fn place_of<T: PartialEq>(values: &[T], wanted: &T) -> Option<usize> {
    for (place, value) in values.iter().enumerate() {
        if value == wanted {
            return Some(place);
        }
    }
    None
}

/// The row of a directory, by a scan for its parent.
fn slow_row(board: &Board, dirs: &[Dir], dir: Dir) -> Option<ProblemRow> {
    let row = board.tree.row(dir)?;
    Some(ProblemRow {
        parent: u32::try_from(place_of(dirs, &row.parent)?).ok()?,
        heat: heat_of(&board.heat, dir.number())?,
        inodes: row.inodes,
        now: *board.now.get(dir.number() as usize)?,
    })
}

/// What is opened of a board: the rows of the directories that no pin holds.
fn opened(rt: &impl Abort, alloc: Global, board: &Board, round: u32) -> Opened {
    let (tree, pins, heat) = (&board.tree, &board.pins, &board.heat);
    assert!(rt; tree.limit() <= pins.limit());
    assert!(rt; tree.limit() <= heat.limit());
    assert!(rt; tree.numbers() as usize <= board.now.len());
    let found = open(alloc, tree, pins, heat, &board.now, RankSet::from_bits(15)).sure(rt);
    let dirs = slow_dirs(rt, alloc, board);
    same_in(rt, &found.dirs, &dirs, &round);
    same_in(rt, &found.problem.rows().len(), &dirs.len(), &round);
    for (row, dir) in found.problem.rows().iter().zip(&dirs) {
        same_in(rt, &Some(*row), &slow_row(board, &dirs, *dir), &round);
    }
    found
}

/// A label for each row. Each row but a few has its parent's.
fn random_labels(
    alloc: Global,
    random: &mut Random,
    rows: &[ProblemRow],
) -> Result<Vec<u32>, AllocError> {
    let mut part: Vec<u32> = Vec::new(alloc);
    let mut labels = 1;
    for row in rows {
        let above = part.get(row.parent as usize).copied().unwrap_or(0);
        let is_cut = labels < 4 && random.below(4) == 0;
        part.push(if is_cut { labels } else { above })?;
        if is_cut {
            labels += 1;
        }
    }
    Ok(part)
}

/// A plan of these parts, on ranks 3, 2, 1 and 0.
fn plan_of(alloc: Global, part: Vec<u32>) -> Plan {
    let mut rank = ArrayVec::new();
    for number in 0..4 {
        let _full = rank.try_push(Rank::new(3 - number).unwrap_or_default());
    }
    Plan {
        part,
        rank,
        greatest: 6,
        moved: 0,
        cut: CutProof::Zero,
        dual: DualProof {
            part_price: Vec::new(alloc),
            rank_price: Vec::new(alloc),
        },
    }
}

/// The part whose first row is this one, by a scan of all rows.
fn slow_part(opened: &Opened, plan: &Plan, top: usize) -> Option<PlanPart> {
    let label = *plan.part.get(top)?;
    let mut part = PlanPart {
        top: *opened.dirs.get(top)?,
        rank: *plan.rank.get(label as usize)?,
        heat: 0,
        inodes: 0,
    };
    for (row, other) in opened.problem.rows().iter().zip(&plan.part) {
        if *other == label {
            part.heat = part.heat.wrapping_add(row.heat);
            part.inodes = part.inodes.wrapping_add(u64::from(row.inodes));
        }
    }
    Some(part)
}

/// The parts of a plan are those of a scan for each row. It says how many they are.
fn same_parts(rt: &impl Abort, alloc: Global, opened: &Opened, plan: &Plan, round: u32) -> usize {
    let (problem, count) = (&opened.problem, plan.rank.len());
    assert!(rt; opened.dirs.len() == problem.rows().len());
    assert!(rt; plan.part.len() == problem.rows().len());
    assert!(rt; plan.part.iter().all(|&label| (label as usize) < count));
    let found = parts(alloc, problem, &opened.dirs, plan).sure(rt);
    let mut wanted = Vec::new(alloc);
    for (row, label) in plan.part.iter().enumerate() {
        if place_of(&plan.part, label) == Some(row) {
            wanted.push(slow_part(opened, plan, row)).sure(rt);
        }
    }
    same_in(rt, &found.len(), &wanted.len(), &round);
    for (part, other) in found.iter().zip(&wanted) {
        same_in(rt, &Some(*part), other, &round);
    }
    found.len()
}

#[test]
fn a_slow_program_reads_the_same(rt: HostRuntime) {
    let (mut random, mut most) = (Random::new(17), 0);
    for round in 0..60 {
        let board = random_board(&rt, rt.alloc(), &mut random);
        let opened = opened(&rt, rt.alloc(), &board, round);
        let part = random_labels(rt.alloc(), &mut random, opened.problem.rows()).sure(&rt);
        let plan = plan_of(rt.alloc(), part);
        most = same_parts(&rt, rt.alloc(), &opened, &plan, round).max(most);
    }
    same(&rt, &most, &4);
}
