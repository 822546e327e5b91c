//! The parts of a tree below chosen tops.
//!
//! The root and the chosen directories are the tops. A directory that no pin holds belongs to the
//! nearest top at it or above it. A top that a pin holds has no part.

ghost use Rattle.std.specs.Prelude.{◌≡◌, ℕ, ◌+◌, ◌*◌, ◌^◌, ◌<◌, ◌≤◌, true, false, List, length, slice_index_or, IfOk};
ghost use Rattle.dirtree.specs.Tree.{inodes_of, parent_of};
ghost use Rattle.tree_parts.specs.Parts.{counted, greatest, Marks, nothing, parts, top_of};

use dir_pins::Pins;
use dirtree::Tree;
use heat_decay::Heat;
use mds_types::Dir;
use std::alloc::{AllocError, Global};

/// A part: its top, and the heat, in accesses, and the inodes of its directories together.
#[derive(Clone, Copy, Debug, PartialEq, Eq)]
pub struct Part {
    pub top: Dir,
    pub heat: u64,
    pub inodes: u64,
}

// What was counted to a top so far.
#[derive(Clone, Copy)]
pub(crate) struct Total {
    heat: u64,
    inodes: u64,
}

impl Total {
    // One more directory.
    fn with(self, heat: u64, inodes: u64) -> Total
        requires heat { self.heat + heat < 2 ^ 64 }
        requires inodes { self.inodes + inodes < 2 ^ 64 }
        ensures { result ≡ record { heat = self.heat + heat; inodes = self.inodes + inodes } }
    {
        Total {
            heat: self.heat + heat,
            inodes: self.inodes + inodes,
        }
    }
}

// The parent of a directory, and the root where there is no such directory.
fn parent(tree: &Tree, dir: Dir) -> Dir
    ensures value { result ≡ parent_of tree.now.entries dir }
    ensures above { 0 < dir → result < dir }
    ensures root { dir ≡ 0 → result ≡ 0 }
{
    match tree.row(dir) {
        Some(row) => row.parent,
        None => Dir::ROOT,
    }
}

// The inodes of a directory, and 0 where there is no such directory.
fn inodes(tree: &Tree, dir: Dir) -> u64
    ensures value { result ≡ inodes_of tree.now.entries dir }
    ensures small { result < 2 ^ 32 }
{
    match tree.row(dir) {
        Some(row) => u64::from(row.inodes),
        None => 0,
    }
}

// The nearest top at each directory or above it, found from its parent's nearest top.
fn nearest_tops(alloc: Global, tree: &Tree, is_top: &[bool]) -> Result<Vec<Dir>, AllocError>
    requires { length is_top.now ≡ length tree.now.entries }
    ensures size { IfOk result (λ found. length found.items ≡ length tree.now.entries) }
    ensures above { IfOk result (λ found. (d : ℕ) → slice_index_or found.items d 0 ≤ d) }
    ensures nearest { (tops : List ℕ) → Marks is_top.now tops
        → IfOk result (λ found. (d : ℕ) → d < length tree.now.entries
        → slice_index_or found.items d 0 ≡ top_of tree.now.entries tops d) }
{
    let mut found = vec![in alloc; Dir::ROOT; tree.numbers() as usize]?;
    for number in 0..tree.numbers() {
        let dir = Dir::new(number);
        let above = found[parent(tree, dir).number() as usize];
        let nearest = if is_top[number as usize] { dir } else { above };
        found[number as usize] = nearest;
    }
    Ok(found)
}

// What belongs to each top together, by the tops' numbers.
fn totals(
    alloc: Global,
    tree: &Tree,
    heat: &Heat,
    marks: &[bool],
    tops: &[Dir],
) -> Result<Vec<Total>, AllocError>
    requires heats { tree.now.limit ≤ heat.now.limit }
    requires marks { length marks.now ≡ length tree.now.entries }
    requires tops { length tops.now ≡ length tree.now.entries }
    requires above { (d : ℕ) → slice_index_or tops.now d 0 ≤ d }
    ensures size { IfOk result (λ totals. length totals.items ≡ length tree.now.entries) }
    ensures totals { IfOk result (λ totals. (t : ℕ) → t < length tree.now.entries
        → slice_index_or totals.items t nothing
        ≡ counted tree.now.entries heat.now.heats marks.now tops.now (length tree.now.entries) t) }
{
    let nothing = Total { heat: 0, inodes: 0 };
    let mut totals = vec![in alloc; nothing; tree.numbers() as usize]?;
    for member in 0..tree.numbers() {
        let is_free = marks[member as usize];
        if is_free {
            let dir = Dir::new(member);
            let top = tops[member as usize].number() as usize;
            let before = totals[top];
            totals[top] = before.with(heat.heat(dir), inodes(tree, dir));
        }
    }
    Ok(totals)
}

/// The parts, by the rising numbers of their tops. `is_top[d]` says whether directory d is a top.
///
/// Each pass goes over the numbers once, since a parent's number is smaller than its child's.
pub fn parts(
    alloc: Global,
    tree: &Tree,
    pins: &Pins,
    heat: &Heat,
    is_top: &[bool],
) -> Result<Vec<Part>, AllocError>
    requires pins { tree.now.limit ≤ length pins.now.own }
    requires heats { tree.now.limit ≤ heat.now.limit }
    requires tops { length is_top.now ≡ length tree.now.entries }
    requires root { slice_index_or is_top.now 0 false ≡ true }
    ensures { (tops : List ℕ) → Marks is_top.now tops
        → IfOk result (λ found. found.items ≡ parts tree.now.entries pins.now.own heat.now.heats tops) }
{
    let marks = pins.marks(alloc, tree)?;
    let nearest = nearest_tops(alloc, tree, is_top)?;
    let totals = totals(alloc, tree, heat, &marks, &nearest)?;
    let mut parts = Vec::new(alloc);
    for top in 0..tree.numbers() {
        if marks[top as usize] && is_top[top as usize] {
            let total = totals[top as usize];
            parts.push(Part {
                top: Dir::new(top),
                heat: total.heat,
                inodes: total.inodes,
            })?;
        }
    }
    Ok(parts)
}

/// The heat of the hottest part, or 0 where there is none.
pub fn greatest_heat(parts: &[Part]) -> u64
    ensures { result ≡ greatest parts.now }
{
    let mut greatest = 0;
    for part in parts {
        greatest = part.heat.max(greatest);
    }
    greatest
}
