//! The pins that were set, by the numbers of the directories.
ghost use Rattle.std.specs.Prelude.{◌≡◌, ℕ, ◌+◌, ◌<◌, ◌≤◌, Some, None, Ok, Err, length, map, true, false, negsuc};
ghost use Rattle.std.specs.Prelude.{◌≢◌, IsOk, IfOk, IfErr, IfSome, OnOk, OnErr, slice_set, slice_index_or, is_some};
ghost use Rattle.dirtree.specs.Tree.{is_there};

use crate::pin_error::PinError;
use dirtree::Tree;
use mds_types::{Dir, Rank};
use std::alloc::{AllocError, Global};
use std::marker::Model;

/// The pins of a tree's directories on active ranks.
#[derive(Drop)]
pub struct Pins {
    active: u8,
    own: Vec<Option<Rank>>,
}

impl Model for Pins {
    ghost use Rattle.std.specs.Prelude.{◌≤◌, length};
    ghost use Rattle.dir_pins.specs.Pins.{AreActive, PinTable};

    ghost Value = { PinTable };

    ghost view = { λ pins. record { limit = length pins.own.items; active = pins.active; own = pins.own.items } };

    ghost invariant = { λ pins. (pins.active ≤ 64) × (length pins.own.items ≤ 65536)
        × AreActive pins.active pins.own.items };
}

impl Pins {
    ghost use Rattle.dir_pins.specs.Pins.{AreActive, below, is_pin, is_unpinned, no_pins, pin_refusal};
    ghost use Rattle.dir_pins.specs.Pins.{pin_value, nearest_pin, unpinned, with_pin};

    /// No pin, with room for the numbers below `limit`, and the ranks below `active` to pin on.
    pub fn new(alloc: Global, limit: u32, active: u8) -> Result<Pins, AllocError>
        requires low { 1 ≤ limit }
        requires high { limit ≤ 65536 }
        requires some { 1 ≤ active }
        requires few { active ≤ 64 }
        ensures { IfOk result (λ pins. pins ≡ no_pins limit active) }
    {
        let own = vec![in alloc; None; limit as usize]?;
        Ok(Pins { active, own })
    }

    /// How many ranks are active: those below this number.
    pub fn active(&self) -> u8
        ensures active { result ≡ self.now.active }
        ensures few { result ≤ 64 }
        ensures held { AreActive self.now.active self.now.own }
    {
        let _ = &self.own;
        self.active
    }

    /// How many directories there is room for: the pins of those below this number.
    pub fn limit(&self) -> u32
        ensures limit { result ≡ self.now.limit }
        ensures size { length self.now.own ≡ self.now.limit }
        ensures small { result ≤ 65536 }
    {
        self.own.len() as u32
    }

    /// What `set` would refuse.
    pub fn can_set(&self, tree: &Tree, dir: Dir, pin: i32) -> Result<(), PinError>
        ensures refused { IfErr result (λ e. pin_refusal self.now.active tree.now.entries dir pin ≡ Some e) }
        ensures allowed { OnOk result (pin_refusal self.now.active tree.now.entries dir pin ≡ None) }
    {
        self.pinned(tree, dir, pin)?;
        Ok(())
    }

    /// The own pin that a value gives a directory.
    fn pinned(&self, tree: &Tree, dir: Dir, pin: i32) -> Result<Option<Rank>, PinError>
        ensures pin { IfOk result (λ own. own ≡ pin_value pin) }
        ensures active { IfOk result (λ own. IfSome own (λ rank. rank < self.now.active)) }
        ensures below { OnOk result (dir < tree.now.limit) }
        ensures refused { IfErr result (λ e. pin_refusal self.now.active tree.now.entries dir pin ≡ Some e) }
        ensures allowed { OnOk result (pin_refusal self.now.active tree.now.entries dir pin ≡ None) }
    {
        if !tree.contains(dir) {
            return Err(PinError::NoDir);
        }
        if pin == -1 {
            return Ok(None);
        }
        Ok(Some(self.active_rank(pin)?))
    }

    /// Pins a directory on a rank, or takes its own pin away where the value is -1. It takes no memory.
    pub fn set(&mut self, tree: &Tree, dir: Dir, pin: i32) -> Result<(), PinError>
        requires { tree.now.limit ≤ length self.old.own }
        ensures set { OnOk result (self.new ≡ with_pin self.old dir pin) }
        ensures unchanged { OnErr result (self.new ≡ self.old) }
        ensures refused { IfErr result (λ e. pin_refusal self.old.active tree.now.entries dir pin ≡ Some e) }
        ensures allowed { OnOk result (pin_refusal self.old.active tree.now.entries dir pin ≡ None) }
    {
        let own = self.pinned(tree, dir, pin)?;
        self.own[dir.number() as usize] = own;
        Ok(())
    }

    /// The active rank that a value names.
    fn active_rank(&self, pin: i32) -> Result<Rank, PinError>
        requires { pin ≢ negsuc 0 }
        ensures rank { IfOk result (λ rank. pin_value pin ≡ Some rank) }
        ensures below { IfOk result (λ rank. rank < self.now.active) }
        ensures active { OnOk result (is_pin self.now.active pin ≡ true) }
        ensures refused { IfErr result (λ e. (is_pin self.now.active pin ≡ false) × (e ≡ PinError.NoRank)) }
    {
        match u8::try_from(pin) {
            Ok(number) if number < self.active => match Rank::new(number) {
                Some(rank) => Ok(rank),
                None => unreachable!(),
            },
            _ => Err(PinError::NoRank),
        }
    }

    /// The pin that holds a directory: its own, or that of the nearest directory above it that has one.
    pub fn pin_of(&self, tree: &Tree, dir: Dir) -> Result<Option<Rank>, PinError>
        requires { tree.now.limit ≤ length self.now.own }
        ensures pin { IfOk result (λ pin. pin ≡ nearest_pin tree.now.entries self.now.own dir) }
        ensures gone { is_there tree.now.entries dir ≡ false → result ≡ Err PinError.NoDir }
        ensures there { is_there tree.now.entries dir ≡ true → IsOk result }
    {
        let mut at = dir;
        loop {
            let Some(row) = tree.row(at) else {
                return Err(PinError::NoDir);
            };
            if let Some(rank) = self.own[at.number() as usize] {
                return Ok(Some(rank));
            }
            if at == Dir::ROOT {
                return Ok(None);
            }
            at = row.parent;
        }
    }

    /// Whether a directory is there and no pin holds it, where that is known of all with smaller numbers.
    pub fn is_unpinned(&self, tree: &Tree, known: &[bool], dir: Dir) -> bool
        requires room { tree.now.limit ≤ length self.now.own }
        requires size { length known.now ≡ length tree.now.entries }
        requires inside { dir < length tree.now.entries }
        requires below { (d : ℕ) → d < dir → slice_index_or known.now d false
            ≡ is_unpinned tree.now.entries self.now.own d }
        ensures { result ≡ is_unpinned tree.now.entries self.now.own dir }
    {
        let Some(row) = tree.row(dir) else {
            return false;
        };
        if self.own[dir.number() as usize].is_some() {
            return false;
        }
        dir == Dir::ROOT || known[row.parent.number() as usize]
    }

    /// For each number, whether its directory is there and no pin holds it: one
    /// pass, since a parent's number is smaller.
    pub fn marks(&self, alloc: Global, tree: &Tree) -> Result<Vec<bool>, AllocError>
        requires { tree.now.limit ≤ length self.now.own }
        ensures size { IfOk result (λ marks. length marks.items ≡ length tree.now.entries) }
        ensures unpinned { IfOk result (λ marks. (d : ℕ) → d < length tree.now.entries
            → slice_index_or marks.items d false ≡ is_unpinned tree.now.entries self.now.own d) }
    {
        let mut known = vec![in alloc; false; tree.numbers() as usize]?;
        for number in 0..tree.numbers() {
            let is_free = self.is_unpinned(tree, &known, Dir::new(number));
            known[number as usize] = is_free;
        }
        Ok(known)
    }

    /// The pin that holds a directory, where that is known of all with smaller numbers. A number without a directory
    /// counts as one of the root's children.
    fn held_by(&self, tree: &Tree, known: &[Option<Rank>], dir: Dir) -> Option<Rank>
        requires room { dir < length self.now.own }
        requires known { known.now ≡ map (nearest_pin tree.now.entries self.now.own) (below dir) }
        ensures { result ≡ nearest_pin tree.now.entries self.now.own dir }
    {
        let above = match tree.row(dir) {
            Some(row) => row.parent,
            None => Dir::ROOT,
        };
        if let Some(rank) = self.own[dir.number() as usize] {
            return Some(rank);
        }
        if dir == Dir::ROOT {
            return None;
        }
        known[above.number() as usize]
    }

    /// The pin that holds each directory, by its number: one pass, since a parent's number is smaller.
    pub fn nearest(&self, alloc: Global, tree: &Tree) -> Result<Vec<Option<Rank>>, AllocError>
        requires { tree.now.limit ≤ length self.now.own }
        ensures { IfOk result (λ pins. pins.items
            ≡ map (nearest_pin tree.now.entries self.now.own) (below (length tree.now.entries))) }
    {
        let mut known = Vec::with_capacity(alloc, tree.numbers() as usize)?;
        for number in 0..tree.numbers() {
            let pin = self.held_by(tree, &known, Dir::new(number));
            known.push(pin)?;
        }
        Ok(known)
    }

    /// The directories that no pin holds, by rising numbers.
    pub fn unpinned(&self, alloc: Global, tree: &Tree) -> Result<Vec<Dir>, AllocError>
        requires { tree.now.limit ≤ length self.now.own }
        ensures { IfOk result (λ dirs. dirs.items ≡ unpinned tree.now.entries self.now.own) }
    {
        let marks = self.marks(alloc, tree)?;
        let mut dirs = Vec::new(alloc);
        for number in 0..tree.numbers() {
            if marks[number as usize] {
                dirs.push(Dir::new(number))?;
            }
        }
        Ok(dirs)
    }
}
