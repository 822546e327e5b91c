//! The directories of a board as they were, from its history.
ghost use Rattle.std.specs.Prelude.{◌≡◌, ◌≤◌, ◌++◌, ◌∷◌, [], IfOk, None, OnOk, length, true};
ghost use Rattle.board_certificates.specs.Certificates.{row_name, row_names};
ghost use Rattle.board_certificates.specs.Replayed.{IsNext, IsReplayed, made_names};
ghost use Rattle.mds_board.specs.State.{State, next, refusal, start};
ghost use Rattle.dir_pins.specs.Pins.{pin_refusal, with_pin};
ghost use Rattle.plan_text.specs.RowNames.{IsRowName};
ghost use Rattle.dirtree.specs.Tree.{is_there, remove_refusal, with_child, without};

use dir_pins::Pins;
use dirtree::Tree;
use mds_board::Change;
use mds_types::Dir;
use plan_text::RowNames;
use std::alloc::{AllocError, Global};

/// The tree and the pins after some entries of a history.
#[derive(Drop)]
pub struct Replay<'h> {
    /// The directories.
    pub tree: Tree,
    /// The export pins.
    pub pins: Pins,
    /// The name that each directory was made with, by its number, and `/` for the root.
    pub names: Vec<&'h str>,
}

impl<'h> Replay<'h> {
    /// The root only, without a pin.
    pub fn new(alloc: Global, limit: u32, active: u8) -> Result<Replay<'h>, AllocError>
        requires some { 1 ≤ limit }
        requires few { limit ≤ 65536 }
        requires few_ranks { active ≤ 64 }
        ensures { IfOk result (IsReplayed (start limit active)) }
    {
        let tree = Tree::new(alloc, limit)?;
        let pins = Pins::new(alloc, limit, at_least_one(active))?;
        let mut names = Vec::new(alloc);
        names.push("/")?;
        Ok(Replay { tree, pins, names })
    }

    /// Makes a change, as the history says.
    pub fn change(&mut self, alloc: Global, change: &'h Change) -> Result<(), AllocError>
        requires { IsNext self.old change.now }
        ensures { OnOk result ((s : State) → IsReplayed s self.old → refusal s change.now ≡ None
            → IsReplayed (next s change.now) self.new) }
    {
        match change {
            Change::Make(parent, name, inodes) => {
                self.make(alloc, *parent, name.as_str(), *inodes)
            }
            Change::Remove(dir) => {
                self.remove(*dir);
                Ok(())
            }
            Change::Pin(dir, pin) => {
                self.pin(*dir, *pin);
                Ok(())
            }
            _ => Ok(()),
        }
    }

    fn make(
        &mut self,
        alloc: Global,
        parent: Dir,
        name: &'h str,
        inodes: u32,
    ) -> Result<(), AllocError>
        ensures tree { OnOk result (self.new.tree ≡ with_child self.old.tree parent name.now inodes) }
        ensures pins { OnOk result (self.new.pins ≡ self.old.pins) }
        ensures names { OnOk result (made_names self.new ≡ made_names self.old ++ name.now ∷ []) }
    {
        self.names.push(name)?;
        match self.tree.make(alloc, parent, name, inodes) {
            Ok(_) => Ok(()),
            Err(_) => Err(AllocError),
        }
    }

    fn remove(&mut self, dir: Dir)
        requires { remove_refusal self.old.tree dir ≡ None }
        ensures { self.new ≡ record self.old { tree = without self.old.tree dir } }
    {
        match self.tree.remove(dir) {
            Ok(()) => {}
            Err(_) => unreachable!(),
        }
    }

    fn pin(&mut self, dir: Dir, pin: i32)
        requires room { self.old.tree.limit ≤ length self.old.pins.own }
        requires free { pin_refusal self.old.pins.active self.old.tree.entries dir pin ≡ None }
        ensures { self.new ≡ record self.old { pins = with_pin self.old.pins dir pin } }
    {
        match self.pins.set(&self.tree, dir, pin) {
            Ok(()) => {}
            Err(_) => unreachable!(),
        }
    }

    /// The names of the rows of the problem that is opened now.
    pub fn row_names(&self, alloc: Global) -> Result<RowNames, AllocError>
        requires { (s : State) × IsReplayed s self.now }
        ensures { IfOk result (λ names. (s : State) → IsReplayed s self.now → names ≡ row_names s) }
    {
        let mut names = RowNames::new(alloc);
        let dirs = self.pins.unpinned(alloc, &self.tree)?;
        for dir in dirs.as_slice() {
            names.push(alloc, self.name(*dir))?;
        }
        Ok(names)
    }

    /// The name of the row whose directory is this one.
    fn name(&self, dir: Dir) -> &'h str
        requires replayed { (s : State) × IsReplayed s self.now }
        requires there { is_there self.now.tree.entries dir ≡ true }
        ensures name { result.now ≡ row_name self.now.tree.entries dir }
        ensures is_name { IsRowName result.now }
    {
        let _tree = self.tree.numbers();
        self.names[dir.number() as usize]
    }
}

// A board has a rank. Where there is none, there is room for one.
fn at_least_one(active: u8) -> u8
    requires { active ≤ 64 }
    ensures some { 1 ≤ result }
    ensures enough { active ≤ result }
    ensures few { result ≤ 64 }
{
    if active == 0 { 1 } else { active }
}
