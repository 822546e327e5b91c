//! What a report and a plan read of the board.
ghost use Rattle.std.specs.Prelude.{◌≡◌, ◌<◌, ◌≤◌, [], IsTrue, OnErr, OnOk, length, slice_index};
ghost use Rattle.std.specs.Prelude.{string_bytes, true};
ghost use Rattle.authority_map.specs.Operations.{rank_after};
ghost use Rattle.dirtree.specs.Path.{path_of};
ghost use Rattle.dirtree.specs.Tree.{is_there};
ghost use Rattle.dir_pins.specs.Pins.{nearest_pin};
ghost use Rattle.heat_ledger.specs.Rows.{at, entry};
ghost use Rattle.mds_board.specs.State.{usable};

use crate::script_board::ScriptBoard;
use authority_map::Publisher;
use mds_board::Board;
use mds_types::{Dir, Kind, Rank, RankSet};
use proof_names::Naming;
use std::alloc::{AllocError, Global};

impl<J: Naming, M: Publisher<J>> ScriptBoard<J, M> {
    /// The board.
    pub fn board(&self) -> &Board<J, M>
        ensures { result.now ≡ self.now.world }
    {
        &self.board
    }

    /// How many directory numbers were given.
    pub fn numbers(&self) -> u32
        ensures count { result ≡ length self.now.world.state.directories.entries }
        ensures some { 1 ≤ result }
    {
        self.board.tree().numbers()
    }

    /// Whether there is such a directory.
    pub fn contains(&self, dir: Dir) -> bool
        ensures there { result ≡ is_there self.now.world.state.directories.entries dir }
        ensures below { IsTrue result → dir < self.now.world.state.directories.limit }
    {
        self.board.tree().contains(dir)
    }

    /// Writes the path of a directory that is there to a text, in place of what it held; the text is empty where
    /// memory is refused.
    pub fn write_path(&self, alloc: Global, dir: Dir, path: &mut String) -> Result<(), AllocError>
        requires { is_there self.now.world.state.directories.entries dir ≡ true }
        ensures path { OnOk result (string_bytes path.new ≡ path_of self.now.world.state.directories.entries dir) }
        ensures empty { OnErr result (string_bytes path.new ≡ []) }
    {
        match self.board.tree().write_path(alloc, dir, path) {
            Ok(()) => Ok(()),
            Err(_) => Err(AllocError),
        }
    }

    /// The pin that holds a directory that is there.
    pub fn pin_of(&self, dir: Dir) -> Option<Rank>
        requires { is_there self.now.world.state.directories.entries dir ≡ true }
        ensures { result ≡ nearest_pin self.now.world.state.directories.entries self.now.world.state.pins.own dir }
    {
        self.board.pin_of(dir)
    }

    /// How many ranks are active.
    pub fn active(&self) -> u8
        ensures { result ≡ self.now.world.state.pins.active }
    {
        self.board.pins().active()
    }

    /// The active ranks that the mask has.
    pub fn usable(&self) -> RankSet
        ensures { result ≡ usable self.now.world.state }
    {
        self.board.usable()
    }

    /// The heat of a directory, in accesses.
    pub fn heat_of(&self, dir: Dir) -> u64
        requires { dir < self.now.world.state.directories.limit }
        ensures { result ≡ slice_index self.now.world.state.heats.heats dir }
    {
        self.board.heat_of(dir)
    }

    /// The hits of a kind on a directory that were deposited.
    pub fn hits_of(&self, dir: Dir, kind: Kind) -> u64
        ensures { result ≡ at self.now.world.state.counted (entry dir kind) }
    {
        self.board.counted(dir, kind)
    }

    /// The rank that a reader of the map finds for a directory.
    pub fn rank_of(&mut self, dir: Dir) -> Option<Rank>
        ensures rank { result ≡ rank_after self.old.world.published dir }
        ensures same { self.new ≡ self.old }
    {
        self.board.find_published(&mut self.reader, dir)
    }
}
