//! The command `stat`: the directories of the report.
ghost use Rattle.std.specs.Prelude.{◌≡◌, ◌<◌, All, IfOk, true};
ghost use Rattle.dirtree.specs.Tree.{is_there};
ghost use Rattle.script_board.specs.Stat.{directories};

use crate::script_board::ScriptBoard;
use authority_map::Publisher;
use mds_types::Dir;
use proof_names::Naming;
use std::alloc::{AllocError, Global};

impl<J: Naming, M: Publisher<J>> ScriptBoard<J, M> {
    /// The directories, by rising numbers.
    pub fn directories(&self, alloc: Global) -> Result<Vec<Dir>, AllocError>
        ensures dirs { IfOk result (λ dirs. dirs.items ≡ directories self.now.world.state.directories.entries) }
        ensures there { IfOk result (λ dirs. All (λ dir. is_there self.now.world.state.directories.entries dir ≡ true)
            dirs.items) }
        ensures below { IfOk result (λ dirs. All (λ dir. dir < self.now.world.state.directories.limit) dirs.items) }
    {
        let mut dirs = Vec::new(alloc);
        for number in 0..self.numbers() {
            let dir = Dir::new(number);
            if self.contains(dir) {
                dirs.push(dir)?;
            }
        }
        Ok(dirs)
    }
}
