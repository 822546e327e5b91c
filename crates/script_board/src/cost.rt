//! The command `cost`: the heat and the inodes of each part of a division.
ghost use Rattle.std.specs.Prelude.{◌≡◌, ◌<◌, ◌≤◌, ℕ, List, IfErr, IfOk, IsOk, OnOk, Ok, Err, length, map};
ghost use Rattle.tree_parts.specs.Parts.{Marks};
ghost use Rattle.script_board.specs.Cost.{AreThere, cost, top, tops};
ghost use Rattle.script_board.specs.Fault.{IsDue};

use crate::fault::Fault;
use crate::script_board::ScriptBoard;
use authority_map::Publisher;
use mds_types::Dir;
use proof_names::Naming;
use std::alloc::Global;
use tree_parts::{Part, parts};

impl<J: Naming, M: Publisher<J>> ScriptBoard<J, M> {
    /// The parts of the division at these tops. The root is a top too.
    pub fn cost(&self, alloc: Global, paths: &[&str]) -> Result<Vec<Part>, Fault>
        ensures done { IfOk result (λ parts. cost self.now (map (λ path. path.now) paths.now) ≡ Ok parts.items) }
        ensures there { IfOk result (λ parts. AreThere self.now parts.items) }
        ensures fault { IfErr result (IsDue (cost self.now (map (λ path. path.now) paths.now))) }
    {
        let is_top = self.tops(alloc, paths)?;
        let _limit = self.board.limit();
        let parts = parts(
            alloc,
            self.board.tree(),
            self.board.pins(),
            self.board.heat(),
            &is_top,
        )?;
        Ok(parts)
    }

    // The directory that a path names, which no pin may hold.
    fn top(&self, path: &str) -> Result<Dir, Fault>
        ensures top { result ≡ top self.now path.now }
        ensures inside { IfOk result (λ dir. dir < length self.now.world.state.directories.entries) }
    {
        let dir = self.find(path)?;
        match self.pin_of(dir) {
            None => Ok(dir),
            Some(_) => Err(Fault::Pinned),
        }
    }

    // Whether each path names a top. The first that doesn't says why.
    fn check_tops(&self, paths: &[&str]) -> Result<(), Fault>
        ensures ok { OnOk result (IsOk (tops self.now (map (λ path. path.now) paths.now))) }
        ensures fault { IfErr result (λ fault. tops self.now (map (λ path. path.now) paths.now) ≡ Err fault) }
    {
        for path in paths {
            self.top(path)?;
        }
        Ok(())
    }

    // For each number, whether it is a top. Memory is asked for first, and where it is refused, the paths are looked
    // at all the same.
    fn tops(&self, alloc: Global, paths: &[&str]) -> Result<Vec<bool>, Fault>
        ensures size { IfOk result (λ is_top. length is_top.items ≡ length self.now.world.state.directories.entries) }
        ensures some { IfOk result (λ is_top. 1 ≤ length is_top.items) }
        ensures tops { IfOk result (λ is_top. (ts : List ℕ)
            × (tops self.now (map (λ path. path.now) paths.now) ≡ Ok ts) × Marks is_top.items ts) }
        ensures fault { IfErr result (IsDue (tops self.now (map (λ path. path.now) paths.now))) }
    {
        let Ok(mut is_top) = vec![in alloc; false; self.numbers() as usize] else {
            self.check_tops(paths)?;
            return Err(Fault::Memory);
        };
        is_top[0] = true;
        for path in paths {
            let dir = self.top(path)?;
            is_top[dir.number() as usize] = true;
        }
        Ok(is_top)
    }
}
