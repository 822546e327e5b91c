//! The commands that change the board.
ghost use Rattle.std.specs.Prelude.{◌≡◌, ◌<◌, IfErr, IfOk, OnErr, OnOk, Ok, Err, true};
ghost use Rattle.dirtree.specs.Tree.{is_there};
ghost use Rattle.script_board.specs.Commands.{fail, find, load, make_dir, parent_path, remove_dir, replanned};
ghost use Rattle.script_board.specs.Commands.{restart, set_mask, set_pin, set_weights, stop, tick};
ghost use Rattle.script_board.specs.Fault.{IsDue};

use crate::fault::Fault;
use crate::load::Load;
use crate::looks::has_rank;
use crate::script_board::ScriptBoard;
use authority_map::Publisher;
use dirtree::TreeError;
use export_protocol::{Event, StepError};
use mds_board::{BoardError, Change};
use mds_types::{Dir, Kind, Rank, RankSet};
use proof_names::Naming;
use rank_threads::RankStop;
use std::alloc::Global;

impl<J: Naming, M: Publisher<J>> ScriptBoard<J, M> {
    /// The directory that a path names.
    pub fn find(&self, path: &str) -> Result<Dir, Fault>
        ensures dir { result ≡ find self.now path.now }
        ensures below { IfOk result (λ dir. dir < self.now.world.state.directories.limit) }
        ensures there { IfOk result (λ dir. is_there self.now.world.state.directories.entries dir ≡ true) }
    {
        match self.shortcuts.guesses.find(self.board.tree(), path) {
            Ok(dir) => Ok(dir),
            Err(e) => Err(Fault::from(e)),
        }
    }

    /// Makes the directory that a path names: all before its last slash is the parent's path.
    pub fn make_dir(&mut self, alloc: Global, path: &str, inodes: u32) -> Result<(), Fault>
        ensures done { OnOk result (make_dir self.old path.now inodes ≡ Ok self.new) }
        ensures fault { IfErr result (IsDue (make_dir self.old path.now inodes)) }
        ensures unchanged { OnErr result (self.new ≡ self.old) }
    {
        let Some((above, name)) = path.rsplit_once('/') else {
            return Err(Fault::from(TreeError::BadName));
        };
        let parent = self.parent(above)?;
        self.make_child(alloc, path, parent, name, inodes)
    }

    fn parent(&self, above: &str) -> Result<Dir, Fault>
        ensures { result ≡ find self.now (parent_path above.now) }
    {
        if above.is_empty() {
            return Ok(Dir::ROOT);
        }
        self.find(above)
    }

    // Makes the child of this name, and gives the guesses its path, unless that is one name.
    fn make_child(
        &mut self,
        alloc: Global,
        path: &str,
        parent: Dir,
        name: &str,
        inodes: u32,
    ) -> Result<(), Fault>
        ensures done { OnOk result (replanned self.old (Change.Make parent name.now inodes) ≡ Ok self.new) }
        ensures fault { IfErr result (IsDue (replanned self.old (Change.Make parent name.now inodes))) }
        ensures unchanged { OnErr result (self.new ≡ self.old) }
    {
        let dir = self.board.make(alloc, parent, name, inodes)?;
        self.kept.clear();
        if parent != Dir::ROOT {
            self.shortcuts.guesses.tell(path, dir);
        }
        Ok(())
    }

    /// Removes a directory that has no child. Requests that wait for it are served no more.
    pub fn remove_dir(&mut self, path: &str) -> Result<(), Fault>
        ensures done { OnOk result (remove_dir self.old path.now ≡ Ok self.new) }
        ensures fault { IfErr result (IsDue (remove_dir self.old path.now)) }
        ensures unchanged { OnErr result (self.new ≡ self.old) }
    {
        let dir = self.find(path)?;
        self.board.remove(dir)?;
        self.kept.clear();
        Ok(())
    }

    /// Pins a directory, or takes its own pin away.
    pub fn set_pin(&mut self, path: &str, pin: i32) -> Result<(), Fault>
        ensures done { OnOk result (set_pin self.old path.now pin ≡ Ok self.new) }
        ensures fault { IfErr result (IsDue (set_pin self.old path.now pin)) }
        ensures unchanged { OnErr result (self.new ≡ self.old) }
    {
        let dir = self.find(path)?;
        self.board.set_pin(dir, pin)?;
        self.kept.clear();
        Ok(())
    }

    /// Says which ranks the balancer may use.
    pub fn set_mask(&mut self, text: &str) -> Result<(), Fault>
        ensures done { OnOk result (set_mask self.old text.now ≡ Ok self.new) }
        ensures fault { IfErr result (IsDue (set_mask self.old text.now)) }
        ensures unchanged { OnErr result (self.new ≡ self.old) }
    {
        let Ok(mask) = RankSet::parse(text) else {
            return Err(Fault::Mask);
        };
        self.board.set_mask(mask)?;
        self.kept.clear();
        Ok(())
    }

    /// Lets a request wait.
    pub fn load(&mut self, path: &str, hits: u32, kind: Kind) -> Result<(), Fault>
        ensures done { OnOk result (load self.old path.now hits kind ≡ Ok self.new) }
        ensures fault { IfErr result (IsDue (load self.old path.now hits kind)) }
        ensures unchanged { OnErr result (self.new ≡ self.old) }
    {
        let dir = self.find(path)?;
        self.loads.push(Load { dir, hits, kind })?;
        Ok(())
    }

    /// Says how much a read and a write count in deposits from now on. The heat of earlier deposits stays.
    pub fn set_weights(&mut self, read: u8, write: u8) -> Result<(), Fault>
        ensures done { OnOk result (set_weights self.old read write ≡ Ok self.new) }
        ensures fault { IfErr result (IsDue (set_weights self.old read write)) }
        ensures unchanged { OnErr result (self.new ≡ self.old) }
    {
        self.board.set_weights(read, write)?;
        Ok(())
    }

    /// Halves all heats.
    pub fn tick(&mut self) -> Result<(), Fault>
        ensures done { OnOk result (tick self.old ≡ Ok self.new) }
        ensures fault { IfErr result (IsDue (tick self.old)) }
        ensures unchanged { OnErr result (self.new ≡ self.old) }
    {
        self.board.tick()?;
        Ok(())
    }

    /// A rank stops: it serves no request and takes no message until it restarts.
    pub fn stop(&mut self, alloc: Global, rank: Rank) -> Result<(), Fault>
        ensures done { OnOk result (stop self.old rank ≡ Ok self.new) }
        ensures fault { IfErr result (IsDue (stop self.old rank)) }
        ensures unchanged { OnErr result (self.new ≡ self.old) }
    {
        self.board.step(alloc, Event::Stop(rank))?;
        Ok(())
    }

    /// An active rank stops before a round of the next `move` or `traffic`.
    pub fn fail(&mut self, rank: Rank, round: u8) -> Result<(), Fault>
        ensures done { OnOk result (fail self.old rank round ≡ Ok self.new) }
        ensures fault { IfErr result (IsDue (fail self.old rank round)) }
        ensures unchanged { OnErr result (self.new ≡ self.old) }
    {
        if !has_rank(&self.board, rank) {
            return Err(Fault::from(BoardError::Step(StepError::NoRank)));
        }
        let round = u64::from(round);
        self.stops.push(RankStop { rank, round })?;
        Ok(())
    }

    /// A rank runs again, with only the state of its journal.
    pub fn restart(&mut self, alloc: Global, rank: Rank) -> Result<(), Fault>
        ensures done { OnOk result (restart self.old rank ≡ Ok self.new) }
        ensures fault { IfErr result (IsDue (restart self.old rank)) }
        ensures unchanged { OnErr result (self.new ≡ self.old) }
    {
        self.board.step(alloc, Event::Restart(rank))?;
        Ok(())
    }
}
