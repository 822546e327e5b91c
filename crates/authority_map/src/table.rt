//! One copy of the map: runs of neighbouring directories with the same rank, or with none.
ghost use Rattle.std.specs.Prelude.{◌≡◌, ◌<◌, ◌≤◌, [], ◌∷◌, ◌++◌, All, IsTrue, ◌↔◌, IfOk};
ghost use Rattle.authority_map.specs.Operations.{rank_after};
ghost use Rattle.authority_map.specs.Cells.{AreCells};
ghost use Rattle.authority_map.specs.Runs.{IsRunTable, HasRunRoom};

use crate::history::LogPrefix;
use crate::operation::MapOperation;
use crate::queue::Logged;
use crate::rewriting::write_all;
use crate::runs::{BLOCK, Runs, indexed_run_of};
use left_right::Absorb;
use mds_types::{Dir, Rank};
use proof_names::Naming;
use std::alloc::{AllocError, Global};

#[derive(Drop)]
pub struct Table<J: Naming> {
    limit: u32,
    runs: Runs,
    // Room in which runs are made anew. What it holds doesn't matter.
    spare: Runs,
    // The run of each block's first directory.
    index: Vec<u32>,
    pub prefix: LogPrefix<J>,
    ghost table: { IsRunTable limit runs index.items },
    ghost kept: { AreCells limit runs prefix },
    ghost spared: { HasRunRoom limit spare },
    ghost sized: { limit ≡ J.limit },
}

fn are_below(dirs: &[Dir], limit: u32) -> bool
    ensures { IsTrue result ↔ All (λ d. d < limit) dirs.now }
{
    dirs.iter().all(|dir| dir.number() < limit)
}

impl<J: Naming> Table<J> {
    /// No directory has a rank. There is room for a run for each directory.
    pub fn new(alloc: Global, limit: u32, prefix: LogPrefix<J>) -> Result<Table<J>, AllocError>
        requires prefix { prefix ≡ [] }
        requires limit { (limit ≡ J.limit) × (1 ≤ limit) }
        ensures { IfOk result (λ t. t.prefix ≡ []) }
    {
        let mut runs = Runs::new(alloc, limit)?;
        let spare = Runs::new(alloc, limit)?;
        let index = vec![in alloc; 0u32; limit as usize / BLOCK + 2]?;
        runs.starts.push_reserved(0);
        runs.cells.push_reserved(0);
        Ok(Table {
            limit,
            runs,
            spare,
            index,
            prefix,
        })
    }

    /// The same map in memory of its own.
    pub fn copied(&self, alloc: Global) -> Result<Table<J>, AllocError>
        ensures { IfOk result (λ t. t.prefix ≡ self.now.prefix) }
    {
        let runs = self.runs.copied(alloc, self.limit)?;
        let spare = Runs::new(alloc, self.limit)?;
        let index = self.index.clone()?;
        Ok(Table {
            limit: self.limit,
            runs,
            spare,
            index,
            prefix: self.prefix.copied(),
        })
    }

    pub fn rank_of(&self, dir: Dir) -> Option<Rank>
        ensures { result ≡ rank_after self.now.prefix dir }
    {
        if dir.number() >= self.limit {
            return None;
        }
        let run = indexed_run_of(&self.runs.starts, &self.index, self.limit, dir.number());
        let cell = self.runs.cells[run];
        if cell == 0 { None } else { Rank::new(cell - 1) }
    }
}

impl<J: Naming> Absorb<Logged<J>> for Table<J> {
    // A clause reads an array as a list, of any length.
    type State = [MapOperation; 0];

    ghost state = { λ t. t.prefix };

    ghost applied = { λ xs x. xs ++ x.operation ∷ [] };

    fn absorb_first(&mut self, entry: &Logged<J>, _other: &Table<J>) -> Result<(), AllocError> {
        let (dirs, cell) = entry.operation.written();
        if !entry.before.is_same(&self.prefix) || !are_below(dirs, self.limit) {
            return Err(AllocError);
        }
        write_all(
            &mut self.runs,
            &mut self.spare,
            &mut self.index,
            self.limit,
            dirs,
            cell,
        );
        self.prefix = entry.after.copied();
        Ok(())
    }
}
