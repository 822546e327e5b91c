//! What an exporter is asked to give to another rank.

use crate::dirs::Dirs;
use crate::rank::Rank;
use std::alloc::{AllocError, Global};

/// One move: directories of one rank that are to go to another.
#[derive(Debug, PartialEq, Drop)]
pub struct Order {
    /// The rank that has the directories.
    pub from: Rank,
    /// The rank that is to have them.
    pub to: Rank,
    /// The directories, each once.
    pub dirs: Dirs,
}

impl Order {
    ghost use Rattle.std.specs.Prelude.{◌≡◌, IfOk};

    /// An equal order.
    pub fn copied(&self, alloc: Global) -> Result<Self, AllocError>
        ensures { IfOk result (λ copy. copy ≡ self.now) }
    {
        Ok(Order {
            from: self.from,
            to: self.to,
            dirs: self.dirs.copied(alloc)?,
        })
    }
}
