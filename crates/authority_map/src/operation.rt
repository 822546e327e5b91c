//! One operation, as it is kept in memory.
ghost use Rattle.std.specs.Prelude.{◌≡◌, ◌≤◌, ℕ, List, ◌++◌, ◌∷◌, [], if◌then◌else◌};
ghost use Rattle.authority_map.specs.Operations.{Operation, names, rank_after};
ghost use Rattle.authority_map.specs.Cells.{cell_of};

use mds_types::{Dir, Rank};
use std::marker::Model;
use std::slice;

/// What is done to the map.
#[derive(Drop)]
pub enum OperationKind {
    /// Give the directories the rank.
    Set(Vec<Dir>, Rank),
    /// Give one directory the rank, without a list of one.
    SetOne(Dir, Rank),
    /// Take the directory's rank away.
    Clear(Dir),
}

/// An operation. A contract sees it without the room of its vector.
#[derive(Drop)]
pub struct MapOperation {
    pub kind: OperationKind,
}

impl Model for MapOperation {
    ghost use Rattle.authority_map.specs.Operations.{Operation};
    ghost use Rattle.authority_map.specs.LogEntries.{operation_of};

    ghost Value = { Operation };

    ghost view = { λ operation. operation_of operation.kind };
}

impl MapOperation {
    /// The directories whose cells it writes, and what it writes there.
    pub fn written(&self) -> (&[Dir], u8)
        ensures small { result.1 ≤ 64 }
        ensures cells { (before : List Operation) (d : ℕ) → cell_of (rank_after (before ++ self.now ∷ []) d)
            ≡ (if names result.0.now d then result.1 else cell_of (rank_after before d)) }
    {
        match &self.kind {
            OperationKind::Set(dirs, rank) => (dirs.as_slice(), rank.number() + 1),
            OperationKind::SetOne(dir, rank) => (slice::from_ref(dir), rank.number() + 1),
            OperationKind::Clear(dir) => (slice::from_ref(dir), 0),
        }
    }
}
