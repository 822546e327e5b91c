//! What reads the dumps of ranks, and that of the file system's map.

use ceph_dumps::{
    DumpError, FileSystemRanks, FragmentHeat, SubtreeRoot, read_cluster, read_loads, read_subtrees,
};
use std::alloc::Global;

/// A reader of dumps.
pub trait DumpReader: Copy {
    ghost use Rattle.std.specs.Prelude.{ℕ, List, IfErr, IfOk};
    ghost use Rattle.ceph_dumps.specs.declared.dump_error.DumpError.{DumpError as TheError};
    ghost use Rattle.mdbal_ceph.specs.Dumps.{DumpKind, DumpValue, Loads, OfLoads, OfRanks, OfRoots, Ranks, Roots};

    // What the bytes of a dump say.
    ghost says: { List ℕ → DumpValue → Type 0 };

    // Why the bytes of such a dump are refused.
    ghost refuses: { DumpKind → List ℕ → TheError → Type 0 };

    /// The ranks of a file system.
    fn cluster(self, alloc: Global, bytes: &[u8]) -> Result<FileSystemRanks, DumpError>
        ensures cluster { IfOk result (λ cluster. says bytes.now (Ranks cluster)) }
        ensures refused { IfErr result (refuses OfRanks bytes.now) };

    /// The roots of the subtrees that a rank knows.
    fn roots(self, alloc: Global, bytes: &[u8]) -> Result<Vec<SubtreeRoot>, DumpError>
        ensures roots { IfOk result (λ roots. says bytes.now (Roots roots.items)) }
        ensures refused { IfErr result (refuses OfRoots bytes.now) };

    /// The heat of each directory fragment that a rank names.
    fn loads(self, alloc: Global, bytes: &[u8]) -> Result<Vec<FragmentHeat>, DumpError>
        ensures loads { IfOk result (λ loads. says bytes.now (Loads loads.items)) }
        ensures refused { IfErr result (refuses OfLoads bytes.now) };
}

/// The reader of what Ceph writes.
#[derive(Clone, Copy)]
pub struct CephDumps;

impl DumpReader for CephDumps {
    ghost use Rattle.mdbal_ceph.specs.Dumps.{IsNoDump, IsReadAs};

    ghost says = { IsReadAs };

    ghost refuses = { IsNoDump };

    fn cluster(self, alloc: Global, bytes: &[u8]) -> Result<FileSystemRanks, DumpError> {
        read_cluster(alloc, bytes)
    }

    fn roots(self, alloc: Global, bytes: &[u8]) -> Result<Vec<SubtreeRoot>, DumpError> {
        read_subtrees(alloc, bytes)
    }

    fn loads(self, alloc: Global, bytes: &[u8]) -> Result<Vec<FragmentHeat>, DumpError> {
        read_loads(alloc, bytes)
    }
}
