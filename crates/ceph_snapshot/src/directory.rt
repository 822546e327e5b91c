//! A directory of a live CephFS.

ghost use Rattle.std.specs.Prelude.{◌≡◌, ◌<◌, ◌||◌, ℕ, length, slice_index, IfOk};
ghost use Rattle.ceph_snapshot.specs.Holding.{heat_at};

use ceph_dumps::EphemeralPin;
use mds_types::Rank;
use std::alloc::{AllocError, Global};

/// A directory of a live CephFS, as its dumps show it.
#[derive(Drop)]
pub struct Directory {
    /// Its path: empty for the root, else it begins with a slash.
    pub path: Vec<u8>,
    /// Its inode number: the one that dumps of heat named last, or else the one that was listed over a mount.
    pub inode: Option<u64>,
    /// The place of its parent, which is a smaller one; the root, at place 0, names itself.
    pub parent: u32,
    /// Its own heat, without what is below, in thousandths.
    pub heat: u64,
    /// What of its heat comes from writes, before weighing, in thousandths.
    pub writes: u64,
    /// Its files and directories, at least 1.
    pub inodes: u64,
    /// The rank that has it; where it lies at several ranks, the one that has most of its heat.
    pub now: Rank,
    /// A pin of its own that this program didn't set, to a rank that is in the file system.
    pub pin: Option<Rank>,
    /// A pin of its own that this program didn't set, to a rank that isn't in the file system.
    pub idle: Option<u64>,
    /// A pin of its own that this program set before, whether or not its rank is in the file system.
    pub earlier: Option<Rank>,
    /// Its own policy, by which Ceph pins what is below it.
    pub policy: Option<EphemeralPin>,
    /// Whether numbers were listed and it has none there, or dumps of heat name another one for its path.
    pub is_doubtful: bool,
    /// Whether it may not be pinned: it has a policy or an idle pin, it is doubtful, or a pin on it would beat a random
    /// policy below.
    pub is_kept: bool,
    /// Whether it lies at several ranks, or Ceph itself spreads what is below.
    pub is_spread: bool,
}

impl Directory {
    /// Whether it stays where it lies: it is spread, or may not be pinned.
    pub fn is_fixed(&self) -> bool
        ensures { result ≡ (self.entry.now.is_spread || self.entry.now.is_kept) }
    {
        self.is_spread || self.is_kept
    }
}

/// The heat of each directory.
pub fn own_heats(alloc: Global, directories: &[Directory]) -> Result<Vec<u64>, AllocError>
    ensures size { IfOk result (λ heats. length heats.items ≡ length directories.now) }
    ensures heats { IfOk result (λ heats. (i : ℕ) → i < length directories.now
        → slice_index heats.items i ≡ heat_at directories.now i) }
{
    let mut heats = Vec::with_capacity(alloc, directories.len())?;
    for directory in directories {
        heats.push(directory.heat)?;
    }
    Ok(heats)
}
