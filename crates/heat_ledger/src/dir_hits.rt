//! The hits of one directory, and the entries at which they are counted.
ghost use Rattle.std.specs.Prelude.{◌≡◌};
ghost use Rattle.heat_ledger.specs.Rows.{entry};

use mds_types::{Dir, Kind};

/// How many hits a directory had, of each kind.
#[derive(Clone, Copy, Debug, PartialEq, Eq)]
pub struct DirHits {
    /// The directory.
    pub dir: Dir,
    /// Its reads.
    pub reads: u64,
    /// Its writes.
    pub writes: u64,
}

/// The entry of a directory for hits of this kind.
pub(crate) fn entry_of(dir: Dir, kind: Kind) -> usize
    ensures { result ≡ entry dir kind }
{
    let first = 2 * dir.number() as usize;
    match kind {
        Kind::Read => first,
        Kind::Write => first + 1,
    }
}
