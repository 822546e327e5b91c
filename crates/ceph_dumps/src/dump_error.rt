//! Why a file couldn't be read.
ghost use Rattle.std.specs.Prelude.{◌≡◌};

use std::alloc::{AllocError, AllocFailed};
use thiserror::Error;

/// Why a file couldn't be read. Nothing of it is taken.
#[derive(Debug, Drop, Error)]
pub enum DumpError {
    /// The allocator refused a growth.
    #[error("no memory")]
    Memory,
    /// It isn't the JSON that this dump is, or is cut off. Lines and columns (bytes) are counted from 1.
    #[error("line {line}, column {column}, at {path}: {reason}")]
    Json {
        /// The line.
        line: usize,
        /// The column.
        column: usize,
        /// The names of members and the places in lists that lead there, as `.mdsmap.in[0]`.
        path: String,
        /// What was expected.
        reason: &'static str,
    },
    /// The file system is to have more ranks than can be planned for.
    #[error("more than 64 ranks")]
    TooManyRanks,
    /// The file system has no rank.
    #[error("the file system has no rank")]
    NoRank,
    /// The file system lacks rank 0, which has the root.
    #[error("rank 0 is not in the file system: wait until it is back")]
    NoRankZero,
    /// The file system has a rank of this number.
    #[error("rank {0} is none of 0 to 63")]
    BadRank(u32),
    /// This line of a listing is neither a name nor a gap, and no directory is named for it.
    #[error("line {0}: expected `# file: NAME` or `NAME=\"VALUE\"`")]
    Listing(usize),
    /// This line of a listing has an attribute that the collector doesn't ask for, or a value that is no number.
    #[error("line {0}: expected a number of ceph.dir.entries or of a ceph.dir.pin")]
    Value(usize),
    /// The name of the directory that this line of a listing has a value of isn't plain.
    #[error("line {0}: the path has an empty, . or .. component")]
    Component(usize),
    /// The path of this entry of a dump isn't plain.
    #[error("entry {0}: the path has an empty, . or .. component")]
    Entry(usize),
    /// This record of a list of inode numbers is no number and path, or the path has an empty, `.` or `..` component.
    #[error("record {0}: expected `NUMBER PATH` and a NUL, with no empty, . or .. component")]
    Record(usize),
    /// This line of a list of pins is no rank and path.
    #[error("line {0}: expected `RANK /PATH`")]
    Own(usize),
    /// This line of a list of directories is no path, or the path has an empty, `.` or `..` component.
    #[error("line {0}: expected `/PATH` with no empty, . or .. component")]
    Path(usize),
    /// This line of the record of an hour isn't what it has to be, or the last one is cut off.
    #[error("line {0}: expected `mdbal-hour 1`, `NAME FSID`, 64 numbers or `NUMBER PATH`, and a newline after each")]
    Hour(usize),
    /// The file `complete` isn't the one line that the collector writes.
    #[error("expected one line `NAME FSID`")]
    Complete,
    /// The file `balancer` isn't what the collector writes.
    #[error("expected the seconds of mds_bal_interval, and at most a line of balance_automate")]
    Balancer,
}

impl From<AllocError> for DumpError {
    ghost use Rattle.ceph_dumps.specs.declared.dump_error.DumpError.TheVariants as cause;

    ghost from_gives = { λ _ error. error ≡ cause.Memory };

    fn from(_: AllocError) -> DumpError {
        DumpError::Memory
    }
}

impl<T: Drop> From<AllocFailed<T>> for DumpError {
    ghost use Rattle.ceph_dumps.specs.declared.dump_error.DumpError.TheVariants as cause;

    ghost from_gives = { λ _ error. error ≡ cause.Memory };

    fn from(_: AllocFailed<T>) -> DumpError {
        DumpError::Memory
    }
}
