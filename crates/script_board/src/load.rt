//! A request that waits to be served.

use mds_types::{Dir, Kind};

/// Hits on a directory that wait for the next `go`.
#[derive(Clone, Copy, Debug, PartialEq, Eq)]
pub struct Load {
    /// The directory.
    pub dir: Dir,
    /// How many hits.
    pub hits: u32,
    /// What they do to the directory.
    pub kind: Kind,
}
