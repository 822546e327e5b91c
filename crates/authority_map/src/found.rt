//! What a look-up finds.

use mds_types::Rank;

/// What a reader finds at a directory.
#[derive(Clone, Copy, Debug, PartialEq, Eq)]
pub enum Found {
    /// The directory has this rank.
    Rank(Rank),
    /// The directory has no rank.
    NoDir,
    /// The writer has ended, or the copy that is shown lacks some of what the reader has learned.
    /// The second doesn't happen while the writer lives.
    Closed,
}
