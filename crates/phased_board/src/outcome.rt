//! What became of an order.

use mds_board::BoardError;

/// What became of an order in a phase. Exports go by their numbers.
#[derive(Clone, Copy, Debug, PartialEq, Eq)]
pub enum Outcome {
    /// The importer owns the directories.
    Done(u32),
    /// The directories stayed with the exporter.
    Aborted(u32),
    /// The export was started, and is neither done nor aborted.
    Open(u32),
    /// The export wasn't started, for this cause.
    Refused(BoardError),
    /// The export wasn't started, as the system gave no thread for the exporter.
    NoThread,
}
