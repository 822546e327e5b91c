//! The states of an import at the rank that takes the directories over.
//!
//! ```text
//! unknown -> discovered -> prepared -> started -> imported
//!    |           |            |           |
//!    +-----------+------------+-----------+-----> dropped
//! ```
//!
//! A started import is journaled. From then on only the exporter's `Finish` or `Cancel` settles it.

/// The state of an export at its importer.
#[derive(Clone, Copy, Debug, PartialEq, Eq)]
pub enum ImporterState {
    /// Nothing came yet.
    Unknown,
    /// The importer knows the directories.
    Discovered,
    /// The importer is ready.
    Prepared,
    /// The directories came and are journaled.
    Started,
    /// The importer owns the directories.
    Imported,
    /// The exporter cancelled.
    Dropped,
}
