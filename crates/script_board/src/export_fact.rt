//! What there is to say of an export.

use export_protocol::{ExporterState, ImporterState, Message};
use mds_types::{Dir, Rank};

/// One thing to say of an export.
#[derive(Clone, Copy)]
pub enum ExportFact {
    /// The export of this number goes from one rank, its exporter, to another, its importer.
    Way(u32, Rank, Rank),
    /// Its state at its exporter.
    Exporter(ExporterState),
    /// Its state at its importer.
    Importer(ImporterState),
    /// It moves this directory.
    Moves(Dir),
    /// The message of this number was sent for it, and whether that was delivered.
    Sent(u32, Message, bool),
}
