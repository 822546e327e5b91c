//! What a rank writes down for good.

use mds_types::Dir;

/// An entry of a rank's journal. An export is named by its number.
///
/// A rank owns the directories that its own journal gives it: `Made` and `Imported` add, `Gone` and `Exported` take
/// away, the others change nothing.
#[derive(Clone, Copy, Debug, PartialEq, Eq)]
pub enum JournalEntry {
    /// The directory was made.
    Made(Dir),
    /// The directory was removed.
    Gone(Dir),
    /// The importer has the directories of this export, and waits for the exporter's word.
    Started(u32),
    /// The exporter gave the directories away: the export is committed.
    Exported(u32),
    /// The exporter made the map name the importer.
    Notified(u32),
    /// The importer owns the directories.
    Imported(u32),
    /// The importer forgot the directories.
    Dropped(u32),
}
