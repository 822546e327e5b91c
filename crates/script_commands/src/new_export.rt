//! An export that a line starts.
ghost use Rattle.std.specs.Prelude.{◌≡◌, ◌≤◌, [], vec_capacity, vec_len};

use mds_types::{Dir, Rank};
use std::alloc::Global;

/// An export to start, with the paths of its directories as they are in the line.
#[derive(Debug, Drop)]
pub struct NewExport<'a> {
    /// The exporter.
    pub from: Rank,
    /// The importer.
    pub to: Rank,
    /// What names the directories.
    pub paths: Vec<&'a str>,
    /// No directory yet, and room for one a path.
    pub room: Vec<Dir>,
    ghost empty: { room.items ≡ [] },
    ghost enough: { vec_len paths ≤ vec_capacity room },
}
