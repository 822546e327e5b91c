//! What the program reads, and what it tells of it.

use std::alloc::Global;

/// What the program reads, and what it tells of it.
#[derive(Drop)]
pub struct Inputs<'a, F, D, P> {
    /// The files.
    pub files: &'a F,
    /// What reads the dumps of ranks.
    pub reader: D,
    /// What says what a long run is at.
    pub progress: &'a P,
    pub alloc: Global,
}
