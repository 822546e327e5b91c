//! Ranks and lists of directories by their numbers.

use mds_types::{Dir, Dirs, Rank};
use std::alloc::{AllocError, Global};

/// The rank of a number, and rank 0 where that is none.
pub(crate) fn rank(number: u8) -> Rank {
    Rank::new(number).unwrap_or_default()
}

fn listed(alloc: Global, numbers: &[u32]) -> Result<Dirs, AllocError> {
    let mut dirs = Vec::new(alloc);
    for number in numbers {
        dirs.push(Dir::new(*number))?;
    }
    Ok(Dirs::new(dirs))
}

/// A list of directories, asked for again where memory was refused.
pub(crate) fn dirs_at_last(alloc: Global, numbers: &[u32]) -> Result<Dirs, AllocError> {
    match listed(alloc, numbers) {
        Ok(dirs) => Ok(dirs),
        Err(_) => listed(alloc, numbers),
    }
}
