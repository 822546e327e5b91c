//! What is done to a map in a test, and what is read of it, with no more clauses than the calls need.
ghost use Rattle.std.specs.Prelude.{◌≡◌, ◌<◌};

use authority_map::{Found, MapError, MapReader, Publisher};
use mds_types::{Dir, Rank};
use proof_names::Naming;
use std::alloc::Global;

/// The rank of a number, and rank 0 where that is none.
pub(crate) fn rank(number: u8) -> Rank {
    Rank::new(number).unwrap_or_default()
}

/// A directory gets a rank, from the next publish on.
pub(crate) fn give<J: Naming, M: Publisher<J>>(
    alloc: Global,
    writer: &mut M,
    dir: Dir,
    rank: Rank,
) -> Result<(), MapError>
    requires { dir < J.limit }
{
    let Ok(dirs) = Vec::from_array(alloc, [dir]) else {
        return Err(MapError::Memory);
    };
    writer.reserve()?;
    writer.set(dirs, rank);
    Ok(())
}

/// A directory loses its rank, from the next publish on.
pub(crate) fn clear<J: Naming, M: Publisher<J>>(writer: &mut M, dir: Dir) -> Result<(), MapError>
    requires { dir < J.limit }
{
    writer.reserve()?;
    writer.clear(dir);
    Ok(())
}

/// Publishes what is pending.
pub(crate) fn show<J: Naming, M: Publisher<J>>(writer: &mut M) -> Result<(), MapError> {
    writer.publish()
}

/// What the reader finds.
pub(crate) fn look<J: Naming>(reader: &mut MapReader<J>, dir: Dir) -> Found {
    reader.find(dir)
}

/// The reader hears what is published.
pub(crate) fn hear<J: Naming, M: Publisher<J>>(reader: &mut MapReader<J>, writer: &M) {
    reader.learn(writer.tell());
}
