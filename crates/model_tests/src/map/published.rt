//! What a reader finds, before and after each publish.
ghost use Rattle.std.specs.Prelude.{◌≡◌, ◌<◌};

use crate::map::maps::{clear, give, hear, look, rank, show};
use crate::map::opened::{Trial, try_trial};
use authority_map::{Found, MapError, MapReader, Publisher};
use mds_types::{Dir, Rank};
use proof_names::Naming;
use std::alloc::Global;

/// Rank 0 is published, rank 1 at first not; the reader learns of it; the directory loses its rank. It says whether the
/// reader found each of them, and no other directory.
pub(crate) fn follow<J: Naming, M: Publisher<J>>(
    alloc: Global,
    writer: &mut M,
    reader: &mut MapReader<J>,
) -> Result<bool, MapError>
    requires { J.limit ≡ 96 }
{
    let dir = Dir::new(1);
    give::<J, M>(alloc, writer, dir, rank(0))?;
    show::<J, M>(writer)?;
    let first = look(reader, dir);
    give::<J, M>(alloc, writer, dir, rank(1))?;
    let before = look(reader, dir);
    show::<J, M>(writer)?;
    hear(reader, writer);
    let after = look(reader, dir);
    let other = look(reader, Dir::new(2));
    clear::<J, M>(writer, dir)?;
    show::<J, M>(writer)?;
    let last = look(reader, dir);
    let (none, r0, r1) = (Found::NoDir, Found::Rank(rank(0)), Found::Rank(rank(1)));
    Ok(first == r0 && before == r0 && after == r1 && other == none && last == none)
}

#[test]
fn readers_follow(rt: HostRuntime) {
    try_trial(&rt, Trial::Follows)
}

// An operation that is refused memory is made again.
fn give_at_last<J: Naming, M: Publisher<J>>(
    alloc: Global,
    writer: &mut M,
    dir: Dir,
    rank: Rank,
) -> Result<(), MapError>
    requires { dir < J.limit }
{
    match give::<J, M>(alloc, writer, dir, rank) {
        Ok(()) => Ok(()),
        Err(_) => give::<J, M>(alloc, writer, dir, rank),
    }
}

// A publish that is refused memory is made again. It says whether the reader found this until then.
fn show_at_last<J: Naming, M: Publisher<J>>(
    writer: &mut M,
    reader: &mut MapReader<J>,
    dir: Dir,
    before: Found,
) -> Result<bool, MapError> {
    if show::<J, M>(writer).is_ok() {
        return Ok(true);
    }
    let still = look(reader, dir) == before;
    show::<J, M>(writer)?;
    Ok(still)
}

/// Twenty operations on four directories. It says whether each was found when it was published, and not before.
pub(crate) fn give_many<J: Naming, M: Publisher<J>>(
    alloc: Global,
    writer: &mut M,
    reader: &mut MapReader<J>,
) -> Result<bool, MapError>
    requires { J.limit ≡ 96 }
{
    let mut kept = true;
    for step in 0..20u32 {
        let (dir, rank) = (Dir::new(step % 4), rank(step as u8));
        let before = look(reader, dir);
        give_at_last::<J, M>(alloc, writer, dir, rank)?;
        kept = look(reader, dir) == before && kept;
        kept = show_at_last::<J, M>(writer, reader, dir, before)? && kept;
        kept = look(reader, dir) == Found::Rank(rank) && kept;
    }
    Ok(kept)
}

// With `rt try --test --fail-alloc N`, the N-th growth is refused.
#[test]
fn a_refused_growth_changes_no_map(rt: HostRuntime) {
    try_trial(&rt, Trial::Refusals)
}
