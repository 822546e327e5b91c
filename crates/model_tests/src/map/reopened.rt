//! A map that is opened anew.
ghost use Rattle.std.specs.Prelude.{◌≡◌};

use crate::map::maps::{give, look, rank, show};
use crate::map::opened::{Trial, try_trial};
use authority_map::{Found, MapError, MapReader, Publisher};
use mds_types::{Dir, Rank};
use proof_names::Naming;
use std::alloc::Global;

// An opening that is refused memory is made again.
fn reopened<J: Naming, M: Publisher<J>>(
    alloc: Global,
    writer: &mut M,
) -> Result<Vec<MapReader<J>>, MapError> {
    match writer.reopen(alloc, 2) {
        Ok(readers) => Ok(readers),
        Err(_) => writer.reopen(alloc, 2),
    }
}

// Whether each of two readers finds this.
fn is_found<J: Naming>(readers: &mut Vec<MapReader<J>>, dir: Dir, found: Found) -> bool {
    match readers.as_mut_slice() {
        [first, second] => look(first, dir) == found && look(second, dir) == found,
        _ => false,
    }
}

/// Rank 0 is published before the map is opened anew, rank 1 of another directory waits, and is published afterwards.
/// It says whether two new readers find both, each in its time, and the old one finds the map closed.
pub(crate) fn reopen<J: Naming, M: Publisher<J>>(
    alloc: Global,
    writer: &mut M,
    reader: &mut MapReader<J>,
) -> Result<bool, MapError>
    requires { J.limit ≡ 96 }
{
    let (early, late) = (Dir::new(1), Dir::new(95));
    let (r0, r1): (Rank, Rank) = (rank(0), rank(1));
    give::<J, M>(alloc, writer, early, r0)?;
    show::<J, M>(writer)?;
    give::<J, M>(alloc, writer, late, r1)?;
    let mut readers = reopened::<J, M>(alloc, writer)?;
    let before = is_found(&mut readers, early, Found::Rank(r0))
        && is_found(&mut readers, late, Found::NoDir);
    show::<J, M>(writer)?;
    let after = is_found(&mut readers, early, Found::Rank(r0))
        && is_found(&mut readers, late, Found::Rank(r1));
    Ok(before && after && look(reader, early) == Found::Closed)
}

#[test]
fn a_map_is_opened_anew(rt: HostRuntime) {
    try_trial(&rt, Trial::Reopens)
}
