//! Boards that are opened for what is timed.
ghost use Rattle.std.specs.Prelude.{◌≡◌, ◌≤◌};

use crate::phases::timing::{Phase, time_phase};
use authority_map::{MapReader, MapWriter, NewMap, Publisher};
use heat_ledger::NewBook;
use mds_board::{Board, BoardParts};
use mds_types::limits::DIR_LIMIT;
use proof_names::Naming;
use rank_threads::Hands;
use std::alloc::Global;
use std::marker::{Brand, Send, Sync};
use std::sync::Wait;
use std::thread::Threads;
use std::time::Clock;

fn time_parts<J: Naming + Send + Sync, M: Publisher<J> + Send, R: Threads + Wait + Clock + Sync>(
    rt: &R,
    alloc: Global,
    parts: BoardParts<J, M>,
    readers: Vec<MapReader<J>>,
    ranks: u8,
    phase: Phase,
) -> u64
    requires limit { J.limit ≡ DIR_LIMIT }
    requires ranks { (1 ≤ ranks) × (ranks ≤ 64) }
{
    match Board::new(alloc, parts, DIR_LIMIT, ranks) {
        Ok((board, shares)) => {
            let hands = Hands {
                shares,
                ways: readers,
            };
            time_phase(rt, alloc, board, hands, ranks, phase)
        }
        Err(parts) => {
            parts.end();
            u64::MAX
        }
    }
}

// The board is opened in one place, since a function that knows the type of its map's writer is dear to prove.
fn time_opened<J: Naming + Send + Sync, R: Threads + Wait + Clock + Sync>(
    rt: &R,
    alloc: Global,
    book: NewBook,
    map: NewMap,
    ranks: u8,
    phase: Phase,
) -> u64
    requires book { book ≡ J.ledger }
    requires map { map ≡ J.map }
    requires limit { J.limit ≡ DIR_LIMIT }
    requires ranks { (1 ≤ ranks) × (ranks ≤ 64) }
{
    match MapWriter::<J, &R>::open(rt, alloc, map, DIR_LIMIT, ranks) {
        Ok((writer, readers)) => {
            time_parts(
                rt,
                alloc,
                BoardParts::new(book, writer),
                readers,
                ranks,
                phase,
            )
        }
        Err(_) => u64::MAX,
    }
}

/// The nanoseconds of a phase on a new board of `ranks` ranks, with room for 65,536 directories.
///
/// A board has a name, which is that of what was opened for its book and for its map.
pub fn time_named<R: Threads + Wait + Clock + Sync>(
    rt: &R,
    alloc: Global,
    ranks: u8,
    phase: Phase,
) -> u64
    requires ranks { (1 ≤ ranks) × (ranks ≤ 64) }
{
    let Ok(book) = NewBook::new(alloc) else {
        return u64::MAX;
    };
    time_opened::<Brand, R>(rt, alloc, book, NewMap::new(), ranks, phase)
}
