//! The boards of the tests: large ones of three ranks and with room for 65,536 directories, and small ones of two ranks
//! and with room for 128.
//!
//! A board is opened in one place, and all that is tried is generic in the map's writer: a function that knows its type
//! is dear to prove. What is opened is asked for again where memory was refused.
ghost use Rattle.std.specs.Prelude.{◌≡◌, ◌≤◌};

use crate::moves::Act;
use crate::phase::Seats;
use crate::same::Sure;
use crate::stops::Row;
use crate::{many, moves, refused, scarce, stops, traffic};
use authority_map::{MapReader, MapWriter, NewMap, Publisher};
use heat_ledger::{NewBook, Share};
use mds_board::{Board, BoardParts};
use phased_board::Unsettled;
use proof_names::Naming;
use rank_threads::Hands;
use std::alloc::{AllocError, Global};
use std::marker::{Brand, Send, Sync};
use std::process::Abort;
use std::sync::Wait;
use std::thread::Threads;

/// What is tried on a board.
#[derive(Clone, Copy)]
pub(crate) enum Trial {
    /// A phase of many exports.
    Many,
    /// Moves of this name, and what is found after them.
    Moves(&'static str, &'static [Act]),
    /// Phases while a growth is refused.
    RefusedGrowth,
    /// An export of a directory on which a request runs.
    Held,
    /// Many requests on a directory that is exported, before and after this rank stops.
    AtOnce(u8),
    /// A request on a directory that another rank has.
    ByMap,
    /// Requests for a caller that has all shares.
    Totals,
    /// A rank stops while a directory moves.
    Stops(Row),
    /// A rank stops while its request runs.
    StopAtWork,
    /// Requests and an export while a growth or threads are refused, and how many of them may not be done.
    Scarce(u32),
}

impl Trial {
    // Whether its board is large.
    fn is_large(self) -> bool {
        matches!(
            self,
            Trial::Many | Trial::Moves(_, _) | Trial::RefusedGrowth
        )
    }

    // How many directories its board has room for.
    fn limit(self) -> u32
        ensures { (1 ≤ result) × (result ≤ 65536) }
    {
        if self.is_large() { 65_536 } else { 128 }
    }

    // How many ranks its board has.
    fn ranks(self) -> u8
        ensures { (1 ≤ result) × (result ≤ 64) }
    {
        if self.is_large() { 3 } else { 2 }
    }
}

fn board_of<J: Naming, M: Publisher<J>>(
    rt: &impl Abort,
    alloc: Global,
    parts: BoardParts<J, M>,
    limit: u32,
    ranks: u8,
) -> (Board<J, M>, Vec<Share<J>>)
    requires limit { (limit ≡ J.limit) × (1 ≤ limit) × (limit ≤ 65536) }
    requires ranks { (1 ≤ ranks) × (ranks ≤ 64) }
{
    let parts = match Board::new(alloc, parts, limit, ranks) {
        Ok(opened) => return opened,
        Err(parts) => parts,
    };
    match Board::new(alloc, parts, limit, ranks) {
        Ok(opened) => opened,
        Err(_parts) => panic!(rt; "no board"),
    }
}

fn try_on<J: Naming + Send + Sync, M: Publisher<J> + Send, R: Abort + Threads + Wait + Sync>(
    rt: &R,
    alloc: Global,
    board: Board<J, M>,
    seats: Seats<J>,
    trial: Trial,
) {
    match trial {
        Trial::Many => many::move_all(rt, alloc, board),
        Trial::Moves(name, acts) => moves::try_acts(rt, alloc, board, name, acts),
        Trial::RefusedGrowth => refused::phases(rt, alloc, board),
        Trial::Held => traffic::hold(rt, alloc, board, seats),
        Trial::AtOnce(rank) => traffic::serve_and_move(rt, alloc, board, seats, rank),
        Trial::ByMap => traffic::ask_by_map(rt, alloc, board, seats),
        Trial::Totals => panic!(rt; "its board is its own"),
        Trial::Stops(row) => stops::stop_one(rt, alloc, board, row),
        Trial::StopAtWork => stops::stop_at_work(rt, alloc, board, seats),
        Trial::Scarce(most) => scarce::serve_and_move(rt, alloc, board, seats, most),
    }
}

fn on_parts<J: Naming + Send + Sync, M: Publisher<J> + Send, R: Abort + Threads + Wait + Sync>(
    rt: &R,
    alloc: Global,
    parts: BoardParts<J, M>,
    readers: Vec<MapReader<J>>,
    limit: u32,
    trial: Trial,
)
    requires limit { (limit ≡ J.limit) × (1 ≤ limit) × (limit ≤ 65536) }
{
    if let Trial::Totals = trial {
        return traffic::add_up(rt, alloc, parts, readers, limit);
    }
    let (board, shares) = board_of(rt, alloc, parts, limit, trial.ranks());
    let hands = Hands {
        shares,
        ways: readers,
    };
    let seats = Seats {
        hands,
        unsettled: Unsettled::new(alloc),
    };
    try_on(rt, alloc, board, seats, trial)
}

fn on_names<
    J: Naming + Send + Sync,
    W: Wait + Drop + Copy + Send + Sync,
    R: Abort + Threads + Wait + Sync,
>(rt: &R, waits: W, alloc: Global, book: NewBook, map: NewMap, limit: u32, trial: Trial)
    requires book { book ≡ J.ledger }
    requires map { map ≡ J.map }
    requires limit { (limit ≡ J.limit) × (1 ≤ limit) × (limit ≤ 65536) }
{
    let ranks = trial.ranks();
    let opened = match MapWriter::<J, W>::open(waits, alloc, map, limit, ranks) {
        Ok(opened) => Ok(opened),
        Err((_error, map)) => MapWriter::<J, W>::open(waits, alloc, map, limit, ranks),
    };
    match opened {
        Ok((writer, readers)) => {
            let parts = BoardParts::new(book, writer);
            on_parts(rt, alloc, parts, readers, limit, trial)
        }
        Err(_) => panic!(rt; "no map"),
    }
}

fn book_at_last(alloc: Global) -> Result<NewBook, AllocError> {
    match NewBook::new(alloc) {
        Ok(book) => Ok(book),
        Err(_) => NewBook::new(alloc),
    }
}

/// Tries it on a new board.
pub(crate) fn on_board<
    W: Wait + Drop + Copy + Send + Sync,
    R: Abort + AllocGlobal + Threads + Wait + Sync,
>(rt: &R, waits: W, trial: Trial) {
    let alloc = rt.alloc();
    let book = book_at_last(alloc).sure(rt);
    let limit = trial.limit();
    on_names::<Brand, W, R>(rt, waits, alloc, book, NewMap::new(), limit, trial)
}
