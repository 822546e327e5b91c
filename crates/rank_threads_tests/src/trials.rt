//! What is tried on a board, and the one place that opens boards for it: a function that knows the type of the map's
//! writer takes long to prove, so all that is tried is generic in it.
ghost use Rattle.std.specs.Prelude.{◌≡◌, ◌≤◌};

use crate::same::Sure;
use crate::{exports, full, many, requests, rows, threads};
use authority_map::{MapWriter, NewMap, Publisher};
use heat_ledger::{NewBook, Share};
use mds_board::{Board, BoardParts};
use mds_types::Dir;
use proof_names::Naming;
use std::alloc::{AllocError, Global};
use std::marker::{Brand, Send, Sync};
use std::process::Abort;
use std::sync::Wait;
use std::thread::Threads;

/// What is tried, each by the module that tests it.
#[derive(Clone, Copy)]
pub(crate) enum Trial {
    /// Orders of three ranks.
    Orders,
    /// Orders of two ranks whose turns meet.
    MeetingTurns,
    /// An end without room in the history.
    FullHistory,
    /// Requests of 64 ranks.
    ManyRequests,
    /// Requests of two ranks.
    Requests,
    /// Requests of two ranks that meet.
    Meeting,
    /// Requests on a directory that moves, and past stops: a row of the table.
    Played(usize),
    /// Requests for which there may be no thread, or for which there is one.
    RankThreads(bool),
    /// Orders for which there may be no thread, or for which there is one.
    ExporterThreads(bool),
}

impl Trial {
    // How many ranks its board has, and how many directories from 1 on below the root.
    fn room(self) -> (u8, u32)
        ensures { (1 ≤ result.0) × (result.0 ≤ 64) }
    {
        match self {
            Trial::ManyRequests => (64, 63),
            Trial::Orders | Trial::ExporterThreads(_) => (3, 2),
            _ => (2, 1),
        }
    }
}

fn make<J: Naming, M: Publisher<J>>(
    alloc: Global,
    board: &mut Board<J, M>,
    dirs: u32,
) -> Result<(), AllocError> {
    for number in 0..dirs {
        let name = format!(in alloc; "d{number}")?;
        if board.make(alloc, Dir::ROOT, name.as_str(), 1).is_err() {
            return Err(AllocError);
        }
    }
    Ok(())
}

// Tries it on a board with its directories.
fn try_on<J: Naming + Send + Sync, M: Publisher<J> + Send, R: Abort + Threads + Wait + Sync>(
    rt: &R,
    alloc: Global,
    board: Board<J, M>,
    shares: Vec<Share<J>>,
    trial: Trial,
)
    requires limit { J.limit ≡ 128 }
{
    match trial {
        Trial::Orders => exports::go_and_come(rt, alloc, board),
        Trial::MeetingTurns => exports::meet(rt, alloc, board),
        Trial::FullHistory => full::end_without_room(rt, alloc, board, shares),
        Trial::ManyRequests => many::serve_on(rt, alloc, board, shares),
        Trial::Requests => requests::serve_with_jitter(rt, alloc, board, shares),
        Trial::Meeting => requests::meet(rt, alloc, board, shares),
        Trial::Played(row) => rows::play_on(rt, alloc, board, shares, row),
        Trial::RankThreads(is_sure) => threads::serve_on(rt, alloc, board, shares, is_sure),
        Trial::ExporterThreads(is_sure) => threads::move_on(rt, alloc, board, is_sure),
    }
}

// The same on one that has only its root yet.
fn try_filled<J: Naming + Send + Sync, M: Publisher<J> + Send, R: Abort + Threads + Wait + Sync>(
    rt: &R,
    alloc: Global,
    board: Board<J, M>,
    shares: Vec<Share<J>>,
    dirs: u32,
    trial: Trial,
) -> Result<(), AllocError>
    requires limit { J.limit ≡ 128 }
{
    let mut board = board;
    if make(alloc, &mut board, dirs).is_err() {
        board.end();
        return Err(AllocError);
    }
    try_on(rt, alloc, board, shares, trial);
    Ok(())
}

// The same with a book and a map's writer.
fn try_with<J: Naming + Send + Sync, M: Publisher<J> + Send, R: Abort + Threads + Wait + Sync>(
    rt: &R,
    alloc: Global,
    parts: BoardParts<J, M>,
    room: (u8, u32),
    trial: Trial,
) -> Result<(), AllocError>
    requires limit { J.limit ≡ 128 }
    requires ranks { (1 ≤ room.0) × (room.0 ≤ 64) }
{
    match Board::new(alloc, parts, 128, room.0) {
        Ok((board, shares)) => try_filled(rt, alloc, board, shares, room.1, trial),
        Err(parts) => {
            parts.end();
            Err(AllocError)
        }
    }
}

fn on_board<J: Naming + Send + Sync, R: Abort + Threads + Wait + Sync>(
    rt: &R,
    alloc: Global,
    book: NewBook,
    map: NewMap,
    room: (u8, u32),
    trial: Trial,
) -> Result<(), AllocError>
    requires book { book ≡ J.ledger }
    requires map { map ≡ J.map }
    requires limit { J.limit ≡ 128 }
    requires ranks { (1 ≤ room.0) × (room.0 ≤ 64) }
{
    match MapWriter::<J, &R>::open(rt, alloc, map, 128, 1) {
        Ok((writer, _readers)) => {
            try_with(rt, alloc, BoardParts::new(book, writer), room, trial)
        }
        Err(_) => Err(AllocError),
    }
}

// Tries it on a new board, if there is memory for one.
fn try_once<R: Abort + AllocGlobal + Threads + Wait + Sync>(
    rt: &R,
    trial: Trial,
) -> Result<(), AllocError> {
    let book = NewBook::new(rt.alloc())?;
    on_board::<Brand, R>(rt, rt.alloc(), book, NewMap::new(), trial.room(), trial)
}

/// Tries it `times` times, each time on a new board.
pub(crate) fn try_often<R: Abort + AllocGlobal + Threads + Wait + Sync>(
    rt: &R,
    trial: Trial,
    times: u32,
) {
    for _ in 0..times {
        try_once(rt, trial).sure(rt);
    }
}
