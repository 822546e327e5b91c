//! What is tried on a board of two ranks, with room for eight directories.
//!
//! The board is opened in one place, since a function that knows the type of its map's writer is dear to prove. What is
//! opened is asked for again where memory was refused.
ghost use Rattle.std.specs.Prelude.{◌≡◌};

use crate::boards::{adopting, full, refused};
use crate::same::Sure;
use authority_map::{MapWriter, NewMap, Publisher};
use heat_ledger::{NewBook, Share};
use mds_board::{Board, BoardParts, Solver};
use mds_types::{Plan, Problem};
use planner::solve;
use proof_names::Naming;
use std::alloc::{AllocError, Global};
use std::marker::{Brand, Sync};
use std::process::Abort;
use std::sync::Wait;
use std::thread::Threads;

/// What is tried.
#[derive(Clone, Copy)]
pub(crate) enum Case {
    /// Plans that are adopted, and plans that aren't.
    Adopting,
    /// A full history.
    Full,
    /// Refused growths in the changes.
    RefusedGrowth,
}

/// The planner.
pub(crate) struct Planner;

impl Solver for Planner {
    ghost use Rattle.std.specs.Prelude.{⊤};

    ghost also = { λ _ _. ⊤ };

    fn solve<R: Threads + Sync>(
        &self,
        rt: &R,
        alloc: Global,
        problem: &Problem,
    ) -> Result<Plan, AllocError> {
        solve(rt, alloc, problem)
    }
}

fn try_on<J: Naming, M: Publisher<J>, R: Abort + Threads + Sync>(
    rt: &R,
    alloc: Global,
    board: Board<J, M>,
    shares: Vec<Share<J>>,
    case: Case,
) {
    let (mut board, mut shares) = (board, shares);
    let Some(share) = shares.first_mut() else {
        panic!(rt; "no share");
    };
    match case {
        Case::Adopting => adopting::try_on(rt, alloc, &mut board, share),
        Case::Full => full::try_on(rt, alloc, &mut board, share),
        Case::RefusedGrowth => refused::try_on(rt, alloc, &mut board, share),
    }
    board.end();
}

// A board with only the root, and a share for each rank.
fn on_parts<J: Naming, M: Publisher<J>, R: Abort + Threads + Sync>(
    rt: &R,
    alloc: Global,
    parts: BoardParts<J, M>,
    case: Case,
)
    requires limit { 8 ≡ J.limit }
{
    let parts = match Board::new(alloc, parts, 8, 2) {
        Ok((board, shares)) => return try_on(rt, alloc, board, shares, case),
        Err(parts) => parts,
    };
    match Board::new(alloc, parts, 8, 2) {
        Ok((board, shares)) => try_on(rt, alloc, board, shares, case),
        Err(_parts) => panic!(rt; "no board"),
    }
}

fn on_names<J: Naming, R: Abort + Threads + Wait + Sync>(
    rt: &R,
    alloc: Global,
    book: NewBook,
    map: NewMap,
    case: Case,
)
    requires book { book ≡ J.ledger }
    requires map { map ≡ J.map }
    requires limit { 8 ≡ J.limit }
{
    let opened = match MapWriter::<J, &R>::open(rt, alloc, map, 8, 1) {
        Ok(opened) => Ok(opened),
        Err((_error, map)) => MapWriter::<J, &R>::open(rt, alloc, map, 8, 1),
    };
    match opened {
        Ok((writer, _readers)) => on_parts(rt, alloc, BoardParts::new(book, writer), case),
        Err(_) => panic!(rt; "no map"),
    }
}

fn book_at_last(alloc: Global) -> Result<NewBook, AllocError> {
    match NewBook::new(alloc) {
        Ok(book) => Ok(book),
        Err(_) => NewBook::new(alloc),
    }
}

/// Tries it on a new board.
pub(crate) fn try_case<R: Abort + AllocGlobal + Threads + Wait + Sync>(rt: &R, case: Case) {
    let book = book_at_last(rt.alloc()).sure(rt);
    on_names::<Brand, R>(rt, rt.alloc(), book, NewMap::new(), case)
}
