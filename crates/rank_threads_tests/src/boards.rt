//! Boards of several ranks, and phases on them.
use crate::gates::JitterGate;
use authority_map::Publisher;
use heat_ledger::Share;
use mds_board::{Board, Shown};
use mds_types::{Dir, Dirs, Order, Rank};
use proof_names::Naming;
use rank_threads::{Gate, Outcome, Ranks, Work, WorkAnswer, serve_phase};
use std::alloc::{AllocError, Global};
use std::marker::{Send, Sync};
use std::sync::Wait;
use std::thread::Threads;

/// The rank of a number, and rank 0 where that is none.
pub(crate) fn rank(number: u8) -> Rank {
    Rank::new(number).unwrap_or(Rank::default())
}

/// Orders of one directory each: from a rank, to a rank, the directory.
pub(crate) fn orders(alloc: Global, rows: &[(u8, u8, u32)]) -> Result<Vec<Order>, AllocError> {
    let mut orders = Vec::new(alloc);
    for (from, to, dir) in rows {
        let mut dirs = Vec::new(alloc);
        dirs.push(Dir::new(*dir))?;
        orders.push(Order {
            from: rank(*from),
            to: rank(*to),
            dirs: Dirs::new(dirs),
        })?;
    }
    Ok(orders)
}

/// What became of an order whose export is done.
pub(crate) fn done(export: u32) -> Outcome {
    Outcome::Done(export)
}

// Adds the answers of all ranks, as far as there is room.
fn keep(told: &mut Vec<WorkAnswer>, answers: &[Vec<WorkAnswer>]) {
    for list in answers {
        for answer in list {
            let _kept = told.push(*answer);
        }
    }
}

/// Serves the requests of all ranks. Where there is no memory for the answers, or no share for a rank, it gives
/// nothing.
pub(crate) fn serve_all<
    J: Naming + Send + Sync,
    M: Publisher<J> + Send,
    R: Threads + Wait + Sync,
    G: Gate + Sync,
>(
    rt: &R,
    alloc: Global,
    board: Board<J, M>,
    gate: &G,
    scripts: &[Vec<Work>],
    shares: Vec<Share<J>>,
) -> (Board<J, M>, Option<Ranks<J>>) {
    if scripts.len() > 64 || shares.len() != scripts.len() {
        return (board, None);
    }
    let (board, done) = serve_phase(rt, alloc, board, gate, scripts, shares);
    (board, done.ok())
}

/// Serves the requests of all ranks with jitter, and adds their answers. Where there
/// is no memory, no deposit or no end, it adds none.
pub(crate) fn serve<J: Naming + Send + Sync, M: Publisher<J> + Send, R: Threads + Wait + Sync>(
    rt: &R,
    alloc: Global,
    board: Board<J, M>,
    scripts: &[Vec<Work>],
    shares: Vec<Share<J>>,
    told: &mut Vec<WorkAnswer>,
) -> (Board<J, M>, Vec<Share<J>>) {
    if scripts.len() > 64 || shares.len() != scripts.len() {
        return (board, shares);
    }
    let (board, done) = serve_phase(rt, alloc, board, &JitterGate, scripts, shares);
    match done {
        Ok(
            Ranks {
                shares,
                answers,
                deposited,
                ended,
            },
        ) => {
            if deposited.is_ok() && ended.is_ok() {
                keep(told, &answers);
            }
            (board, shares)
        }
        Err(refused) => (board, refused.value),
    }
}

/// Who has directories 1 and 2.
pub(crate) fn authorities<J: Naming, M: Publisher<J>>(
    board: &Board<J, M>,
) -> (Option<Rank>, Option<Rank>) {
    let cluster = board.cluster();
    (
        cluster.authority(Dir::new(1)),
        cluster.authority(Dir::new(2)),
    )
}

/// How many more requests began than ended by an end of their own.
pub(crate) fn running<J: Naming, M: Publisher<J>>(board: &Board<J, M>) -> u32 {
    let mut running: u32 = 0;
    for number in 0..board.history().len() {
        match board.history().at(number) {
            Shown::Began(_, _, _) => running = running.wrapping_add(1),
            Shown::Ended(_) => running = running.wrapping_sub(1),
            Shown::Other(_) => {}
        }
    }
    running
}
