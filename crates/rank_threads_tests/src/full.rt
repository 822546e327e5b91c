//! A phase that fills the history.
use crate::boards::serve_all;
use crate::requests::{scripts, served, work};
use crate::same::{Sure, same};
use crate::trials::{Trial, try_often};
use authority_map::Publisher;
use heat_ledger::Share;
use mds_board::{Board, BoardError};
use proof_names::Naming;
use rank_threads::OpenGate;
use std::alloc::Global;
use std::marker::{Send, Sync};
use std::process::Abort;
use std::sync::Wait;
use std::thread::Threads;

fn tick_often<J: Naming, M: Publisher<J>>(board: &mut Board<J, M>, ticks: u32) {
    for _ in 0..ticks {
        let _ticked = board.tick();
    }
}

/// The request's begin is the last event that has room: its end is refused, and each deposit.
pub(crate) fn end_without_room<
    J: Naming + Send + Sync,
    M: Publisher<J> + Send,
    R: Abort + Threads + Wait + Sync,
>(rt: &R, alloc: Global, board: Board<J, M>, shares: Vec<Share<J>>) {
    let all = scripts(alloc, &[work(1, 3)], &[]).sure(rt);
    let mut board = board;
    tick_often(&mut board, 1_048_574);
    let (board, left) = serve_all(rt, alloc, board, &OpenGate, &all, shares);
    let entries = board.history().len();
    board.end();
    let ranks = left.ok_or("no memory").sure(rt);
    let first = ranks.answers.first().ok_or("no answers").sure(rt);
    same(rt, &first.as_slice(), &[served(0, 3)].as_slice());
    same(rt, &ranks.ended, &Err(BoardError::HistoryFull));
    same(rt, &ranks.deposited, &Err(BoardError::HistoryFull));
    same(rt, &entries, &1_048_576);
}

#[test]
fn an_end_without_room_is_told(rt: HostRuntime) {
    try_often(&rt, Trial::FullHistory, 1)
}
