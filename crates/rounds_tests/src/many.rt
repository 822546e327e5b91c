//! A phase of many exports.

use crate::boards::{Trial, on_board};
use crate::same::{Sure, holds_in, same};
use crate::steps::moved;
use authority_map::Publisher;
use mds_board::Board;
use mds_types::Dir;
use phased_board::{Outcome, Unsettled};
use proof_names::Naming;
use std::alloc::Global;
use std::marker::{Send, Sync};
use std::process::Abort;
use std::sync::Wait;
use std::thread::Threads;

/// Exports of the phase, each of one directory.
const MANY: u32 = 32_768;

// Directories 1 to MANY, at most eight below each.
fn fill<J: Naming, M: Publisher<J>>(rt: &impl Abort, alloc: Global, board: &mut Board<J, M>) {
    for number in 0..MANY {
        let name = format!(in alloc; "d{number}").sure(rt);
        let made = board.make(alloc, Dir::new(number / 8), name.as_str(), 1);
        holds_in(rt, made.is_ok(), &number);
    }
}

/// A phase of as many exports as that, each of which is done.
pub(crate) fn move_all<
    J: Naming + Send + Sync,
    M: Publisher<J> + Send,
    R: Abort + Threads + Wait + Sync,
>(rt: &R, alloc: Global, board: Board<J, M>) {
    let mut board = board;
    fill(rt, alloc, &mut board);
    let mut rows = Vec::with_capacity(alloc, MANY as usize).sure(rt);
    for number in 0..MANY {
        rows.push((0, 1, number + 1)).sure(rt);
    }
    let (board, outcomes) = moved(rt, alloc, board, &mut Unsettled::new(alloc), &rows);
    board.end();
    let outcomes = outcomes.sure(rt);
    same(rt, &outcomes.len(), &(MANY as usize));
    for (number, outcome) in (0..MANY).zip(outcomes.iter()) {
        same(rt, outcome, &Outcome::Done(number));
    }
}

#[test]
fn each_of_many_exports_is_done(rt: HostRuntime) {
    on_board(&rt, &rt, Trial::Many)
}
