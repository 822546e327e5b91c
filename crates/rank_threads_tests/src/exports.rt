//! Orders of three ranks, and what they leave on the board.
use crate::boards::{authorities, done, orders, rank};
use crate::gates::{JitterGate, RoundsGate};
use crate::same::{Sure, same};
use crate::trials::{Trial, try_often};
use authority_map::Publisher;
use export_protocol::{Event, StepError};
use mds_board::{Board, BoardError};
use proof_names::Naming;
use rank_threads::{Outcome, export_phase};
use std::alloc::Global;
use std::marker::{Send, Sync};
use std::process::Abort;
use std::sync::Wait;
use std::thread::Threads;

// What became of orders when rank 2 had stopped: no rank has the number 3, and the export to rank 2 is aborted.
fn late_are(rt: &impl Abort, outcomes: &[Outcome]) {
    let late = [
        Outcome::Refused(BoardError::Step(StepError::NoRank)),
        done(4),
        Outcome::Aborted(5),
    ];
    same(rt, &outcomes, &late.as_slice());
}

/// Directories go there and back, and there again when rank 2 has stopped. What one rank gives has the numbers in the
/// order of its orders, and what two ranks give at once is done too.
pub(crate) fn go_and_come<
    J: Naming + Send + Sync,
    M: Publisher<J> + Send,
    R: Abort + Threads + Wait + Sync,
>(rt: &R, alloc: Global, board: Board<J, M>) {
    let there = orders(alloc, &[(0, 1, 1), (0, 2, 2)]).sure(rt);
    let back = orders(alloc, &[(1, 0, 1), (2, 0, 2)]).sure(rt);
    let late = orders(alloc, &[(3, 0, 1), (0, 1, 1), (0, 2, 2)]).sure(rt);
    let (board, there) = export_phase(rt, alloc, board, &JitterGate, &there);
    let (mut board, back) = export_phase(rt, alloc, board, &JitterGate, &back);
    let stopped = board.step(alloc, Event::Stop(rank(2))).is_ok();
    let (board, late) = export_phase(rt, alloc, board, &JitterGate, &late);
    let authorities = authorities(&board);
    board.end();
    assert!(rt; stopped);
    same(
        rt,
        &there.sure(rt).as_slice(),
        &[done(0), done(1)].as_slice(),
    );
    let back = back.sure(rt);
    assert!(rt;
        back.as_slice() == [done(2), done(3)].as_slice()
            || back.as_slice() == [done(3), done(2)].as_slice()
    );
    late_are(rt, &late.sure(rt));
    same(rt, &authorities, &(Some(rank(1)), Some(rank(0))));
}

#[test]
fn ranks_carry_out_orders(rt: HostRuntime) {
    try_often(&rt, Trial::Orders, 100)
}

/// Two ranks are in the first round at once, where rank 1 gives a directory back to rank 0, and each is named in
/// each of eight rounds.
pub(crate) fn meet<
    J: Naming + Send + Sync,
    M: Publisher<J> + Send,
    R: Abort + Threads + Wait + Sync,
>(rt: &R, alloc: Global, board: Board<J, M>) {
    let there = orders(alloc, &[(0, 1, 1)]).sure(rt);
    let back = orders(alloc, &[(1, 0, 1)]).sure(rt);
    let gate = RoundsGate::new();
    let (board, there) = export_phase(rt, alloc, board, &JitterGate, &there);
    let (board, back) = export_phase(rt, alloc, board, &gate, &back);
    let authorities = authorities(&board);
    board.end();
    same(rt, &there.sure(rt).as_slice(), &[done(0)].as_slice());
    same(rt, &back.sure(rt).as_slice(), &[done(1)].as_slice());
    same(rt, &authorities, &(Some(rank(0)), None));
    same(rt, &gate.seen(), &(2, 72, 72));
}

#[test]
fn turns_of_two_ranks_meet(rt: HostRuntime) {
    try_often(&rt, Trial::MeetingTurns, 1)
}
