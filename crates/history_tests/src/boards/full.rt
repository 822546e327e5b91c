//! A board that has accepted as many events as it can.

use crate::boards::adopting::plan;
use crate::boards::cases::{Case, Planner, try_case};
use crate::same::{Sure, same};
use authority_map::Publisher;
use export_protocol::Event;
use heat_ledger::Share;
use mds_board::{Board, BoardError};
use mds_types::{Dir, Rank, RankSet};
use proof_names::Naming;
use std::alloc::Global;
use std::marker::Sync;
use std::process::Abort;
use std::thread::Threads;

const FULL: BoardError = BoardError::HistoryFull;

// All places but one are taken. A balance needs two, so it is refused, and a tick takes the last one.
fn fill<J: Naming, M: Publisher<J>, R: Abort + Threads + Sync>(
    rt: &R,
    alloc: Global,
    board: &mut Board<J, M>,
) {
    same(rt, &board.set_mask(RankSet::from_bits(3)), &Ok(()));
    for _ in 0..1_048_574 {
        same(rt, &board.tick(), &Ok(()));
    }
    same(rt, &board.balance(rt, alloc, &Planner).err(), &Some(FULL));
    same(rt, &board.tick(), &Ok(()));
}

// Each of these changes has another cause to be refused, or none.
fn refuse_settings<J: Naming, M: Publisher<J>>(
    rt: &impl Abort,
    alloc: Global,
    board: &mut Board<J, M>,
) {
    let none = Dir::new(7);
    same(rt, &board.tick(), &Err(FULL));
    same(rt, &board.make(alloc, none, "", 1), &Err(FULL));
    same(rt, &board.remove(none), &Err(FULL));
    same(rt, &board.set_pin(none, 9), &Err(FULL));
    same(rt, &board.set_mask(RankSet::from_bits(3)), &Err(FULL));
    same(rt, &board.set_weights(0, 17), &Err(FULL));
}

fn refuse_events<J: Naming, M: Publisher<J>>(
    rt: &impl Abort,
    alloc: Global,
    board: &mut Board<J, M>,
    share: &mut Share<J>,
) {
    let begun = board.begin(share, Rank::default(), Dir::new(7));
    same(rt, &begun, &Err(FULL));
    same(rt, &board.deposit(alloc, share), &Err(FULL));
    same(rt, &board.step(alloc, Event::Deliver(7)), &Err(FULL));
}

fn refuse_plans<J: Naming, M: Publisher<J>, R: Abort + Threads + Sync>(
    rt: &R,
    alloc: Global,
    board: &mut Board<J, M>,
) {
    same(rt, &board.open_problem(alloc).err(), &Some(FULL));
    let adopted = board.adopt(alloc, plan(alloc, 5).sure(rt));
    same(rt, &adopted.err(), &Some(FULL));
    same(rt, &board.balance(rt, alloc, &Planner).err(), &Some(FULL));
}

// Every change is refused for the same cause, before its own.
pub(crate) fn try_on<J: Naming, M: Publisher<J>, R: Abort + Threads + Sync>(
    rt: &R,
    alloc: Global,
    board: &mut Board<J, M>,
    share: &mut Share<J>,
) {
    fill(rt, alloc, board);
    refuse_settings(rt, alloc, board);
    refuse_events(rt, alloc, board, share);
    refuse_plans(rt, alloc, board);
}

#[test]
fn a_full_board_refuses_before_all_else(rt: HostRuntime) {
    try_case(&rt, Case::Full)
}
