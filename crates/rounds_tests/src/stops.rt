//! Ranks stop within a phase: which round it was shows in the history and in the outcomes.

use crate::boards::{Trial, on_board};
use crate::gates::{HeldGate, InTurnGate};
use crate::phase::{Seats, phase, scripts};
use crate::same::{Sure, same, same_in};
use crate::steps::{make, orders, rank};
use crate::traffic::MOVE;
use authority_map::Publisher;
use export_protocol::Event;
use mds_board::{Board, Change, History, Shown};
use mds_types::{Dir, Kind, Rank};
use phased_board::{RankStop, Unsettled};
use proof_names::Naming;
use rank_threads::{Outcome, Tasks, export_phase_with_stops};
use std::alloc::Global;
use std::marker::{Send, Sync};
use std::process::Abort;
use std::sync::Wait;
use std::thread::Threads;

/// A rank that stops before a round while directory 1 goes from rank 0 to rank 1, at which place of the history its
/// stop is, and what became of the export.
#[derive(Clone, Copy, Debug)]
pub(crate) struct Row {
    rank: u8,
    round: u64,
    place: u32,
    became: Became,
}

/// What became of the one order.
#[derive(Clone, Copy, Debug, PartialEq)]
pub(crate) enum Became {
    Done,
    Aborted,
    Open,
    Refused,
}

fn what_became(outcomes: &[Outcome]) -> Option<Became> {
    match outcomes.first() {
        Some(Outcome::Done(0)) => Some(Became::Done),
        Some(Outcome::Aborted(0)) => Some(Became::Aborted),
        Some(Outcome::Open(0)) => Some(Became::Open),
        Some(Outcome::Refused(_)) => Some(Became::Refused),
        _ => None,
    }
}

// Whether a rank stops by a change.
fn is_stop_of(change: &Change, stopped: Rank) -> bool {
    match change {
        Change::Step(event) => match event.event() {
            Event::Stop(at) => *at == stopped,
            _ => false,
        },
        _ => false,
    }
}

// The place of the entry with which a rank stopped, if one is there.
fn place_of(history: &History, stopped: Rank) -> Option<u32> {
    for number in 0..history.len() {
        if let Shown::Other(entry) = history.at(number) {
            if is_stop_of(&entry.change, stopped) {
                return u32::try_from(number).ok();
            }
        }
    }
    None
}

/// A rank stops while a directory moves.
pub(crate) fn stop_one<
    J: Naming + Send + Sync,
    M: Publisher<J> + Send,
    R: Abort + Threads + Wait + Sync,
>(rt: &R, alloc: Global, board: Board<J, M>, row: Row) {
    let mut board = board;
    make(rt, alloc, &mut board, &["a"]);
    let orders = orders(alloc, MOVE).sure(rt);
    let stops = [RankStop {
        rank: rank(row.rank),
        round: row.round,
    }];
    let gate = InTurnGate::new(2);
    let mut left = Unsettled::new(alloc);
    let (board, done) = export_phase_with_stops(
        rt, alloc, board, &gate, &orders, &stops, &mut left,
    );
    let exported = done.sure(rt);
    same_in(rt, &exported.stopped, &Ok(()), &row);
    same_in(
        rt,
        &what_became(&exported.outcomes),
        &Some(row.became),
        &row,
    );
    let place = place_of(board.history(), rank(row.rank));
    same_in(rt, &place, &Some(row.place), &row);
    board.end();
}

// The history begins with the directory. By round the export has these entries: 1 the start, 2 a message, 3 a message
// and that all is frozen, 4, 5 and 6 a message each, 7 a message and the notice, 8 a message.
const ROWS: &[(u8, u64, u32, Became)] = &[
    (0, 1, 1, Became::Refused),
    (0, 2, 2, Became::Aborted),
    (0, 3, 3, Became::Aborted),
    (0, 4, 5, Became::Aborted),
    (0, 5, 6, Became::Aborted),
    (0, 6, 7, Became::Aborted),
    (0, 7, 8, Became::Aborted),
    (0, 8, 10, Became::Done),
    (1, 1, 1, Became::Aborted),
    (1, 2, 2, Became::Aborted),
    (1, 3, 3, Became::Aborted),
    (1, 4, 5, Became::Aborted),
    (1, 5, 6, Became::Aborted),
    (1, 6, 7, Became::Aborted),
    (1, 7, 8, Became::Open),
    (1, 8, 10, Became::Open),
];

#[test]
fn a_rank_stops_before_its_round(rt: HostRuntime) {
    for (rank, round, place, became) in ROWS {
        let row = Row {
            rank: *rank,
            round: *round,
            place: *place,
            became: *became,
        };
        on_board(&rt, &rt, Trial::Stops(row));
    }
}

/// The first request of rank 0 runs through all rounds, and the rank stops meanwhile. The request was accepted, and its
/// hits stay.
pub(crate) fn stop_at_work<
    J: Naming + Send + Sync,
    M: Publisher<J> + Send,
    R: Abort + Threads + Wait + Sync,
>(rt: &R, alloc: Global, board: Board<J, M>, seats: Seats<J>) {
    let mut board = board;
    make(rt, alloc, &mut board, &["a"]);
    let scripts = scripts(alloc, &[(1, 5), (2, 0)], 1).sure(rt);
    let orders = orders(alloc, MOVE).sure(rt);
    let stops = [RankStop {
        rank: rank(0),
        round: 4,
    }];
    let tasks = Tasks {
        scripts: &scripts,
        orders: &orders,
        stops: &stops,
    };
    let gate = HeldGate::new();
    let (board, _seats, told) = phase(rt, alloc, board, seats, tasks, &gate);
    same(rt, &gate.met(), &2);
    same(rt, &what_became(&told.outcomes), &Some(Became::Aborted));
    let counts = (
        board.begun(Dir::new(1)),
        board.counted(Dir::new(1), Kind::Read),
    );
    same(rt, &counts, &(1, 5));
    let place = place_of(board.history(), rank(0));
    same(rt, &place.is_some(), &true);
    board.end();
}

#[test]
fn a_stop_ends_a_request_that_is_under_way(rt: HostRuntime) {
    on_board(&rt, &rt, Trial::StopAtWork)
}
