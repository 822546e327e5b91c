//! Moves that are done, aborted, refused and taken up again, on a board with /a and /b.

use crate::boards::{Trial, on_board};
use crate::same::{Sure, holds_in, same_in};
use crate::steps::{Do, make, moved, play, rank, stand};
use authority_map::Publisher;
use export_protocol::{ExporterState, ImporterState, StepError};
use mds_board::{Board, BoardError};
use phased_board::{Outcome, Unsettled};
use proof_names::Naming;
use std::alloc::Global;
use std::marker::{Send, Sync};
use std::process::Abort;
use std::sync::Wait;
use std::thread::Threads;

/// What is done with a board, or found on it.
#[derive(Clone, Copy)]
pub(crate) enum Act {
    /// These steps are accepted.
    Play(&'static [Do]),
    /// A phase of these orders (the rank that gives, the rank that takes, and the directory) has these outcomes.
    Move(&'static [(u8, u8, u32)], &'static [Told]),
    /// An export has these states.
    States(u32, ExporterState, ImporterState),
    /// The history has this many entries.
    Entries(usize),
    /// The next phase looks at these exports, and at this many messages.
    Unsettled(&'static [u32], usize),
    /// Each of these directories has this authority, which the map names, too.
    Stand(&'static [(u32, u8)]),
}

/// An outcome by its numbers.
#[derive(Clone, Copy)]
pub(crate) enum Told {
    Done(u32),
    Aborted(u32),
    Busy(u32),
    NoRank,
    Stopped(u8),
}

fn outcome(told: Told) -> Outcome {
    match told {
        Told::Done(export) => Outcome::Done(export),
        Told::Aborted(export) => Outcome::Aborted(export),
        Told::Busy(export) => refused(StepError::Busy(export)),
        Told::NoRank => refused(StepError::NoRank),
        Told::Stopped(at) => refused(StepError::Stopped(rank(at))),
    }
}

fn refused(error: StepError) -> Outcome {
    Outcome::Refused(BoardError::Step(error))
}

fn same_outcomes(rt: &impl Abort, found: &[Outcome], told: &[Told], name: &str) {
    same_in(rt, &found.len(), &told.len(), &name);
    for (at, (found, told)) in found.iter().zip(told.iter()).enumerate() {
        same_in(rt, found, &outcome(*told), &(name, at));
    }
}

// Carries out orders, and compares what became of them.
fn move_by<J: Naming + Send + Sync, M: Publisher<J> + Send, R: Abort + Threads + Wait + Sync>(
    rt: &R,
    alloc: Global,
    board: Board<J, M>,
    unsettled: &mut Unsettled,
    name: &str,
    rows: &[(u8, u8, u32)],
    told: &[Told],
) -> Board<J, M> {
    let (board, outcomes) = moved(rt, alloc, board, unsettled, rows);
    same_outcomes(rt, &outcomes.sure(rt), told, name);
    board
}

fn try_act<J: Naming + Send + Sync, M: Publisher<J> + Send, R: Abort + Threads + Wait + Sync>(
    rt: &R,
    alloc: Global,
    board: Board<J, M>,
    unsettled: &mut Unsettled,
    name: &str,
    next: Act,
) -> Board<J, M> {
    let mut board = board;
    if let Act::Move(rows, told) = next {
        return move_by(rt, alloc, board, unsettled, name, rows, told);
    }
    look(rt, alloc, &mut board, unsettled, name, next);
    board
}

// Makes steps, or compares what is found.
fn look<J: Naming, M: Publisher<J>>(
    rt: &impl Abort,
    alloc: Global,
    board: &mut Board<J, M>,
    unsettled: &mut Unsettled,
    name: &str,
    next: Act,
) {
    match next {
        Act::Play(steps) => play(rt, alloc, board, name, steps),
        Act::Move(_, _) => {}
        Act::States(export, exporter, importer) => {
            let states = board.cluster().states(export);
            same_in(rt, &states, &Some((exporter, importer)), &name);
        }
        Act::Entries(entries) => same_in(rt, &board.history().len(), &entries, &name),
        Act::Unsettled(exports, messages) => {
            unsettled.update(board.cluster()).sure(rt);
            holds_in(rt, unsettled.exports() == exports, &name);
            same_in(rt, &unsettled.messages().len(), &messages, &name);
        }
        Act::Stand(rows) => stand(rt, board, name, rows),
    }
}

/// Does it all, one after the other, once /a and /b are made.
pub(crate) fn try_acts<
    J: Naming + Send + Sync,
    M: Publisher<J> + Send,
    R: Abort + Threads + Wait + Sync,
>(rt: &R, alloc: Global, board: Board<J, M>, name: &str, acts: &[Act]) {
    let mut board = board;
    make(rt, alloc, &mut board, &["a", "b"]);
    let mut unsettled = Unsettled::new(alloc);
    for next in acts {
        board = try_act(rt, alloc, board, &mut unsettled, name, *next);
    }
    board.end();
}

const MOVES: &[(&str, &[Act])] = &[
    (
        "directories go to two ranks, and back",
        &[
            Act::Move(&[(0, 1, 1), (0, 2, 2)], &[Told::Done(0), Told::Done(1)]),
            Act::Stand(&[(0, 0), (1, 1), (2, 2)]),
            Act::Unsettled(&[], 0),
            Act::Move(&[(2, 0, 2), (1, 0, 1)], &[Told::Done(3), Told::Done(2)]),
            Act::Stand(&[(0, 0), (1, 0), (2, 0)]),
        ],
    ),
    (
        // Two directories and a stop, and then each move starts an export and aborts it.
        "an export that was aborted makes later moves no longer",
        &[
            Act::Play(&[Do::Stop(1)]),
            Act::Move(&[(0, 1, 1)], &[Told::Aborted(0)]),
            Act::Entries(5),
            Act::Move(&[(0, 1, 1)], &[Told::Aborted(1)]),
            Act::Move(&[(0, 1, 1)], &[Told::Aborted(2)]),
            Act::Entries(9),
            Act::Unsettled(&[], 0),
            Act::Play(&[Do::Restart(1)]),
            Act::Move(&[(0, 1, 1)], &[Told::Done(3)]),
            Act::Stand(&[(1, 1)]),
        ],
    ),
    (
        "orders of a stopped rank are refused",
        &[
            Act::Play(&[Do::Stop(0)]),
            Act::Move(&[(0, 1, 0)], &[Told::Stopped(0)]),
        ],
    ),
    (
        // Orders that are refused are between one that is done and one that comes too late.
        "outcomes are in the order of the orders",
        &[
            Act::Move(
                &[(3, 0, 1), (0, 3, 1), (0, 1, 1), (1, 0, 1)],
                &[Told::NoRank, Told::NoRank, Told::Done(0), Told::Busy(0)],
            ),
            Act::Stand(&[(1, 1)]),
        ],
    ),
    (
        // The exporter stopped before its log entry: the importer hears that the export was aborted.
        "a started import hears of the abort",
        &[
            Act::Play(&[
                Do::Start(0, 1, 1),
                Do::Deliver(0),
                Do::Deliver(1),
                Do::Froze(0),
                Do::Deliver(2),
                Do::Deliver(3),
                Do::Deliver(4),
                Do::Stop(0),
                Do::Restart(0),
            ]),
            Act::States(0, ExporterState::Aborted, ImporterState::Started),
            Act::Unsettled(&[0], 6),
            Act::Move(&[], &[]),
            Act::Unsettled(&[], 0),
            Act::States(0, ExporterState::Aborted, ImporterState::Dropped),
            Act::Stand(&[(1, 0)]),
        ],
    ),
    (
        // The importer stopped before `Finish` came: it asks, and hears that the directory is its own.
        "a started import hears that it is its own",
        &[
            Act::Play(&[
                Do::Start(0, 1, 1),
                Do::Deliver(0),
                Do::Deliver(1),
                Do::Froze(0),
                Do::Deliver(2),
                Do::Deliver(3),
                Do::Deliver(4),
                Do::Deliver(5),
                Do::Notify(0),
                Do::Stop(1),
                Do::Restart(1),
            ]),
            Act::States(0, ExporterState::Done, ImporterState::Started),
            Act::Move(&[(0, 2, 2)], &[Told::Done(1)]),
            Act::States(0, ExporterState::Done, ImporterState::Imported),
            Act::Stand(&[(1, 1), (2, 2)]),
        ],
    ),
    (
        // An export of before the phase to a stopped rank isn't aborted at its end, one of the phase is.
        "exports of before are not aborted",
        &[
            Act::Play(&[Do::Start(0, 1, 1), Do::Stop(1)]),
            Act::Move(&[(0, 1, 2), (0, 2, 1)], &[Told::Aborted(1), Told::Busy(0)]),
            Act::States(0, ExporterState::Discovering, ImporterState::Unknown),
            Act::Unsettled(&[0], 1),
            Act::Play(&[Do::Restart(1)]),
            Act::Move(&[], &[]),
            Act::Unsettled(&[], 0),
            Act::States(0, ExporterState::Done, ImporterState::Imported),
            Act::Stand(&[(1, 1), (2, 0)]),
        ],
    ),
];

#[test]
fn orders_are_done_aborted_refused_and_taken_up(rt: HostRuntime) {
    for (name, acts) in MOVES {
        on_board(&rt, &rt, Trial::Moves(name, acts));
    }
}
