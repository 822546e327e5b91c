//! Requests of two ranks on a directory that moves, and past stops.
use crate::boards::{orders, rank, serve};
use crate::gates::JitterGate;
use crate::requests::{refused, scripts, served, work};
use crate::same::{Sure, same_in};
use crate::trials::{Trial, try_often};
use authority_map::Publisher;
use export_protocol::{Event, StepError};
use heat_ledger::Share;
use mds_board::Board;
use proof_names::Naming;
use rank_threads::{Work, WorkAnswer, export_phase};
use std::alloc::Global;
use std::marker::{Send, Sync};
use std::process::Abort;
use std::sync::Wait;
use std::thread::Threads;

/// What is done to a board of two ranks with directory 1.
#[derive(Clone, Copy)]
enum Do {
    /// Each rank serves a request of two hits on the directory.
    Serve,
    /// The directory goes from a rank to a rank.
    Move(u8, u8),
    /// A rank stops.
    Stop(u8),
    /// A rank runs again.
    Restart(u8),
}

/// What is said of a request.
#[derive(Clone, Copy)]
enum Said {
    /// Its two hits were served, with this ticket.
    Served(u32),
    /// Another rank serves the directory.
    Elsewhere(u8),
    /// The rank has stopped.
    Stopped(u8),
}

impl Said {
    fn answer(self) -> WorkAnswer {
        match self {
            Said::Served(ticket) => served(ticket, 2),
            Said::Elsewhere(number) => refused(StepError::Elsewhere(rank(number))),
            Said::Stopped(number) => refused(StepError::Stopped(rank(number))),
        }
    }
}

fn carry_out<J: Naming + Send + Sync, M: Publisher<J> + Send, R: Threads + Wait + Sync>(
    rt: &R,
    alloc: Global,
    board: Board<J, M>,
    from: u8,
    to: u8,
) -> Board<J, M> {
    let Ok(orders) = orders(alloc, &[(from, to, 1)]) else {
        return board;
    };
    let (board, _outcomes) = export_phase(rt, alloc, board, &JitterGate, &orders);
    board
}

fn step<J: Naming + Send + Sync, M: Publisher<J> + Send, R: Threads + Wait + Sync>(
    rt: &R,
    alloc: Global,
    board: Board<J, M>,
    scripts: &[Vec<Work>],
    shares: Vec<Share<J>>,
    next: Do,
    told: &mut Vec<WorkAnswer>,
) -> (Board<J, M>, Vec<Share<J>>) {
    let mut board = board;
    match next {
        Do::Serve => return serve(rt, alloc, board, scripts, shares, told),
        Do::Move(from, to) => return (carry_out(rt, alloc, board, from, to), shares),
        Do::Stop(number) => {
            let _stopped = board.step(alloc, Event::Stop(rank(number)));
        }
        Do::Restart(number) => {
            let _restarted = board.step(alloc, Event::Restart(rank(number)));
        }
    }
    (board, shares)
}

/// What is done, and the answers.
struct Played {
    name: &'static str,
    steps: &'static [Do],
    said: &'static [Said],
}

/// Whatever the schedule, the answers of both ranks in each phase are those of this row, rank 0's first.
pub(crate) fn play_on<
    J: Naming + Send + Sync,
    M: Publisher<J> + Send,
    R: Abort + Threads + Wait + Sync,
>(rt: &R, alloc: Global, board: Board<J, M>, shares: Vec<Share<J>>, row: usize) {
    let Some(played) = PLAYED.get(row) else {
        board.end();
        panic!(rt; "there is no such row")
    };
    let scripts = scripts(alloc, &[work(1, 2)], &[work(1, 2)]).sure(rt);
    let mut told = Vec::new(alloc);
    let (mut board, mut shares) = (board, shares);
    for next in played.steps {
        let (after, back) = step(rt, alloc, board, &scripts, shares, *next, &mut told);
        board = after;
        shares = back;
    }
    board.end();
    same_in(rt, &told.len(), &played.said.len(), &played.name);
    for (at, (answer, said)) in told.iter().zip(played.said).enumerate() {
        same_in(rt, answer, &said.answer(), &(played.name, at));
    }
}

const PLAYED: &[Played] = &[
    Played {
        name: "a directory goes to another rank and back",
        steps: &[
            Do::Serve,
            Do::Move(0, 1),
            Do::Serve,
            Do::Move(1, 0),
            Do::Serve,
        ],
        said: &[
            Said::Served(0),
            Said::Elsewhere(0),
            Said::Elsewhere(1),
            Said::Served(1),
            Said::Served(2),
            Said::Elsewhere(0),
        ],
    },
    Played {
        name: "a rank stops that has given a directory away",
        steps: &[Do::Move(0, 1), Do::Stop(0), Do::Serve],
        said: &[Said::Stopped(0), Said::Served(0)],
    },
    Played {
        name: "a rank stops between two phases, and runs again",
        steps: &[Do::Serve, Do::Stop(0), Do::Serve, Do::Restart(0), Do::Serve],
        said: &[
            Said::Served(0),
            Said::Elsewhere(0),
            Said::Stopped(0),
            Said::Elsewhere(0),
            Said::Served(1),
            Said::Elsewhere(0),
        ],
    },
];

#[test]
fn requests_are_served_past_moves_and_stops(rt: HostRuntime) {
    for row in 0..PLAYED.len() {
        try_often(&rt, Trial::Played(row), 100);
    }
}
