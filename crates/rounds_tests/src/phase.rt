//! A phase of requests and exports, and what it leaves.

use authority_map::{MapReader, Publisher};
use mds_board::Board;
use mds_types::{Dir, Kind};
use phased_board::{Gate, Unsettled};
use proof_names::Naming;
use rank_threads::{Gates, Hands, Outcome, Tasks, Traffic, Work, WorkAnswer, traffic_phase};
use std::alloc::{AllocError, Global};
use std::marker::{Send, Sync};
use std::process::Abort;
use std::sync::Wait;
use std::thread::Threads;

/// What is kept from one phase to the next beside the board.
#[derive(Drop)]
pub(crate) struct Seats<J: Naming> {
    pub(crate) hands: Hands<J, MapReader<J>>,
    pub(crate) unsettled: Unsettled,
}

/// What a phase says of its requests and orders, and whether it was refused once.
#[derive(Drop)]
pub(crate) struct Told {
    pub(crate) answers: Vec<Vec<WorkAnswer>>,
    pub(crate) outcomes: Vec<Outcome>,
    pub(crate) refused: bool,
}

fn script(alloc: Global, dir: u32, hits: u32, times: u32) -> Result<Vec<Work>, AllocError> {
    let mut script = Vec::new(alloc);
    for _ in 0..times {
        script.push(Work {
            dir: Dir::new(dir),
            hits,
            kind: Kind::Read,
        })?;
    }
    Ok(script)
}

/// A script for each rank: a request on this directory with so many hits, again and again.
pub(crate) fn scripts(
    alloc: Global,
    rows: &[(u32, u32)],
    times: u32,
) -> Result<Vec<Vec<Work>>, AllocError> {
    let mut scripts = Vec::new(alloc);
    for (dir, hits) in rows {
        scripts.push(script(alloc, *dir, *hits, times)?)?;
    }
    Ok(scripts)
}

/// The hits that answers name, and how many requests have a ticket.
pub(crate) fn total(answers: &[Vec<WorkAnswer>]) -> (u64, u64) {
    let mut hits: u64 = 0;
    let mut begun: u64 = 0;
    for list in answers {
        for answer in list {
            hits = hits.wrapping_add(u64::from(answer.hits));
            begun = begun.wrapping_add(u64::from(answer.ticket.is_some()));
        }
    }
    (hits, begun)
}

// Each reader learns what the board tells.
fn learn<J: Naming, M: Publisher<J>>(board: &Board<J, M>, readers: &mut [MapReader<J>]) {
    for reader in readers {
        reader.learn(board.tell());
    }
}

// Tries a phase. Where it is refused memory, nothing is told.
fn try_phase<
    J: Naming + Send + Sync,
    M: Publisher<J> + Send,
    R: Abort + Threads + Wait + Sync,
    G: Gate + Sync,
>(
    rt: &R,
    alloc: Global,
    board: Board<J, M>,
    seats: Seats<J>,
    tasks: Tasks<'_>,
    gate: &G,
) -> (Board<J, M>, Seats<J>, Option<Told>) {
    let Seats {
        hands,
        mut unsettled,
    } = seats;
    let ranks = tasks.scripts.len();
    assert!(rt; ranks <= 64 && hands.shares.len() == ranks && hands.ways.len() == ranks);
    let gates = Gates::same(gate);
    let (board, done) = traffic_phase(rt, alloc, board, hands, tasks, gates, &mut unsettled);
    let (hands, told) = match done {
        Ok(traffic) => taken(rt, traffic),
        Err(refused) => (refused.value, None),
    };
    (board, Seats { hands, unsettled }, told)
}

// What a phase leaves, in which each request ended.
fn taken<J: Naming>(rt: &impl Abort, left: Traffic<J>) -> (Hands<J, MapReader<J>>, Option<Told>) {
    let Traffic {
        ranks,
        readers,
        exported,
    } = left;
    assert!(rt; ranks.ended.is_ok() && exported.stopped.is_ok());
    let told = Told {
        answers: ranks.answers,
        outcomes: exported.outcomes,
        refused: false,
    };
    let hands = Hands {
        shares: ranks.shares,
        ways: readers,
    };
    (hands, Some(told))
}

/// A phase for readers that know all that is published, with one gate for requests and rounds. Where it is refused
/// memory, it is tried again.
pub(crate) fn phase<
    J: Naming + Send + Sync,
    M: Publisher<J> + Send,
    R: Abort + Threads + Wait + Sync,
    G: Gate + Sync,
>(
    rt: &R,
    alloc: Global,
    board: Board<J, M>,
    seats: Seats<J>,
    tasks: Tasks<'_>,
    gate: &G,
) -> (Board<J, M>, Seats<J>, Told) {
    let mut seats = seats;
    learn(&board, &mut seats.hands.ways);
    let (board, seats, told) = try_phase(rt, alloc, board, seats, tasks, gate);
    if let Some(told) = told {
        return (board, seats, told);
    }
    let (board, seats, told) = try_phase(rt, alloc, board, seats, tasks, gate);
    let Some(mut told) = told else {
        panic!(rt; "no memory")
    };
    told.refused = true;
    (board, seats, told)
}
