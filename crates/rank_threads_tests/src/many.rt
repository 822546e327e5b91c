//! Many requests of 64 ranks.
ghost use Rattle.std.specs.Prelude.{◌≡◌};

use crate::boards::{orders, running, serve};
use crate::gates::JitterGate;
use crate::requests::work;
use crate::same::{Sure, same, same_in};
use crate::trials::{Trial, try_often};
use authority_map::Publisher;
use heat_ledger::Share;
use mds_board::Board;
use mds_types::{Dir, Order};
use proof_names::Naming;
use rank_threads::{Work, WorkAnswer, export_phase};
use std::alloc::{AllocError, Global};
use std::marker::{Send, Sync};
use std::process::Abort;
use std::sync::Wait;
use std::thread::Threads;

/// Ranks. Rank k serves directory k.
const RANKS: u8 = 64;

/// Requests of all ranks together.
const REQUESTS: u32 = 10_000;

/// Hits of a request.
const HITS: u32 = 3;

// How many of the requests are a rank's.
fn share_of(rank: u8) -> u32 {
    let more = REQUESTS % 64 > u32::from(rank);
    REQUESTS / 64 + u32::from(more)
}

fn scripts(alloc: Global) -> Result<Vec<Vec<Work>>, AllocError> {
    let mut scripts = Vec::new(alloc);
    for rank in 0..RANKS {
        let mut script = Vec::new(alloc);
        for _ in 0..share_of(rank) {
            script.push(work(u32::from(rank), HITS))?;
        }
        scripts.push(script)?;
    }
    Ok(scripts)
}

// Rank k gets directory k, for each rank but 0.
fn spread(alloc: Global) -> Result<Vec<Order>, AllocError> {
    let mut rows = Vec::new(alloc);
    for rank in 1..RANKS {
        rows.push((0, rank, u32::from(rank)))?;
    }
    orders(alloc, &rows)
}

// Each request was served whole with a ticket of its own.
fn are_served(rt: &impl Abort, alloc: Global, answers: &[WorkAnswer]) {
    let mut tickets = Vec::new(alloc);
    for answer in answers {
        same(rt, &(answer.hits, answer.refused), &(HITS, None));
        tickets.push(answer.ticket).sure(rt);
    }
    tickets.sort_unstable();
    same(rt, &tickets.len(), &(REQUESTS as usize));
    for (number, ticket) in (0..REQUESTS).zip(tickets.iter()) {
        same(rt, ticket, &Some(number));
    }
}

/// Rank k serves its requests when it has directory k. Each is served, and has ended.
pub(crate) fn serve_on<
    J: Naming + Send + Sync,
    M: Publisher<J> + Send,
    R: Abort + Threads + Wait + Sync,
>(rt: &R, alloc: Global, board: Board<J, M>, shares: Vec<Share<J>>)
    requires limit { J.limit ≡ 128 }
{
    let orders = spread(alloc).sure(rt);
    let scripts = scripts(alloc).sure(rt);
    let mut answers = Vec::with_capacity(alloc, REQUESTS as usize).sure(rt);
    let (board, _outcomes) = export_phase(rt, alloc, board, &JitterGate, &orders);
    let (board, _shares) = serve(rt, alloc, board, &scripts, shares, &mut answers);
    for rank in 0..RANKS {
        let heat = board.heat().heat(Dir::new(u32::from(rank)));
        same_in(rt, &heat, &(u64::from(share_of(rank)) * 3), &rank);
    }
    same(rt, &running(&board), &0);
    board.end();
    are_served(rt, alloc, &answers);
}

#[test]
fn many_requests_are_served(rt: HostRuntime) {
    try_often(&rt, Trial::ManyRequests, 1)
}
