//! Requests of two ranks, and what they leave on the board.
ghost use Rattle.std.specs.Prelude.{◌≡◌, IfOk, vec_len};

use crate::boards::{rank, serve_all};
use crate::gates::{JitterGate, MeetingGate};
use crate::same::{Sure, same};
use crate::trials::{Trial, try_often};
use authority_map::Publisher;
use export_protocol::StepError;
use heat_ledger::Share;
use mds_board::{Board, BoardError};
use mds_types::{Dir, Kind};
use proof_names::Naming;
use rank_threads::{Gate, Work, WorkAnswer, WorkError};
use std::alloc::{AllocError, Global};
use std::marker::{Send, Sync};
use std::process::Abort;
use std::sync::Wait;
use std::thread::Threads;

/// A read of a directory.
pub(crate) fn work(dir: u32, hits: u32) -> Work {
    Work {
        dir: Dir::new(dir),
        hits,
        kind: Kind::Read,
    }
}

pub(crate) fn served(ticket: u32, hits: u32) -> WorkAnswer {
    WorkAnswer {
        ticket: Some(ticket),
        hits,
        refused: None,
    }
}

pub(crate) fn refused(error: StepError) -> WorkAnswer {
    WorkAnswer::refused(WorkError::Board(BoardError::Step(error)))
}

/// The scripts of two ranks.
pub(crate) fn scripts(
    alloc: Global,
    first: &[Work],
    second: &[Work],
) -> Result<Vec<Vec<Work>>, AllocError>
    ensures { IfOk result (λ all. vec_len all ≡ 2) }
{
    let mut one = Vec::new(alloc);
    one.extend_from_slice(first)?;
    let mut two = Vec::new(alloc);
    two.extend_from_slice(second)?;
    let mut all = Vec::new(alloc);
    all.push(one)?;
    all.push(two)?;
    Ok(all)
}

// What two ranks answered to these scripts, how many entries the history has then, and how hot /a is.
#[derive(Drop)]
struct Seen {
    first: Vec<WorkAnswer>,
    second: Vec<WorkAnswer>,
    entries: usize,
    heat: u64,
}

fn serve_two<
    J: Naming + Send + Sync,
    M: Publisher<J> + Send,
    R: Abort + Threads + Wait + Sync,
    G: Gate + Sync,
>(
    rt: &R,
    alloc: Global,
    board: Board<J, M>,
    shares: Vec<Share<J>>,
    gate: &G,
    scripts: &[Vec<Work>],
) -> Seen
    requires limit { J.limit ≡ 128 }
{
    let (board, left) = serve_all(rt, alloc, board, gate, scripts, shares);
    let heat = board.heat().heat(Dir::new(1));
    let entries = board.history().len();
    board.end();
    let Some(mut ranks) = left else {
        panic!(rt; "no memory");
    };
    assert!(rt; ranks.deposited.is_ok());
    match (ranks.answers.pop(), ranks.answers.pop()) {
        (Some(second), Some(first)) => Seen {
            first,
            second,
            entries,
            heat,
        },
        _ => panic!(rt; "no answers"),
    }
}

/// Whatever the schedule: rank 0 serves /a, which rank 1 doesn't, and nobody serves a directory that isn't there.
pub(crate) fn serve_with_jitter<
    J: Naming + Send + Sync,
    M: Publisher<J> + Send,
    R: Abort + Threads + Wait + Sync,
>(rt: &R, alloc: Global, board: Board<J, M>, shares: Vec<Share<J>>)
    requires limit { J.limit ≡ 128 }
{
    let one = [work(0, 3), work(1, 5), work(7, 1)];
    let all = scripts(alloc, &one, &[work(1, 2), work(7, 2)]).sure(rt);
    let seen = serve_two(rt, alloc, board, shares, &JitterGate, &all);
    let first = [served(0, 3), served(1, 5), refused(StepError::NoDir)];
    same(rt, &seen.first.as_slice(), &first.as_slice());
    let elsewhere = refused(StepError::Elsewhere(rank(0)));
    let second = [elsewhere, refused(StepError::NoDir)];
    same(rt, &seen.second.as_slice(), &second.as_slice());
    same(rt, &(seen.heat, seen.entries), &(5, 7));
}

#[test]
fn ranks_answer_their_requests(rt: HostRuntime) {
    try_often(&rt, Trial::Requests, 100)
}

/// Both ranks are inside a request at once: neither runs after the other, nor holds the lock between begin and end.
pub(crate) fn meet<
    J: Naming + Send + Sync,
    M: Publisher<J> + Send,
    R: Abort + Threads + Wait + Sync,
>(rt: &R, alloc: Global, board: Board<J, M>, shares: Vec<Share<J>>)
    requires limit { J.limit ≡ 128 }
{
    let all = scripts(alloc, &[work(1, 5)], &[work(1, 2)]).sure(rt);
    let gate = MeetingGate::new();
    let seen = serve_two(rt, alloc, board, shares, &gate, &all);
    same(rt, &gate.met(), &2);
    same(rt, &seen.heat, &5);
}

#[test]
fn requests_of_two_ranks_meet(rt: HostRuntime) {
    try_often(&rt, Trial::Meeting, 1)
}
