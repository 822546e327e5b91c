//! Requests while a directory goes from rank 0 to rank 1.
ghost use Rattle.std.specs.Prelude.{◌≡◌, ◌≤◌, vec_len};
ghost use Rattle.heat_ledger.specs.Ledger.{weight_of};

use crate::boards::{Trial, on_board};
use crate::gates::{HeldGate, JitterGate};
use crate::phase::{Seats, phase, scripts, total};
use crate::same::{Sure, holds_in, same};
use crate::steps::{Do, make, moved, orders, play, rank};
use authority_map::{Found, MapReader, Publisher};
use heat_ledger::Share;
use mds_board::{Board, BoardParts, History, Shown};
use mds_types::{Dir, Kind};
use phased_board::Unsettled;
use proof_names::Naming;
use rank_threads::{Gates, Hands, Outcome, Tasks, traffic_with_totals};
use std::alloc::Global;
use std::marker::{Send, Sync};
use std::process::Abort;
use std::sync::Wait;
use std::thread::Threads;

/// Directory 1 goes from rank 0 to rank 1.
pub(crate) const MOVE: &[(u8, u8, u32)] = &[(0, 1, 1)];

/// An export meets a request, on which it can't freeze the directory. One of both would wait in vain where one thread
/// does all, where the exports are carried out before the requests or after them, or where the board stays locked while
/// hits are counted.
pub(crate) fn hold<
    J: Naming + Send + Sync,
    M: Publisher<J> + Send,
    R: Abort + Threads + Wait + Sync,
>(rt: &R, alloc: Global, board: Board<J, M>, seats: Seats<J>) {
    let mut board = board;
    make(rt, alloc, &mut board, &["a"]);
    let scripts = scripts(alloc, &[(1, 5), (0, 2)], 1).sure(rt);
    let orders = orders(alloc, MOVE).sure(rt);
    let tasks = Tasks {
        scripts: &scripts,
        orders: &orders,
        stops: &[],
    };
    let gate = HeldGate::new();
    let (board, _seats, told) = phase(rt, alloc, board, seats, tasks, &gate);
    same(rt, &gate.met(), &2);
    same(rt, &total(&told.answers), &(7, 2));
    let aborted = [Outcome::Aborted(0)];
    same(rt, &told.outcomes.as_slice(), &aborted.as_slice());
    same(rt, &board.counted(Dir::new(1), Kind::Read), &5);
    same(rt, &board.counted(Dir::ROOT, Kind::Read), &2);
    board.end();
}

#[test]
fn an_export_runs_beside_a_request(rt: HostRuntime) {
    on_board(&rt, &rt, Trial::Held)
}

// Whether the export of the one order was started.
fn is_started(outcomes: &[Outcome]) -> bool {
    matches!(
        outcomes.first(),
        Some(Outcome::Done(0) | Outcome::Aborted(0) | Outcome::Open(0))
    )
}

// The board counts on directory 1 so many hits and requests. A reader that learns what the board tells finds the
// authority.
fn check<J: Naming, M: Publisher<J>>(
    rt: &impl Abort,
    board: &Board<J, M>,
    readers: &mut [MapReader<J>],
    wanted: (u64, u64),
) {
    let dir = Dir::new(1);
    let counts = (board.counted(dir, Kind::Read), board.begun(dir));
    same(rt, &counts, &wanted);
    let authority = board.cluster().authority(dir).unwrap_or(rank(63));
    for reader in readers {
        reader.learn(board.tell());
        same(rt, &reader.find(dir), &Found::Rank(authority));
    }
}

/// Two ranks ask 1,000 times each for the directory that moves, and again when a rank has stopped.
pub(crate) fn serve_and_move<
    J: Naming + Send + Sync,
    M: Publisher<J> + Send,
    R: Abort + Threads + Wait + Sync,
>(rt: &R, alloc: Global, board: Board<J, M>, seats: Seats<J>, stopped: u8) {
    let mut board = board;
    make(rt, alloc, &mut board, &["a"]);
    assert!(rt; board.publish());
    let scripts = scripts(alloc, &[(1, 3), (1, 2)], 1_000).sure(rt);
    let orders = orders(alloc, MOVE).sure(rt);
    let tasks = Tasks {
        scripts: &scripts,
        orders: &orders,
        stops: &[],
    };
    let (mut board, mut seats, told) = phase(rt, alloc, board, seats, tasks, &JitterGate);
    holds_in(rt, is_started(&told.outcomes), &told.outcomes);
    let first = total(&told.answers);
    check(rt, &board, &mut seats.hands.ways, first);
    play(rt, alloc, &mut board, "between", &[Do::Stop(stopped)]);
    let (board, mut seats, told) = phase(rt, alloc, board, seats, tasks, &JitterGate);
    let (hits, begun) = total(&told.answers);
    let both = (first.0.wrapping_add(hits), first.1.wrapping_add(begun));
    check(rt, &board, &mut seats.hands.ways, both);
    board.end();
}

#[test]
fn requests_are_served_while_a_directory_moves(rt: HostRuntime) {
    for _ in 0..50 {
        on_board(&rt, &rt, Trial::AtOnce(0));
        on_board(&rt, &rt, Trial::AtOnce(1));
    }
}

// How many requests on directory 1 began at a rank.
fn begun_at(history: &History, rank: u8) -> u32 {
    let mut begun: u32 = 0;
    for number in 0..history.len() {
        if let Shown::Began(at, dir, _) = history.at(number) {
            let is_there = at.number() == rank && dir.number() == 1;
            begun = begun.wrapping_add(u32::from(is_there));
        }
    }
    begun
}

/// The thread of rank 0 asks at rank 1 for what rank 1 has, and at rank 0 for what nobody has.
pub(crate) fn ask_by_map<
    J: Naming + Send + Sync,
    M: Publisher<J> + Send,
    R: Abort + Threads + Wait + Sync,
>(rt: &R, alloc: Global, board: Board<J, M>, seats: Seats<J>) {
    let (mut board, mut seats) = (board, seats);
    make(rt, alloc, &mut board, &["a"]);
    let (board, outcomes) = moved(rt, alloc, board, &mut seats.unsettled, MOVE);
    let _outcomes = outcomes.sure(rt);
    let scripts = scripts(alloc, &[(1, 3), (7, 2)], 1).sure(rt);
    let tasks = Tasks {
        scripts: &scripts,
        orders: &[],
        stops: &[],
    };
    let (board, _seats, told) = phase(rt, alloc, board, seats, tasks, &JitterGate);
    same(rt, &total(&told.answers), &(3, 1));
    same(rt, &begun_at(board.history(), 1), &1);
    board.end();
}

#[test]
fn requests_are_asked_where_the_map_says(rt: HostRuntime) {
    on_board(&rt, &rt, Trial::ByMap)
}

fn serve_whole<J: Naming + Send + Sync, M: Publisher<J> + Send, R: Abort + Threads + Wait + Sync>(
    rt: &R,
    alloc: Global,
    board: Board<J, M>,
    shares: Vec<Share<J>>,
    readers: Vec<MapReader<J>>,
)
    requires shares { vec_len shares ≡ 2 }
    requires whole { weight_of shares.items ≡ board.shares }
{
    let scripts = scripts(alloc, &[(0, 5), (0, 2)], 1).sure(rt);
    let tasks = Tasks {
        scripts: &scripts,
        orders: &[],
        stops: &[],
    };
    let mut none = Unsettled::new(alloc);
    let gates = Gates::same(&JitterGate);
    assert!(rt; scripts.len() == 2 && readers.len() == 2);
    let hands = Hands {
        shares,
        ways: readers,
    };
    let (board, done) = traffic_with_totals(rt, alloc, board, hands, tasks, gates, &mut none);
    let totals = (board.begun(Dir::ROOT), board.counted(Dir::ROOT, Kind::Read));
    board.end();
    assert!(rt; done.is_ok());
    same(rt, &totals, &(2, 7));
}

/// The board counts what the requests of a phase begin and hit, for a caller that has all shares.
pub(crate) fn add_up<
    J: Naming + Send + Sync,
    M: Publisher<J> + Send,
    R: Abort + Threads + Wait + Sync,
>(rt: &R, alloc: Global, parts: BoardParts<J, M>, readers: Vec<MapReader<J>>, limit: u32)
    requires limit { (limit ≡ J.limit) × (1 ≤ limit) × (limit ≤ 65536) }
{
    match Board::new(alloc, parts, limit, 2) {
        Ok((board, shares)) => serve_whole(rt, alloc, board, shares, readers),
        Err(_parts) => panic!(rt; "no board"),
    }
}

#[test]
fn totals_rise_by_the_answers(rt: HostRuntime) {
    on_board(&rt, &rt, Trial::Totals)
}
