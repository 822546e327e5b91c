//! Phases on a new board.
ghost use Rattle.std.specs.Prelude.{◌≡◌, ◌≤◌};

use crate::phases::work::{
    Work, asked, deal, first_of, parent_of, pass_on, pass_second, rank, scripts,
};
use crate::times::nanos;
use authority_map::{MapReader, Publisher};
use export_protocol::{Event, Reply};
use heat_ledger::Share;
use mds_board::Board;
use mds_types::limits::DIR_LIMIT;
use mds_types::{Dir, Kind, Order};
use phased_board::Unsettled;
use proof_names::Naming;
use rank_threads::{Gates, Hands, OpenGate, Tasks, export_phase, serve_phase, traffic_phase};
use std::alloc::Global;
use std::marker::{Send, Sync};
use std::sync::Wait;
use std::thread::Threads;
use std::time::{Clock, Duration};

/// A phase: of all ranks at once, in threads, or of requests on one thread. Both kinds of work go on at once, or one
/// after the other.
#[derive(Clone, Copy)]
pub struct Phase {
    pub work: Work,
    pub at_once: bool,
}

// The wall time, or nothing where the system doesn't give it.
fn wall<C: Clock>(rt: &C) -> Duration {
    rt.monotonic().unwrap_or(Duration::ZERO)
}

// Nanoseconds of wall time since an earlier reading of the clock.
fn wall_since<C: Clock>(rt: &C, start: Duration) -> u64 {
    nanos(wall(rt).saturating_sub(start))
}

// Makes a directory, and says whether that was done.
fn make_one<J: Naming, M: Publisher<J>>(
    alloc: Global,
    board: &mut Board<J, M>,
    parent: Dir,
    number: u32,
) -> bool {
    match format!(in alloc; "d{number}") {
        Ok(name) => board.make(alloc, parent, name.as_str(), 1).is_ok(),
        Err(_) => false,
    }
}

// Makes `dirs` directories, the root with them, and gives each rank those of its own. It says whether that was done.
fn make<J: Naming + Send + Sync, M: Publisher<J> + Send, R: Threads + Wait + Sync>(
    rt: &R,
    alloc: Global,
    mut board: Board<J, M>,
    ranks: u8,
    dirs: u32,
) -> (Board<J, M>, bool) {
    let mut done = true;
    for number in 1..dirs {
        done &= make_one(alloc, &mut board, parent_of(ranks, dirs, number), number);
    }
    let Ok(orders) = deal(alloc, ranks, dirs) else {
        return (board, false);
    };
    let board = export(rt, alloc, board, &orders);
    let is_dealt = are_there(&board, &orders);
    (board, done && is_dealt)
}

fn serve_alone<J: Naming, M: Publisher<J>>(
    alloc: Global,
    board: &mut Board<J, M>,
    number: u8,
    script: &[rank_threads::Work],
    share: &mut Share<J>,
) {
    for work in script {
        if let Ok(Reply::Ticket(ticket)) = board.begin(share, rank(number), work.dir) {
            for _ in 0..work.hits {
                let _ = share.hit(work.dir, work.kind);
            }
            let _ = board.step(alloc, Event::End(ticket));
        }
    }
    let _ = board.deposit(alloc, share);
}

fn serve<J: Naming + Send + Sync, M: Publisher<J> + Send, R: Threads + Wait + Sync>(
    rt: &R,
    alloc: Global,
    mut board: Board<J, M>,
    scripts: &[Vec<rank_threads::Work>],
    mut shares: Vec<Share<J>>,
    at_once: bool,
) -> Board<J, M> {
    if at_once && scripts.len() <= 64 && shares.len() == scripts.len() {
        let (after, _ranks) = serve_phase(rt, alloc, board, &OpenGate, scripts, shares);
        return after;
    }
    let mut number: u8 = 0;
    for (script, share) in scripts.iter().zip(shares.iter_mut()) {
        serve_alone(alloc, &mut board, number, script, share);
        number = number.wrapping_add(1);
    }
    board
}

// How many hits the board counts on the first directory of each rank, which has so many.
fn counted<J: Naming, M: Publisher<J>>(board: &Board<J, M>, ranks: u8, each: u32) -> u64 {
    let mut counted: u64 = 0;
    for number in 0..ranks {
        counted = counted.saturating_add(board.counted(first_of(number, each), Kind::Read));
    }
    counted
}

// The time of a phase of requests, each of which has to be served.
fn time_serve<J: Naming + Send + Sync, M: Publisher<J> + Send, R: Threads + Wait + Clock + Sync>(
    rt: &R,
    alloc: Global,
    board: Board<J, M>,
    shares: Vec<Share<J>>,
    scripts: &[Vec<rank_threads::Work>],
    wanted: u64,
    at_once: bool,
) -> u64 {
    let start = wall(rt);
    let board = serve(rt, alloc, board, scripts, shares, at_once);
    let time = wall_since(rt, start);
    let is_served = counted(&board, scripts.len().min(64) as u8, 1) == wanted;
    board.end();
    if is_served { time } else { u64::MAX }
}

fn export<J: Naming + Send + Sync, M: Publisher<J> + Send, R: Threads + Wait + Sync>(
    rt: &R,
    alloc: Global,
    board: Board<J, M>,
    orders: &[Order],
) -> Board<J, M> {
    let (after, _outcomes) = export_phase(rt, alloc, board, &OpenGate, orders);
    after
}

// Whether each order's first directory is where the order takes it.
fn are_there<J: Naming, M: Publisher<J>>(board: &Board<J, M>, orders: &[Order]) -> bool {
    let mut all = true;
    for order in orders {
        if let Some(dir) = order.dirs.as_slice().first() {
            all &= board.cluster().authority(*dir) == Some(order.to);
        }
    }
    all
}

// The time of a phase of exports, each of which has to be done.
fn time_export<J: Naming + Send + Sync, M: Publisher<J> + Send, R: Threads + Wait + Clock + Sync>(
    rt: &R,
    alloc: Global,
    board: Board<J, M>,
    orders: &[Order],
) -> u64 {
    let start = wall(rt);
    let board = export(rt, alloc, board, orders);
    let time = wall_since(rt, start);
    let is_done = are_there(&board, orders);
    board.end();
    if is_done { time } else { u64::MAX }
}

fn serve_and_export<J: Naming + Send + Sync, M: Publisher<J> + Send, R: Threads + Wait + Sync>(
    rt: &R,
    alloc: Global,
    board: Board<J, M>,
    hands: Hands<J, MapReader<J>>,
    tasks: Tasks<'_>,
    at_once: bool,
) -> Board<J, M> {
    let ranks = tasks.scripts.len();
    if at_once && ranks <= 64 && hands.shares.len() == ranks && hands.ways.len() == ranks {
        let mut unsettled = Unsettled::new(alloc);
        let gates = Gates::same(&OpenGate);
        let (after, _left) = traffic_phase(rt, alloc, board, hands, tasks, gates, &mut unsettled);
        return after;
    }
    let board = serve(rt, alloc, board, tasks.scripts, hands.shares, true);
    export(rt, alloc, board, tasks.orders)
}

// The time of requests and exports, each of which has to be served or done.
fn time_both<J: Naming + Send + Sync, M: Publisher<J> + Send, R: Threads + Wait + Clock + Sync>(
    rt: &R,
    alloc: Global,
    board: Board<J, M>,
    hands: Hands<J, MapReader<J>>,
    tasks: Tasks<'_>,
    wanted: u64,
    at_once: bool,
) -> u64 {
    let start = wall(rt);
    let board = serve_and_export(rt, alloc, board, hands, tasks, at_once);
    let time = wall_since(rt, start);
    let is_served = counted(&board, tasks.scripts.len().min(64) as u8, 2) == wanted;
    let is_done = are_there(&board, tasks.orders);
    board.end();
    if is_served && is_done { time } else { u64::MAX }
}

// How many directories the board of a phase has, the root with them.
fn dirs_for(work: Work, ranks: u8) -> u32 {
    match work {
        Work::Serve(_) => u32::from(ranks) + 1,
        Work::Export => DIR_LIMIT,
        Work::Both(_) => u32::from(ranks) * 2 + 1,
    }
}

/// The nanoseconds of wall time of a phase on a new board, and the board's end. In a phase of exports each rank gives
/// its directories to the next.
pub fn time_phase<
    J: Naming + Send + Sync,
    M: Publisher<J> + Send,
    R: Threads + Wait + Clock + Sync,
>(
    rt: &R,
    alloc: Global,
    board: Board<J, M>,
    hands: Hands<J, MapReader<J>>,
    ranks: u8,
    phase: Phase,
) -> u64 {
    let (board, is_made) = make(rt, alloc, board, ranks, dirs_for(phase.work, ranks));
    if is_made {
        return time_made(rt, alloc, board, hands, ranks, phase);
    }
    board.end();
    u64::MAX
}

// The time of a phase on a board whose directories are dealt.
fn time_made<J: Naming + Send + Sync, M: Publisher<J> + Send, R: Threads + Wait + Clock + Sync>(
    rt: &R,
    alloc: Global,
    board: Board<J, M>,
    hands: Hands<J, MapReader<J>>,
    ranks: u8,
    phase: Phase,
) -> u64 {
    let at_once = phase.at_once;
    match phase.work {
        Work::Serve(hits) => {
            if let Ok(scripts) = scripts(alloc, ranks, hits, 1) {
                let wanted = asked(ranks, hits);
                return time_serve(rt, alloc, board, hands.shares, &scripts, wanted, at_once);
            }
        }
        Work::Export => {
            if let Ok(orders) = pass_on(alloc, ranks, DIR_LIMIT) {
                return time_export(rt, alloc, board, &orders);
            }
        }
        Work::Both(hits) => {
            if let Ok(scripts) = scripts(alloc, ranks, hits, 2)
                && let Ok(orders) = pass_second(alloc, ranks)
            {
                let tasks = Tasks {
                    scripts: &scripts,
                    orders: &orders,
                    stops: &[],
                };
                let wanted = asked(ranks, hits);
                return time_both(rt, alloc, board, hands, tasks, wanted, at_once);
            }
        }
    }
    board.end();
    u64::MAX
}
