//! Phases for a caller that has all shares of the ledger.
//!
//! On each directory below the limit the board's requests rise by the answers with a ticket, and its hits, with those
//! that are pending, by the hits that the answers name.
ghost use Rattle.std.specs.Global.{Global as TheGlobal};
ghost use Rattle.std.specs.Prelude.{◌≡◌, ◌≤◌, IfErr, IfOk, List, OnErr, Vec as TheVec, false, length, map, true};
ghost use Rattle.std.specs.Prelude.{vec_len};
ghost use Rattle.heat_ledger.specs.Ledger.{ShareData, weight_of};
ghost use Rattle.mds_board.specs.History.{World};
ghost use Rattle.phased_board.specs.Going.{WentOnBy, WentOnWithStops};
ghost use Rattle.phased_board.specs.Stops.{ranks_of};
ghost use Rattle.rank_threads.specs.declared.work.Work.{Work as TheWork};
ghost use Rattle.rank_threads.specs.Phases.{AreExported, AreRequestsServed};
ghost use Rattle.rank_threads.specs.Totals.{CountsAll, RoseByAnswers};
ghost use Rattle.rank_threads.specs.Ways.{ByMap, Way, own_ranks};

use crate::laying::Hands;
use crate::phase::{Ranks, serve_phase};
use crate::traffic::{Gates, Tasks, Traffic, traffic_phase};
use crate::work::Work;
use authority_map::{MapReader, Publisher};
use heat_ledger::Share;
use mds_board::Board;
use phased_board::{Gate, Unsettled};
use proof_names::Naming;
use std::alloc::{AllocFailed, Global};
use std::marker::{Send, Sync};
use std::sync::Wait;
use std::thread::Threads;

// The board counts what all shares of its ledger count. It changes nothing.
fn audited<J: Naming, M: Publisher<J>>(
    board: Board<J, M>,
    shares: Vec<Share<J>>,
) -> (Board<J, M>, Vec<Share<J>>)
    requires { weight_of shares.items ≡ board.shares }
    ensures same { (result.0 ≡ board) × (result.1.items ≡ shares.items) }
    ensures counted { CountsAll board shares.items }
{
    let mut board = board;
    let mut shares = shares;
    board.audit(&mut shares);
    (board, shares)
}

// After a phase that began with all shares, the board has risen by the answers. It changes nothing.
fn add_up<J: Naming, M: Publisher<J>>(board: &mut Board<J, M>, ranks: &mut Ranks<J>)
    requires { weight_of ranks.old.shares.items ≡ board.old.shares }
    ensures same { board.new ≡ board.old }
    ensures served { (before : World) (shares : List ShareData) (ways : List Way)
        (scripts : List (TheVec TheWork TheGlobal)) (later : List Way)
        → AreRequestsServed J.limit before board.old shares ways scripts ranks.old later
        → AreRequestsServed J.limit before board.new shares ways scripts ranks.new later }
    ensures totals { (before : World) (shares : List ShareData) (ways : List Way)
        (scripts : List (TheVec TheWork TheGlobal)) (later : List Way) → CountsAll before shares
        → AreRequestsServed J.limit before board.old shares ways scripts ranks.old later
        → RoseByAnswers J.limit before board.new shares scripts ranks.new }
{
    board.audit(&mut ranks.shares);
}

/// Serves the requests of each rank as `serve_phase` does.
pub fn serve_with_totals<
    J: Naming + Send + Sync,
    M: Publisher<J> + Send,
    R: Threads + Wait + Sync,
    G: Gate + Sync,
>(
    rt: &R,
    alloc: Global,
    board: Board<J, M>,
    gate: &G,
    scripts: &[Vec<Work>],
    shares: Vec<Share<J>>,
) -> (Board<J, M>, Result<Ranks<J>, AllocFailed<Vec<Share<J>>>>)
    requires few { length scripts.now ≤ 64 }
    requires equal { vec_len shares ≡ length scripts.now }
    requires whole { weight_of shares.items ≡ board.shares }
    ensures board { WentOnBy true false board result.0 }
    ensures served { IfOk result.1 (λ ranks. AreRequestsServed J.limit board result.0 shares.items
        (own_ranks 0 (length scripts.now)) scripts.now ranks (own_ranks 0 (length scripts.now))) }
    ensures totals { IfOk result.1 (λ ranks. RoseByAnswers J.limit board result.0 shares.items scripts.now ranks) }
    ensures memory { IfErr result.1 (λ e. e.value.items ≡ shares.items) }
    ensures unchanged { OnErr result.1 (result.0 ≡ board) }
{
    let (board, shares) = audited(board, shares);
    let (mut board, done) = serve_phase(rt, alloc, board, gate, scripts, shares);
    match done {
        Ok(mut ranks) => {
            add_up(&mut board, &mut ranks);
            (board, Ok(ranks))
        }
        Err(refused) => (board, Err(refused)),
    }
}

/// Serves requests and carries out orders as `traffic_phase` does.
pub fn traffic_with_totals<
    J: Naming + Send + Sync,
    M: Publisher<J> + Send,
    R: Threads + Wait + Sync,
    G: Gate + Sync,
    H: Gate + Sync,
>(
    rt: &R,
    alloc: Global,
    board: Board<J, M>,
    hands: Hands<J, MapReader<J>>,
    tasks: Tasks<'_>,
    gates: Gates<'_, G, H>,
    unsettled: &mut Unsettled,
) -> (
    Board<J, M>,
    Result<Traffic<J>, AllocFailed<Hands<J, MapReader<J>>>>,
)
    requires few { length tasks.scripts.now ≤ 64 }
    requires equal { vec_len hands.shares ≡ length tasks.scripts.now }
    requires readers { vec_len hands.ways ≡ length tasks.scripts.now }
    requires whole { weight_of hands.shares.items ≡ board.shares }
    ensures board { WentOnWithStops true true (ranks_of tasks.entry.stops.now) board result.0 }
    ensures served { IfOk result.1 (λ t. AreRequestsServed J.limit board result.0 hands.shares.items
        (map ByMap hands.ways.items) tasks.entry.scripts.now t.ranks (map ByMap t.readers.items)) }
    ensures totals { IfOk result.1
        (λ t. RoseByAnswers J.limit board result.0 hands.shares.items tasks.entry.scripts.now t.ranks) }
    ensures exported { IfOk result.1
        (λ t. AreExported board result.0 tasks.entry.orders.now tasks.entry.stops.now t.exported) }
    ensures memory { IfErr result.1
        (λ e. (e.value.shares.items ≡ hands.shares.items) × (e.value.ways ≡ hands.ways)) }
    ensures unchanged { OnErr result.1 (result.0 ≡ board) }
{
    let Hands { shares, ways } = hands;
    let (board, shares) = audited(board, shares);
    let hands = Hands { shares, ways };
    let (mut board, done) = traffic_phase(rt, alloc, board, hands, tasks, gates, unsettled);
    match done {
        Ok(mut traffic) => {
            add_up(&mut board, &mut traffic.ranks);
            (board, Ok(traffic))
        }
        Err(refused) => (board, Err(refused)),
    }
}
