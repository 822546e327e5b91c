//! A phase of requests and exports.
ghost use Rattle.std.specs.Prelude.{◌≡◌, ◌≤◌, IfErr, IfOk, OnErr, length, map, true, vec_len};
ghost use Rattle.phased_board.specs.Going.{WentOnWithStops};
ghost use Rattle.phased_board.specs.Stops.{AreStopped, ranks_of};
ghost use Rattle.rank_threads.specs.Phases.{AreExported, AreRequestsServed, IsPrepared};
ghost use Rattle.rank_threads.specs.Ways.{ByMap};

use crate::exporting::{Exported, Prepared, carry_out, close_exports, prepare};
use crate::laying::{Hands, lay};
use crate::phase::{Ranks, close, serve_ranks};
use crate::work::Work;
use authority_map::{MapReader, Publisher};
use mds_board::{Board, BoardError};
use mds_types::Order;
use phased_board::{Gate, Known, Phase, Phased, RankStop, Unsettled};
use proof_names::Naming;
use std::alloc::{AllocFailed, Global};
use std::marker::{Brand, Send, Sync};
use std::sync::{Mutex, Wait};
use std::thread::Threads;

/// What a phase leaves.
#[derive(Drop)]
pub struct Traffic<J: Naming> {
    /// The shares of the ranks and the answers to their requests, in rank order.
    pub ranks: Ranks<J>,
    /// The reader of each rank, in rank order.
    pub readers: Vec<MapReader<J>>,
    /// What became of the orders and the stops.
    pub exported: Exported,
}

/// What is done in a phase.
#[derive(Clone, Copy)]
pub struct Tasks<'a> {
    /// The requests of each rank's thread.
    pub scripts: &'a [Vec<Work>],
    /// The exports.
    pub orders: &'a [Order],
    /// The ranks that stop, each before the turns of its round.
    pub stops: &'a [RankStop],
}

/// What is called around the work of a phase.
#[derive(Drop)]
pub struct Gates<'a, G: Gate, H: Gate> {
    /// Around each request.
    pub requests: &'a G,
    /// Around each turn of a rank in a round.
    pub rounds: &'a H,
}

impl<'a, G: Gate> Gates<'a, G, G> {
    /// One gate, around both.
    pub fn same(gate: &'a G) -> Gates<'a, G, G>
        ensures { (result.requests.now ≡ gate.now) × (result.rounds.now ≡ gate.now) }
    {
        Gates {
            requests: gate,
            rounds: gate,
        }
    }
}

// The phase over a board that `K` names.
fn traffic_named<
    J: Naming + Send + Sync,
    M: Publisher<J> + Send,
    K: Phase + Send + Sync,
    R: Threads + Wait + Sync,
    G: Gate + Sync,
    H: Gate + Sync,
>(
    rt: &R,
    alloc: Global,
    board: Board<J, M>,
    prepared: Prepared,
    hands: Hands<J, MapReader<J>>,
    tasks: Tasks<'_>,
    gates: Gates<'_, G, H>,
) -> (
    Board<J, M>,
    Result<Traffic<J>, AllocFailed<Hands<J, MapReader<J>>>>,
)
    requires board { board ≡ K.before }
    requires orders { tasks.orders.now ≡ K.orders }
    requires stops { tasks.stops.now ≡ K.stops }
    requires requests { K.requests ≡ true }
    requires exports { K.exports ≡ true }
    requires log { prepared.names.log ≡ K.log }
    requires tickets { prepared.names.tickets ≡ K.numbers }
    requires prepared { IsPrepared K.before K.orders prepared }
    requires few { length tasks.scripts.now ≤ 64 }
    requires equal { vec_len hands.shares ≡ length tasks.scripts.now }
    requires readers { vec_len hands.ways ≡ length tasks.scripts.now }
    ensures board { WentOnWithStops true true (ranks_of K.stops) K.before result.0 }
    ensures served { IfOk result.1 (λ t. AreRequestsServed J.limit K.before result.0 hands.shares.items
        (map ByMap hands.ways.items) tasks.entry.scripts.now t.ranks (map ByMap t.readers.items)) }
    ensures exported { IfOk result.1 (λ t. AreExported K.before result.0 K.orders K.stops t.exported) }
    ensures memory { IfErr result.1 (λ e. e.value ≡ hands) }
    ensures unchanged { OnErr result.1 (result.0 ≡ K.before) }
{
    let laid = match lay::<J, MapReader<J>, K>(alloc, tasks.scripts, hands) {
        Ok(laid) => laid,
        Err(refused) => return (board, Err(refused)),
    };
    let Prepared {
        outcomes,
        standings,
        ranks: places,
        names,
    } = prepared;
    let Gates { requests, rounds } = gates;
    let first = board.history().len();
    let cell = Mutex::new(Phased::<J, M, K>::new(board, standings, true, names));
    let (joined, stopping) = serve_ranks(
        rt,
        alloc,
        &cell,
        requests,
        tasks.scripts,
        laid,
        || -> (Known<K>, Result<(), BoardError>)
            requires { tasks.stops.now ≡ K.stops }
            ensures { AreStopped 8 K.before result.0.seen K.stops result.1 }
        { carry_out(rt, alloc, &cell, rounds, tasks.orders, tasks.stops, places) },
    );
    let (phased, ranks, readers) = close(alloc, cell.into_inner(), first, joined);
    let (board, exported) = close_exports(phased, stopping, outcomes);
    let traffic = Traffic {
        ranks,
        readers,
        exported,
    };
    (board, Ok(traffic))
}

/// Serves the requests of each rank in order and carries out orders in eight rounds, both at once, each rank's requests
/// by one thread and its exports by another. `scripts[k]`, `shares[k]` and the reader `ways[k]` are those of rank k's
/// thread of requests. It asks each request at the rank that its reader finds at that moment, and at rank 0 where the
/// map has the directory nowhere. Where the reader finds the map closed, what is published is looked up under the lock.
///
/// Meanwhile ranks stop, each before the turns of its round. A stopped rank's requests end, and more are refused.
///
/// Hits are deposited as by `serve_phase`, and what isn't logged is aborted as by `export_phase`.
///
/// All memory is asked for before the first event; where it is refused, board, shares and readers come back as they
/// were. `unsettled` is what the board's earlier phases left.
pub fn traffic_phase<
    J: Naming + Send + Sync,
    M: Publisher<J> + Send,
    R: Threads + Wait + Sync,
    G: Gate + Sync,
    H: Gate + Sync,
>(
    rt: &R,
    alloc: Global,
    board: Board<J, M>,
    hands: Hands<J, MapReader<J>>,
    tasks: Tasks<'_>,
    gates: Gates<'_, G, H>,
    unsettled: &mut Unsettled,
) -> (
    Board<J, M>,
    Result<Traffic<J>, AllocFailed<Hands<J, MapReader<J>>>>,
)
    requires few { length tasks.scripts.now ≤ 64 }
    requires equal { vec_len hands.shares ≡ length tasks.scripts.now }
    requires readers { vec_len hands.ways ≡ length tasks.scripts.now }
    ensures board { WentOnWithStops true true (ranks_of tasks.entry.stops.now) board result.0 }
    ensures served { IfOk result.1 (λ t. AreRequestsServed J.limit board result.0 hands.shares.items
        (map ByMap hands.ways.items) tasks.entry.scripts.now t.ranks (map ByMap t.readers.items)) }
    ensures exported { IfOk result.1
        (λ t. AreExported board result.0 tasks.entry.orders.now tasks.entry.stops.now t.exported) }
    ensures memory { IfErr result.1 (λ e. e.value ≡ hands) }
    ensures unchanged { OnErr result.1 (result.0 ≡ board) }
{
    let Ok(prepared) = prepare(alloc, &board, tasks.orders, unsettled) else {
        return (board, Err(AllocFailed { value: hands }));
    };
    traffic_named::<J, M, Brand, R, G, H>(rt, alloc, board, prepared, hands, tasks, gates)
}
