//! The orders of a board are carried out, by a thread a rank.
ghost use Rattle.std.specs.Prelude.{◌≡◌, ◌≤◌, [], IfOk, Ok, OnErr, false, length, true, vec_capacity};
ghost use Rattle.phased_board.specs.Going.{WentOnBy, WentOnWithStops};
ghost use Rattle.phased_board.specs.Stops.{AreStopped, ranks_of};
ghost use Rattle.rank_threads.specs.Phases.{AreExported, IsPrepared};

use crate::place::Place;
use crate::stopping::Stopping;
use crate::turns::Rounds;
use crate::under_way::UnderWay;
use authority_map::Publisher;
use export_protocol::Event;
use mds_board::{Board, BoardError};
use mds_types::Order;
use phased_board::closing::tell;
use phased_board::desk::set_up;
use phased_board::looks::is_before_log;
use phased_board::starting::waiting;
use phased_board::{
    Breaks, Desk, ExportSide, Gate, Known, Outcome, Phase, PhaseNames, Phased, RankStop, Standing,
    Unsettled,
};
use proof_names::Naming;
use std::alloc::{AllocError, Global};
use std::marker::{Brand, Send, Sync};
use std::sync::{Mutex, Wait};
use std::thread;
use std::thread::Threads;

/// The ranks of a phase: what each has to look after, and its place.
#[derive(Drop)]
pub struct Places {
    desks: Vec<Desk>,
    places: Vec<Place>,
}

/// What a phase of exports asks memory for before its first event.
#[derive(Drop)]
pub struct Prepared {
    /// Room for the outcomes.
    pub outcomes: Vec<Outcome>,
    /// The orders, of which each waits.
    pub standings: Vec<Standing>,
    /// The ranks.
    pub ranks: Places,
    /// The log of what happens to the board, and the giver of tickets.
    pub names: PhaseNames,
}

/// What a phase of exports leaves.
#[derive(Drop)]
pub struct Exported {
    /// What became of each order, in their order.
    pub outcomes: Vec<Outcome>,
    /// Whether each rank stopped that was to stop, or why a stop was refused: the first refusal, or out of memory if
    /// one was refused so.
    pub stopped: Result<(), BoardError>,
}

// A place for each rank that has a desk.
fn places_for(alloc: Global, desks: &[Desk]) -> Result<Vec<Place>, AllocError> {
    let mut places = Vec::with_capacity(alloc, desks.len())?;
    for desk in desks {
        places.push(Place::new(alloc, desk.rank))?;
    }
    Ok(places)
}

/// Room for the outcomes, the orders as ones that wait, what each rank has to look after, and the phase's names.
pub fn prepare<J: Naming, M: Publisher<J>>(
    alloc: Global,
    board: &Board<J, M>,
    orders: &[Order],
    unsettled: &mut Unsettled,
) -> Result<Prepared, AllocError>
    ensures { IfOk result (λ prepared. IsPrepared board.now orders.now prepared) }
{
    let outcomes = Vec::with_capacity(alloc, orders.len())?;
    let standings = waiting(alloc, orders)?;
    unsettled.update(board.cluster())?;
    let active = board.pins().active();
    let desks = set_up(alloc, board.cluster(), active, orders, unsettled)?;
    let places = places_for(alloc, &desks)?;
    Ok(Prepared {
        outcomes,
        standings,
        ranks: Places { desks, places },
        names: PhaseNames::new(alloc)?,
    })
}

// Starts the orders whose exporter is no active rank, so that each is refused.
fn start_strays<X: ExportSide, R: Wait>(
    rt: &R,
    alloc: Global,
    cell: &Mutex<X>,
    active: usize,
    orders: &[Order],
) {
    for (number, order) in orders.iter().enumerate() {
        if order.from.number() as usize >= active {
            let _refused = cell.lock(rt).start(alloc, number);
        }
    }
}

// The ranks take their turns in rounds.
fn take_rounds<
    'a,
    X: ExportSide + Send,
    R: Threads + Wait + Sync,
    G: Gate + Sync,
    B: Breaks + Drop,
>(rt: &'a R, alloc: Global, cell: &'a Mutex<X>, gate: &'a G, ranks: Places, breaks: B) -> B
    requires { B.HasBegun 0 breaks }
    ensures { B.HasBegun 8 result }
{
    let Places { desks, places } = ranks;
    let mut desks = desks;
    let rounds = Rounds {
        rt,
        alloc,
        cell,
        gate,
        under_way: UnderWay::new(),
    };
    thread::scope(
        thread::scope_env(),
        rt,
        |scope| -> B
            requires { B.HasBegun 0 breaks }
            ensures { B.HasBegun 8 result }
        { rounds.take_all(scope, &places, &mut desks, breaks) },
    )
}

// Aborts the exports of the phase that aren't logged.
fn abort_rest<X: ExportSide, R: Wait>(rt: &R, alloc: Global, cell: &Mutex<X>, orders: usize) {
    for number in 0..orders {
        let mut board = cell.lock(rt);
        if let Some(export) = board.started(number) {
            if is_before_log(board.cluster(), export) {
                board.step(alloc, Event::Abort(export));
            }
        }
    }
}

/// Carries out the orders of the phase `K` in eight rounds, by a thread for each rank that has something to look after,
/// while ranks stop. What the phase started and isn't logged after the last round is aborted. It returns what is known
/// of the board, and what is told of the stops.
pub(crate) fn carry_out<
    J: Naming + Send,
    M: Publisher<J> + Send,
    K: Phase + Send,
    R: Threads + Wait + Sync,
    G: Gate + Sync,
>(
    rt: &R,
    alloc: Global,
    cell: &Mutex<Phased<J, M, K>>,
    gate: &G,
    orders: &[Order],
    stops: &[RankStop],
    ranks: Places,
) -> (Known<K>, Result<(), BoardError>)
    requires { stops.now ≡ K.stops }
    ensures { AreStopped 8 K.before result.0.seen K.stops result.1 }
{
    let stopping = Stopping::new(rt, alloc, cell, stops);
    start_strays(rt, alloc, cell, ranks.desks.len(), orders);
    let stopping = take_rounds(rt, alloc, cell, gate, ranks, stopping);
    abort_rest(rt, alloc, cell, orders.len());
    stopping.into_known()
}

/// The board of the phase `K`, and what became of its orders and stops, when its threads have joined.
pub(crate) fn close_exports<J: Naming, M: Publisher<J>, K: Phase>(
    phased: Phased<J, M, K>,
    stopping: (Known<K>, Result<(), BoardError>),
    outcomes: Vec<Outcome>,
) -> (Board<J, M>, Exported)
    requires room { length K.orders ≤ vec_capacity outcomes }
    requires none { outcomes.items ≡ [] }
    requires stopped { AreStopped 8 K.before stopping.0.seen K.stops stopping.1 }
    ensures board { result.0 ≡ phased }
    ensures went { WentOnWithStops K.requests K.exports (ranks_of K.stops) K.before result.0 }
    ensures exported { AreExported K.before result.0 K.orders K.stops result.1 }
{
    let (known, stopped) = stopping;
    let mut phased = phased;
    phased.compare(known);
    let (board, standings) = phased.into_parts();
    let mut outcomes = outcomes;
    tell(board.cluster(), &standings, &mut outcomes);
    (board, Exported { outcomes, stopped })
}

// Carries out the orders with which the phase K begins.
fn carry_out_named<
    J: Naming + Send + Sync,
    M: Publisher<J> + Send,
    K: Phase + Send + Sync,
    R: Threads + Wait + Sync,
    G: Gate + Sync,
>(
    rt: &R,
    alloc: Global,
    board: Board<J, M>,
    gate: &G,
    orders: &[Order],
    stops: &[RankStop],
    prepared: Prepared,
) -> (Board<J, M>, Exported)
    requires board { board ≡ K.before }
    requires orders { orders.now ≡ K.orders }
    requires stops { stops.now ≡ K.stops }
    requires requests { K.requests ≡ false }
    requires exports { K.exports ≡ true }
    requires log { prepared.names.log ≡ K.log }
    requires tickets { prepared.names.tickets ≡ K.numbers }
    requires prepared { IsPrepared K.before K.orders prepared }
    ensures board { WentOnWithStops false true (ranks_of K.stops) K.before result.0 }
    ensures exported { AreExported K.before result.0 K.orders K.stops result.1 }
{
    let Prepared {
        outcomes,
        standings,
        ranks,
        names,
    } = prepared;
    let cell = Mutex::new(Phased::<J, M, K>::new(board, standings, true, names));
    let stopping = carry_out(rt, alloc, &cell, gate, orders, stops, ranks);
    close_exports(cell.into_inner(), stopping, outcomes)
}

/// Carries out orders in eight rounds, by a thread for each rank that has something to do, and returns what became of
/// each. It looks at all exports and messages of the board's past.
///
/// For a board that has many phases, `export_phase_from` keeps what isn't settled.
pub fn export_phase<
    J: Naming + Send + Sync,
    M: Publisher<J> + Send,
    R: Threads + Wait + Sync,
    G: Gate + Sync,
>(
    rt: &R,
    alloc: Global,
    board: Board<J, M>,
    gate: &G,
    orders: &[Order],
) -> (Board<J, M>, Result<Vec<Outcome>, AllocError>)
    ensures board { WentOnBy false true board result.0 }
    ensures exported { IfOk result.1
        (λ outcomes. AreExported board result.0 orders.now [] (record { outcomes = outcomes; stopped = Ok tt })) }
    ensures unchanged { OnErr result.1 (result.0 ≡ board) }
{
    let mut unsettled = Unsettled::new(alloc);
    export_phase_from(rt, alloc, board, gate, orders, &mut unsettled)
}

/// Carries out orders in eight rounds, by a thread for each rank that has something to do, and returns what became of
/// each.
///
/// In a round each rank takes the messages that had come when the round began, in rising order, freezes its exports
/// in state freezing, notifies of its logged ones and publishes the map if it did. In the first round it starts its
/// orders and asks about its imports that were left started before that. An event that is refused is passed over.
/// What isn't logged after the last round is aborted, except exports of earlier phases. The orders of a rank for
/// which there is no thread in the first round aren't started; what else it has to look after goes on by the calling
/// thread.
///
/// All memory for the answer is asked for before the first event. `unsettled` is what the board's earlier phases left,
/// so that this one looks only at that and at what is newer.
pub fn export_phase_from<
    J: Naming + Send + Sync,
    M: Publisher<J> + Send,
    R: Threads + Wait + Sync,
    G: Gate + Sync,
>(
    rt: &R,
    alloc: Global,
    board: Board<J, M>,
    gate: &G,
    orders: &[Order],
    unsettled: &mut Unsettled,
) -> (Board<J, M>, Result<Vec<Outcome>, AllocError>)
    ensures board { WentOnBy false true board result.0 }
    ensures exported { IfOk result.1
        (λ outcomes. AreExported board result.0 orders.now [] (record { outcomes = outcomes; stopped = Ok tt })) }
    ensures unchanged { OnErr result.1 (result.0 ≡ board) }
{
    let (board, done) = export_phase_with_stops(rt, alloc, board, gate, orders, &[], unsettled);
    match done {
        Ok(exported) => (board, Ok(exported.outcomes)),
        Err(error) => (board, Err(error)),
    }
}

/// Does what `export_phase_from` does, while ranks stop: each before the turns of its round. A rank that has stopped
/// takes its turns, in which each event is refused.
pub fn export_phase_with_stops<
    J: Naming + Send + Sync,
    M: Publisher<J> + Send,
    R: Threads + Wait + Sync,
    G: Gate + Sync,
>(
    rt: &R,
    alloc: Global,
    board: Board<J, M>,
    gate: &G,
    orders: &[Order],
    stops: &[RankStop],
    unsettled: &mut Unsettled,
) -> (Board<J, M>, Result<Exported, AllocError>)
    ensures board { WentOnWithStops false true (ranks_of stops.now) board result.0 }
    ensures exported { IfOk result.1 (λ exported. AreExported board result.0 orders.now stops.now exported) }
    ensures unchanged { OnErr result.1 (result.0 ≡ board) }
{
    let prepared = match prepare(alloc, &board, orders, unsettled) {
        Ok(prepared) => prepared,
        Err(error) => return (board, Err(error)),
    };
    let (board, exported) = carry_out_named::<J, M, Brand, R, G>(
        rt, alloc, board, gate, orders, stops, prepared,
    );
    (board, Ok(exported))
}
