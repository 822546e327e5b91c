//! The command `traffic`: the waiting requests are served while orders are carried out.
ghost use Rattle.std.specs.Prelude.{◌≡◌, ◌<◌, ◌≤◌, ◌+◌, ◌++◌, ◌⊎◌, [], All, IfOk, OnErr, length, map};
ghost use Rattle.std.specs.Prelude.{vec_capacity, vec_len};
ghost use mathlib.Core.List.{IsPrefix};
ghost use Rattle.script_board.specs.Board.{IsBoard};
ghost use Rattle.script_board.specs.Move.{move_orders};
ghost use Rattle.script_board.specs.Fault.{unless_done};
ghost use Rattle.script_board.specs.Serve.{IsDealt, refusals, waiting};
ghost use Rattle.script_board.specs.Traffic.{IsTraffic};

use crate::carried::Carried;
use crate::dealing::Dealt;
use crate::fault::Fault;
use crate::load::Load;
use crate::script_board::{ScriptBoard, Shortcuts, whole};
use authority_map::{MapReader, Publisher};
use mds_board::Board;
use mds_types::Order;
use proof_names::Naming;
use rank_threads::{Gates, Hands, OpenGate, RankStop, Tasks, Traffic, traffic_with_totals};
use std::alloc::{AllocError, Global};
use std::marker::{Send, Sync};
use std::sync::Wait;
use std::thread::Threads;

// What a phase is to do, and room for the refusals that it may meet.
#[derive(Drop)]
struct Planned {
    dealt: Dealt,
    refused: Vec<Fault>,
    orders: Vec<Order>,
}

// What readers hold and what is published are of one line. It does nothing.
fn compare<J: Naming, M: Publisher<J>>(board: &Board<J, M>, readers: &[MapReader<J>])
    ensures { All (λ r. IsPrefix r board.now.published ⊎ IsPrefix board.now.published r) readers.now }
{
    let published = board.tell();
    for reader in readers {
        reader.beside(&published);
    }
}

impl<J: Naming + Send + Sync, M: Publisher<J> + Send> ScriptBoard<J, M> {
    /// Serves the waiting requests as `go` does, while it carries out orders as `carry_out_moves` does. The map is
    /// opened anew, with a reader for each rank, so that before it there is one reader to publish to. Each request is
    /// asked by the thread of the rank that the map names for it at first, at the rank that the thread's own reader of
    /// the map then finds. Ranks stop that are to. Where memory is refused before the first request and the first
    /// export, nothing has changed.
    pub fn traffic<R: Threads + Wait + Sync>(
        self,
        rt: &R,
        alloc: Global,
    ) -> (ScriptBoard<J, M>, Result<Carried, AllocError>)
        ensures done { IfOk result.1
            (λ t. IsTraffic self t.refused.items t.orders.items t.outcomes.items result.0) }
        ensures unchanged { OnErr result.1 (result.0 ≡ self) }
    {
        let mut before = self;
        let planned = match before.plan_traffic(alloc) {
            Ok(planned) => planned,
            Err(error) => return (before, Err(error)),
        };
        let ranks = before.shares.len() as u8;
        let ways = match before.board.reopen(alloc, ranks) {
            Ok(readers) => readers,
            Err(error) => return (before, Err(error)),
        };
        let ScriptBoard {
            board,
            shares,
            reader: _closed,
            loads,
            kept,
            stops,
            mut shortcuts,
        } = before;
        let _limit = board.limit();
        let tasks = Tasks {
            scripts: &planned.dealt.scripts,
            orders: &planned.orders,
            stops: &stops,
        };
        let hands = Hands { shares, ways };
        let gates = Gates::same(&OpenGate);
        let left = &mut shortcuts.unsettled;
        let (board, done) = traffic_with_totals(rt, alloc, board, hands, tasks, gates, left);
        match done {
            Ok(traffic) => {
                let (hands, carried) = ScriptBoard::<J, M>::carried(&board, planned, traffic);
                let after = put_together(board, hands, nothing(alloc), shortcuts);
                (after, Ok(carried))
            }
            Err(failed) => {
                let after = put_together(board, failed.value, (loads, kept, stops), shortcuts);
                (after, Err(AllocError))
            }
        }
    }
}

impl<J: Naming, M: Publisher<J>> ScriptBoard<J, M> {
    // Deals the waiting requests, and collects the orders.
    fn plan_traffic(&self, alloc: Global) -> Result<Planned, AllocError>
        ensures dealt { IfOk result (λ p. IsDealt self.now.world (length self.now.shares) (waiting self.now)
            (map (λ s. s.items) p.dealt.scripts.items) p.dealt.seats.items) }
        ensures none { IfOk result (λ p. p.refused.items ≡ []) }
        ensures room { IfOk result (λ p. length p.dealt.seats.items + 3 ≤ vec_capacity p.refused) }
        ensures orders { IfOk result (λ p. p.orders.items ≡ move_orders self.now) }
    {
        let (dealt, refused) = self.prepare(alloc)?;
        let orders = self.all_orders(alloc)?;
        Ok(Planned {
            dealt,
            refused,
            orders,
        })
    }

    // The shares and the readers that a phase gave back, and what it has done.
    fn carried(
        board: &Board<J, M>,
        planned: Planned,
        traffic: Traffic<J>,
    ) -> (Hands<J, MapReader<J>>, Carried)
        requires none { planned.refused.items ≡ [] }
        requires room { length planned.dealt.seats.items + 3 ≤ vec_capacity planned.refused }
        ensures shares { result.0.shares.items ≡ traffic.ranks.shares.items }
        ensures readers { result.0.ways.items ≡ traffic.readers.items }
        ensures one_line { All (λ r. IsPrefix r board.now.published ⊎ IsPrefix board.now.published r)
            traffic.readers.items }
        ensures told { result.1.refused.items ≡ (refusals (map (λ a. a.items) traffic.ranks.answers.items)
            planned.dealt.seats.items ++ unless_done traffic.ranks.ended ++ unless_done traffic.ranks.deposited)
            ++ unless_done traffic.exported.stopped }
        ensures orders { result.1.orders.items ≡ planned.orders.items }
        ensures outcomes { result.1.outcomes.items ≡ traffic.exported.outcomes.items }
    {
        let Planned {
            dealt,
            refused,
            orders,
        } = planned;
        let Traffic {
            ranks,
            readers,
            exported,
        } = traffic;
        compare(board, &readers);
        let (shares, mut refused) = ScriptBoard::<J, M>::told(&dealt, ranks, refused);
        ScriptBoard::<J, M>::tell_rest(exported.stopped, &mut refused);
        let carried = Carried {
            refused,
            orders,
            outcomes: exported.outcomes,
        };
        let hands = Hands {
            shares,
            ways: readers,
        };
        (hands, carried)
    }
}

// No request, no order and no stop waits.
fn nothing(alloc: Global) -> (Vec<Load>, Vec<Order>, Vec<RankStop>)
    ensures loads { result.0.items ≡ [] }
    ensures kept { result.1.items ≡ [] }
    ensures stops { result.2.items ≡ [] }
{
    let loads = Vec::new(alloc);
    let kept = Vec::new(alloc);
    let stops = Vec::new(alloc);
    (loads, kept, stops)
}

// The board with what waits. One of the readers is the report's from now on.
fn put_together<J: Naming, M: Publisher<J>>(
    board: Board<J, M>,
    hands: Hands<J, MapReader<J>>,
    waiting: (Vec<Load>, Vec<Order>, Vec<RankStop>),
    shortcuts: Shortcuts,
) -> ScriptBoard<J, M>
    requires fits { IsBoard (record {
      world = board;
      shares = hands.shares.items;
      loads = waiting.0.items;
      kept = waiting.1.items;
      stops = waiting.2.items;
    }) }
    requires reader { 0 < vec_len hands.ways }
    ensures { result ≡ record {
      world = board;
      shares = hands.shares.items;
      loads = waiting.0.items;
      kept = waiting.1.items;
      stops = waiting.2.items;
    } }
{
    let Hands {
        shares,
        ways: mut readers,
    } = hands;
    let Some(reader) = readers.pop() else {
        unreachable!()
    };
    whole(board, shares, reader, waiting, shortcuts)
}
