//! A script's board.
ghost use Rattle.std.specs.Prelude.{◌≡◌, ◌≤◌, IfOk, MatchBool};
ghost use Rattle.script_board.specs.Board.{IsBoard, empty_board, publish};

use crate::load::Load;
use crate::parts::Parts;
use authority_map::{MapReader, Publisher};
use dirtree::PathGuesses;
use heat_ledger::Share;
use mds_board::Board;
use mds_types::Order;
use proof_names::Naming;
use rank_threads::{RankStop, Unsettled};
use std::alloc::Global;
use std::marker::Model;

/// What saves a board work. No clause speaks of it.
#[derive(Drop)]
pub(crate) struct Shortcuts {
    /// Where the paths of made directories led.
    pub(crate) guesses: PathGuesses,
    /// The exports and messages that a `move` has to look at.
    pub(crate) unsettled: Unsettled,
}

impl Shortcuts {
    fn new(alloc: Global) -> Shortcuts {
        Shortcuts {
            guesses: PathGuesses::new(alloc),
            unsettled: Unsettled::new(alloc),
        }
    }
}

/// What a script has made once `ranks` was accepted. `J` names the board.
///
/// Share k of the ledger counts the hits of the requests that rank k serves. It can't be dropped, only ended, as the
/// board has the map's writer.
pub struct ScriptBoard<J: Naming, M: Publisher<J>> {
    pub(crate) board: Board<J, M>,
    pub(crate) shares: Vec<Share<J>>,
    pub(crate) reader: MapReader<J>,
    pub(crate) loads: Vec<Load>,
    pub(crate) kept: Vec<Order>,
    pub(crate) stops: Vec<RankStop>,
    pub(crate) shortcuts: Shortcuts,
}

impl<J: Naming, M: Publisher<J>> Model for ScriptBoard<J, M> {
    ghost use Rattle.script_board.specs.Board.{BoardData, IsBoard};

    ghost Value = { BoardData };

    ghost view = { λ b. record {
      world = b.board;
      shares = b.shares.items;
      loads = b.loads.items;
      kept = b.kept.items;
      stops = b.stops.items;
    } };

    ghost invariant = { λ b. IsBoard (record {
      world = b.board;
      shares = b.shares.items;
      loads = b.loads.items;
      kept = b.kept.items;
      stops = b.stops.items;
    }) };
}

/// The board of these parts and of what waits: requests, orders and stops.
pub(crate) fn whole<J: Naming, M: Publisher<J>>(
    board: Board<J, M>,
    shares: Vec<Share<J>>,
    reader: MapReader<J>,
    waiting: (Vec<Load>, Vec<Order>, Vec<RankStop>),
    shortcuts: Shortcuts,
) -> ScriptBoard<J, M>
    requires fits { IsBoard (record {
      world = board;
      shares = shares.items;
      loads = waiting.0.items;
      kept = waiting.1.items;
      stops = waiting.2.items;
    }) }
    ensures { result ≡ record {
      world = board;
      shares = shares.items;
      loads = waiting.0.items;
      kept = waiting.1.items;
      stops = waiting.2.items;
    } }
{
    let (loads, kept, stops) = waiting;
    ScriptBoard {
        board,
        shares,
        reader,
        loads,
        kept,
        stops,
        shortcuts,
    }
}

impl<J: Naming, M: Publisher<J>> ScriptBoard<J, M> {
    /// Only the root at rank 0 of `active` active ranks, and room for the directory numbers below `limit`. Where
    /// memory is refused, it returns the parts.
    pub fn new(
        alloc: Global,
        parts: Parts<J, M>,
        limit: u32,
        active: u8,
    ) -> Result<ScriptBoard<J, M>, Parts<J, M>>
        requires limit { limit ≡ J.limit }
        requires low { 1 ≤ limit }
        requires high { limit ≤ 65536 }
        requires some { 1 ≤ active }
        requires few { active ≤ 64 }
        ensures { IfOk result (λ board. board ≡ empty_board limit active) }
    {
        let Parts { board, reader } = parts;
        match Board::new(alloc, board, limit, active) {
            Err(board) => Err(Parts { board, reader }),
            Ok((board, shares)) => Ok(ScriptBoard {
                board,
                shares,
                reader,
                loads: Vec::new(alloc),
                kept: Vec::new(alloc),
                stops: Vec::new(alloc),
                shortcuts: Shortcuts::new(alloc),
            }),
        }
    }

    /// Publishes the map, and says whether memory sufficed. Where it didn't, nothing has changed.
    pub fn publish(&mut self) -> bool
        ensures { MatchBool result (self.new ≡ publish self.old) (self.new ≡ self.old) }
    {
        self.board.publish()
    }

    /// Ends the map: its readers find it closed.
    pub fn end(self) {
        let ScriptBoard {
            board,
            shares: _shares,
            reader: _reader,
            loads: _loads,
            kept: _kept,
            stops: _stops,
            shortcuts: _shortcuts,
        } = self;
        board.end();
    }
}
