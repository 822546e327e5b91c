//! The command `go`: the waiting requests are served.
ghost use Rattle.std.specs.Prelude.{◌≡◌, ◌<◌, ◌≤◌, ◌+◌, ◌++◌, [], IfOk, OnErr, length, map, vec_capacity, vec_len};
ghost use Rattle.script_board.specs.Fault.{unless_done};
ghost use Rattle.script_board.specs.Serve.{IsDealt, IsGone, refusals, waiting};

use crate::dealing::{Dealt, deal};
use crate::fault::Fault;
use crate::script_board::{ScriptBoard, whole};
use authority_map::Publisher;
use heat_ledger::Share;
use mds_board::BoardError;
use proof_names::Naming;
use rank_threads::{OpenGate, Ranks, serve_with_totals};
use std::alloc::{AllocError, Global};
use std::marker::{Send, Sync};
use std::sync::Wait;
use std::thread::Threads;

impl<J: Naming + Send + Sync, M: Publisher<J> + Send> ScriptBoard<J, M> {
    /// Serves the waiting requests by a thread for each rank that has some, each request at the rank that the map
    /// names and those of one rank in the order of their loads, and deposits what the shares counted. It returns the
    /// refusals that were met: those of requests in the order of their loads, then the first of an end, then the
    /// first of a deposit. Where memory is refused before the first request, nothing has changed.
    pub fn go<R: Threads + Wait + Sync>(
        self,
        rt: &R,
        alloc: Global,
    ) -> (ScriptBoard<J, M>, Result<Vec<Fault>, AllocError>)
        ensures done { IfOk result.1 (λ refused. IsGone self refused.items result.0) }
        ensures unchanged { OnErr result.1 (result.0 ≡ self) }
    {
        let before = self;
        let (dealt, refused) = match before.prepare(alloc) {
            Ok(prepared) => prepared,
            Err(error) => return (before, Err(error)),
        };
        let ScriptBoard {
            board,
            shares,
            reader,
            mut loads,
            kept,
            stops,
            shortcuts,
        } = before;
        let _limit = board.limit();
        let (board, done) = serve_with_totals(rt, alloc, board, &OpenGate, &dealt.scripts, shares);
        let ranks = match done {
            Ok(ranks) => ranks,
            Err(failed) => {
                let after = whole(board, failed.value, reader, (loads, kept, stops), shortcuts);
                return (after, Err(AllocError));
            }
        };
        loads.clear();
        let (shares, refused) = ScriptBoard::<J, M>::told(&dealt, ranks, refused);
        let after = ScriptBoard {
            board,
            shares,
            reader,
            loads,
            kept,
            stops,
            shortcuts,
        };
        (after, Ok(refused))
    }
}

impl<J: Naming, M: Publisher<J>> ScriptBoard<J, M> {
    /// Deals the waiting requests to the ranks, and asks for room for the refusals that may be met.
    pub(crate) fn prepare(&self, alloc: Global) -> Result<(Dealt, Vec<Fault>), AllocError>
        ensures dealt { IfOk result (λ r. IsDealt self.now.world (length self.now.shares) (waiting self.now)
            (map (λ s. s.items) r.0.scripts.items) r.0.seats.items) }
        ensures none { IfOk result (λ r. r.1.items ≡ []) }
        ensures room { IfOk result (λ r. length r.0.seats.items + 3 ≤ vec_capacity r.1) }
    {
        let ranks = self.shares.len();
        let dealt = deal(alloc, &self.board, ranks, &self.loads)?;
        let refused = Vec::with_capacity(alloc, dealt.seats.len() + 3)?;
        Ok((dealt, refused))
    }

    /// The shares that a phase gave back, and the refusals that it met.
    pub(crate) fn told(
        dealt: &Dealt,
        ranks: Ranks<J>,
        refused: Vec<Fault>,
    ) -> (Vec<Share<J>>, Vec<Fault>)
        requires none { refused.items ≡ [] }
        requires room { length dealt.now.seats.items + 3 ≤ vec_capacity refused }
        ensures more { vec_len result.1 < vec_capacity result.1 }
        ensures shares { result.0.items ≡ ranks.shares.items }
        ensures told { result.1.items ≡ refusals (map (λ a. a.items) ranks.answers.items)
            dealt.now.seats.items ++ unless_done ranks.ended ++ unless_done ranks.deposited }
    {
        let Ranks {
            shares,
            answers,
            ended,
            deposited,
        } = ranks;
        let mut refused = refused;
        ScriptBoard::<J, M>::tell(&dealt.seats, &answers, &mut refused);
        ScriptBoard::<J, M>::tell_rest(ended, &mut refused);
        ScriptBoard::<J, M>::tell_rest(deposited, &mut refused);
        (shares, refused)
    }

    /// Adds the refusal, if there is one.
    pub(crate) fn tell_rest(done: Result<(), BoardError>, refused: &mut Vec<Fault>)
        requires room { vec_len refused.old < vec_capacity refused.old }
        ensures told { refused.new.items ≡ refused.old.items ++ unless_done done }
        ensures few { vec_len refused.new ≤ vec_len refused.old + 1 }
        ensures capacity { vec_capacity refused.new ≡ vec_capacity refused.old }
    {
        if let Err(error) = done {
            refused.push_reserved(Fault::from(error));
        }
    }
}
