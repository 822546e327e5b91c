//! Phases for which the system may give no thread. `tools/refused_threads` runs them where it does not.
ghost use Rattle.std.specs.Prelude.{◌≡◌};

use crate::boards::{authorities, done, orders, rank, running, serve};
use crate::requests::{refused, scripts, served, work};
use crate::same::{Sure, same};
use crate::trials::{Trial, try_often};
use authority_map::Publisher;
use export_protocol::StepError;
use heat_ledger::Share;
use mds_board::Board;
use mds_types::Dir;
use proof_names::Naming;
use rank_threads::{OpenGate, Outcome, WorkAnswer, export_phase};
use std::alloc::Global;
use std::marker::{Send, Sync};
use std::process::Abort;
use std::sync::Wait;
use std::thread::Threads;

// Whether these are the answers to three requests of two ranks, each of which had a thread or none, and how hot
// directory 1 is then.
fn heat_of(rt: &impl Abort, answers: &[WorkAnswer]) -> u64 {
    let none = WorkAnswer::no_thread();
    same(rt, &answers.len(), &3);
    let first = answers.get(..2).unwrap_or(&[]);
    let is_served = first == [served(0, 3), served(1, 5)].as_slice();
    assert!(rt; is_served || first == [none, none].as_slice());
    let last = answers.get(2).copied().unwrap_or(served(0, 0));
    assert!(rt; last == none || last == refused(StepError::NoDir));
    if is_served { 8 } else { 0 }
}

/// A rank has a thread for all of its requests, or for none of them. Where it is sure that there are threads, it has
/// one.
pub(crate) fn serve_on<
    J: Naming + Send + Sync,
    M: Publisher<J> + Send,
    R: Abort + Threads + Wait + Sync,
>(rt: &R, alloc: Global, board: Board<J, M>, shares: Vec<Share<J>>, is_sure: bool)
    requires limit { J.limit ≡ 128 }
{
    let scripts = scripts(alloc, &[work(1, 3), work(1, 5)], &[work(7, 2)]).sure(rt);
    let mut answers = Vec::with_capacity(alloc, 3).sure(rt);
    let (board, _shares) = serve(rt, alloc, board, &scripts, shares, &mut answers);
    let (running, heat) = (running(&board), board.heat().heat(Dir::new(1)));
    board.end();
    same(rt, &running, &0);
    same(rt, &heat, &heat_of(rt, &answers));
    assert!(rt; !is_sure || !answers.contains(&WorkAnswer::no_thread()));
}

#[test]
fn a_rank_without_a_thread_is_told(rt: HostRuntime) {
    try_often(&rt, Trial::RankThreads(false), 1)
}

/// An exporter has a thread for all of its orders, or for none of them. What importers have to do is done in any case.
pub(crate) fn move_on<
    J: Naming + Send + Sync,
    M: Publisher<J> + Send,
    R: Abort + Threads + Wait + Sync,
>(rt: &R, alloc: Global, board: Board<J, M>, is_sure: bool) {
    let orders = orders(alloc, &[(0, 1, 1), (0, 2, 2)]).sure(rt);
    let (board, outcomes) = export_phase(rt, alloc, board, &OpenGate, &orders);
    let authorities = authorities(&board);
    let has_export = board.cluster().export(0).is_some();
    board.end();
    let outcomes = outcomes.sure(rt);
    if outcomes.as_slice() == [done(0), done(1)].as_slice() {
        same(rt, &authorities, &(Some(rank(1)), Some(rank(2))));
    } else {
        let none = [Outcome::NoThread, Outcome::NoThread];
        same(rt, &outcomes.as_slice(), &none.as_slice());
        same(rt, &authorities, &(Some(rank(0)), Some(rank(0))));
        assert!(rt; !has_export && !is_sure);
    }
}

#[test]
fn an_exporter_without_a_thread_is_told(rt: HostRuntime) {
    try_often(&rt, Trial::ExporterThreads(false), 1)
}

// With ample memory each rank has a thread.
#[test]
fn ranks_and_exporters_have_threads(rt: HostRuntime) {
    try_often(&rt, Trial::RankThreads(true), 1);
    try_often(&rt, Trial::ExporterThreads(true), 1);
}
