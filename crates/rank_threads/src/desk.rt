//! A thread for the requests of one rank.
ghost use Rattle.std.specs.Prelude.{◌≡◌, ◌≤◌, [], IfErr, IfOk, length, true, vec_capacity};
ghost use Rattle.rank_threads.specs.Answered.{IsRankServed};

use crate::route::Route;
use crate::work::{Work, WorkAnswer};
use authority_map::Publisher;
use heat_ledger::Share;
use mds_types::Rank;
use phased_board::{Gate, Known, Phase, Phased};
use proof_names::Naming;
use std::alloc::Global;
use std::marker::{Model, PhantomData, Send, Sync};
use std::snapshot::Snapshot;
use std::sync::atomic::{AtomicU64, Ordering};
use std::sync::{Mutex, Wait};
use std::thread::{Promise, PromisedHandle, Scope, Threads};

/// What the thread of a rank works with: its share, its way to find ranks, and room for the answers to its requests.
#[derive(Drop)]
pub(crate) struct Desk<J: Naming, W: Route> {
    pub(crate) share: Share<J>,
    pub(crate) way: W,
    pub(crate) answers: Vec<WorkAnswer>,
}

/// A rank's share and its way, with the answers to its requests, and what the rank's thread knows of the board in the
/// phase `K`.
#[derive(Drop)]
pub(crate) struct Done<J: Naming, W: Route, K: Phase> {
    pub(crate) share: Share<J>,
    pub(crate) way: W,
    pub(crate) answers: Vec<WorkAnswer>,
    pub(crate) known: Known<K>,
}

// What a thread makes of a desk: the share and the way that it had, and the script, in the phase `K`.
#[derive(Drop)]
struct Served<J: Naming, W: Route, K: Phase> {
    share: Snapshot<Share<J>>,
    way: Snapshot<W>,
    script: Snapshot<Vec<Work>>,
    of: PhantomData<K>,
}

impl<J: Naming, W: Route, K: Phase> Model for Served<J, W, K> {
    ghost use Rattle.rank_threads.specs.Asking.{Asking};

    ghost Value = { Asking };

    ghost view = { λ s. record {
      hand = record { share = s.share.value; way = W.way s.way.value };
      script = s.script.value.items;
    } };
}

impl<J: Naming, W: Route, K: Phase> Promise<Done<J, W, K>> for Served<J, W, K> {
    ghost use Rattle.rank_threads.specs.Answered.{IsRankServed};

    ghost kept_by = { λ p done. IsRankServed J.limit K.before done.known.seen p.hand p.script done.answers.items
        (record { share = done.share; way = W.way done.way }) done.known.tickets };
}

/// A rank that was asked to serve its requests. A contract sees its share, its way and its script before.
#[derive(Drop)]
pub struct AskedRank<J: Naming, W: Route, K: Phase> {
    asked: Served<J, W, K>,
    // the rank's thread, or what was done where it has none
    done: Result<PromisedHandle<Done<J, W, K>, Served<J, W, K>>, Done<J, W, K>>,
}

impl<J: Naming, W: Route, K: Phase> Model for AskedRank<J, W, K> {
    ghost use Rattle.std.specs.Prelude.{◌≡◌, IfErr, IfOk};
    ghost use Rattle.rank_threads.specs.Answered.{IsRankServed};
    ghost use Rattle.rank_threads.specs.Asking.{Asking};

    ghost Value = { Asking };

    ghost view = { λ a. a.asked };

    ghost invariant = { λ a. IfOk a.done (λ child. child.promise ≡ a.asked)
        × IfErr a.done (λ done. IsRankServed J.limit K.before done.known.seen a.asked.hand a.asked.script
        done.answers.items (record { share = done.share; way = W.way done.way }) done.known.tickets) };
}

impl<J: Naming, W: Route, K: Phase> AskedRank<J, W, K> {
    /// Waits for the rank's thread, if it has one, and gives what was done.
    pub(crate) fn join<R: Threads>(self, rt: &R) -> Done<J, W, K>
        ensures { IsRankServed J.limit K.before result.known.seen self.hand self.script result.answers.items
            (record { share = result.share; way = W.way result.way }) result.known.tickets }
    {
        let AskedRank {
            asked: _asked,
            done,
        } = self;
        match done {
            Ok(child) => child.join(rt),
            Err(done) => done,
        }
    }
}

/// What the threads of a phase work with.
#[derive(Drop)]
pub(crate) struct Serving<'a, J: Naming, M: Publisher<J>, K: Phase, R: Wait, G: Gate> {
    pub(crate) rt: &'a R,
    pub(crate) alloc: Global,
    pub(crate) cell: &'a Mutex<Phased<J, M, K>>,
    pub(crate) gate: &'a G,
    // the number of the rank for which the last thread was refused
    refused: AtomicU64,
}

impl<
    'a,
    J: Naming + Send + Sync,
    M: Publisher<J> + Send,
    K: Phase + Send + Sync,
    R: Wait + Sync,
    G: Gate + Sync,
> Serving<'a, J, M, K, R, G> {
    pub(crate) fn new(
        rt: &'a R,
        alloc: Global,
        cell: &'a Mutex<Phased<J, M, K>>,
        gate: &'a G,
    ) -> Self {
        Serving {
            rt,
            alloc,
            cell,
            gate,
            refused: AtomicU64::new(u64::MAX),
        }
    }

    // Serves the requests of a rank, or refuses them where it has no thread.
    fn serve<W: Route>(&self, rank: Rank, script: &Vec<Work>, desk: Desk<J, W>) -> Done<J, W, K>
        requires requests { K.requests ≡ true }
        requires empty { desk.answers.items ≡ [] }
        requires room { length script.now.items ≤ vec_capacity desk.answers }
        ensures { IsRankServed J.limit K.before result.known.seen (record { share = desk.share; way = W.way desk.way })
            script.now.items result.answers.items (record { share = result.share; way = W.way result.way })
            result.known.tickets }
    {
        let Desk {
            share,
            way,
            answers,
        } = desk;
        let mut done = Done {
            share,
            way,
            answers,
            known: self.cell.lock(self.rt).look(),
        };
        let has_thread = self.refused.load(Ordering::SeqCst) != u64::from(rank.number());
        self.serve_script(has_thread, rank, script, &mut done);
        done
    }

    // Serves the requests of a rank by a thread of its own. Where there is none they are refused.
    fn spawn<'s, W: Route + Send + 's, E>(
        &'s self,
        scope: &Scope<'s, E>,
        rank: Rank,
        script: &'s Vec<Work>,
        desk: Desk<J, W>,
        promise: Served<J, W, K>,
    ) -> Result<PromisedHandle<Done<J, W, K>, Served<J, W, K>>, Done<J, W, K>>
        requires requests { K.requests ≡ true }
        requires empty { desk.answers.items ≡ [] }
        requires room { length script.now.items ≤ vec_capacity desk.answers }
        requires promise { promise ≡ record {
          hand = record { share = desk.share; way = W.way desk.way };
          script = script.now.items;
        } }
        ensures child { IfOk result (λ child. child.promise ≡ promise) }
        ensures done { IfErr result (λ done. IsRankServed J.limit K.before done.known.seen promise.hand promise.script
            done.answers.items (record { share = done.share; way = W.way done.way }) done.known.tickets) }
    {
        let served = move || -> Done<J, W, K>
            requires { (desk.answers.items ≡ []) × (length script.now.items ≤ vec_capacity desk.answers)
                × (K.requests ≡ true) }
            ensures { IsRankServed J.limit K.before result.known.seen
                (record { share = desk.share; way = W.way desk.way }) script.entry.now.items result.answers.items
                (record { share = result.share; way = W.way result.way }) result.known.tickets }
        { self.serve(rank, script, desk) };
        match scope.spawn_with(promise, served) {
            Ok(child) => Ok(child),
            Err(refused) => {
                self.refused
                    .store(u64::from(rank.number()), Ordering::SeqCst);
                Err((refused.value)())
            }
        }
    }

    /// Asks a rank to serve its requests, by a thread of its own. Where there is no thread they are refused, and where
    /// there are no requests none is made.
    pub(crate) fn ask<'s, W: Route + Send + 's, E>(
        &'s self,
        scope: &Scope<'s, E>,
        rank: Rank,
        script: &'s Vec<Work>,
        desk: Desk<J, W>,
    ) -> AskedRank<J, W, K>
        requires requests { K.requests ≡ true }
        requires empty { desk.answers.items ≡ [] }
        requires room { length script.now.items ≤ vec_capacity desk.answers }
        ensures { result ≡ record {
          hand = record { share = desk.share; way = W.way desk.way };
          script = script.now.items;
        } }
    {
        let asked = asked_of(&desk, script);
        let promise = asked_of(&desk, script);
        let done = if script.is_empty() {
            Err(self.serve(rank, script, desk))
        } else {
            self.spawn(scope, rank, script, desk, promise)
        };
        AskedRank { asked, done }
    }
}

// What a rank is asked.
fn asked_of<J: Naming, W: Route, K: Phase>(desk: &Desk<J, W>, script: &Vec<Work>) -> Served<J, W, K>
    ensures { result ≡ record {
      hand = record { share = desk.now.share; way = W.way desk.now.way };
      script = script.now.items;
    } }
{
    Served {
        share: Snapshot::of(&desk.share),
        way: Snapshot::of(&desk.way),
        script: Snapshot::of(script),
        of: PhantomData,
    }
}
