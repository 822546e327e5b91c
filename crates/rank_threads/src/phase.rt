//! The requests of all ranks, by a thread a rank.
ghost use Rattle.std.specs.Global.{Global as TheGlobal};
ghost use Rattle.std.specs.Prelude.{◌≡◌, ◌<◌, ◌≤◌, ◌+◌, [], ◌∷◌, ◌++◌, IfErr, IfOk, IsOk, List, Vec as TheVec};
ghost use Rattle.std.specs.Prelude.{OnErr, false, length, map, true, vec_capacity, vec_len};
ghost use Rattle.heat_ledger.specs.Ledger.{IsClean, ShareData};
ghost use Rattle.rank_threads.specs.declared.work.Work.{Work as TheWork};
ghost use Rattle.rank_threads.specs.Answered.{IsDepositTold};
ghost use Rattle.rank_threads.specs.Asking.{askings};
ghost use Rattle.rank_threads.specs.Phases.{AreJoined, AreLaid, AreRequestsServed};
ghost use Rattle.phased_board.specs.Going.{WentOnBy};
ghost use Rattle.rank_threads.specs.Serving.{IsDeposited};
ghost use Rattle.rank_threads.specs.Ways.{At, Way, hands_of, own_ranks};
ghost use Rattle.proof_names.specs.Numbers.{AreApart};
ghost use mathlib.Core.List.{IsPrefix};

use crate::desk::{AskedRank, Desk, Done, Serving};
use crate::laying::{Hands, Laid, lay, own_ways};
use crate::route::{OwnRank, Route};
use crate::work::{Work, WorkAnswer};
use authority_map::Publisher;
use heat_ledger::Share;
use mds_board::{Board, BoardError};
use mds_types::Rank;
use phased_board::{Gate, Known, Phase, PhaseNames, Phased, first_refusal};
use proof_names::Naming;
use std::alloc::{AllocFailed, Global};
use std::marker::{Brand, Send, Sync};
use std::sync::{Mutex, Wait};
use std::thread;
use std::thread::{Scope, Threads};

/// What a phase leaves of the shares and the requests, in rank order.
#[derive(Drop)]
pub struct Ranks<J: Naming> {
    /// The share of each rank.
    pub shares: Vec<Share<J>>,
    /// The answers to each rank's requests.
    pub answers: Vec<Vec<WorkAnswer>>,
    /// Whether all hits were deposited, or why a share's weren't, the first such.
    pub deposited: Result<(), BoardError>,
    /// Whether no request runs any more that began in the phase, or why the end of one was refused, the first such.
    pub ended: Result<(), BoardError>,
}

/// What the threads of a phase leave, of the ranks so far, and what is known of the board.
#[derive(Drop)]
pub struct Joined<J: Naming, W: Route, K: Phase> {
    pub shares: Vec<Share<J>>,
    pub ways: Vec<W>,
    pub answers: Vec<Vec<WorkAnswer>>,
    pub deposited: Result<(), BoardError>,
    pub known: Known<K>,
}

// Deposits a share's hits.
fn deposit<J: Naming, M: Publisher<J>, K: Phase, R: Wait>(
    rt: &R,
    alloc: Global,
    cell: &Mutex<Phased<J, M, K>>,
    known: &mut Known<K>,
    of_rank: Known<K>,
    share: &mut Share<J>,
) -> Result<(), BoardError>
    requires { K.requests ≡ true }
    ensures deposited { IsDeposited share.old share.new }
    ensures clean { IsOk result → IsClean share.new }
    ensures told { IsDepositTold K.before known.new.seen result }
    ensures seen { IsPrefix known.old.seen known.new.seen × IsPrefix of_rank.seen known.new.seen }
    ensures tickets { known.new.tickets ≡ known.old.tickets ++ of_rank.tickets }
    ensures apart { AreApart known.new.tickets }
{
    cell.lock(rt).deposit(alloc, known, of_rank, share)
}

// Deposits the hits of a rank's share, and puts it after those of the ranks before.
fn with_desk<J: Naming, M: Publisher<J>, W: Route, K: Phase, R: Wait>(
    rt: &R,
    alloc: Global,
    cell: &Mutex<Phased<J, M, K>>,
    ranks: Joined<J, W, K>,
    done: Done<J, W, K>,
) -> Joined<J, W, K>
    requires requests { K.requests ≡ true }
    requires shares { vec_len ranks.shares < vec_capacity ranks.shares }
    requires ways { vec_len ranks.ways < vec_capacity ranks.ways }
    requires answers { vec_len ranks.answers < vec_capacity ranks.answers }
    ensures last { (last : ShareData) × IsDeposited done.share last × (IsOk result.deposited → IsClean last)
        × (result.shares.items ≡ ranks.shares.items ++ last ∷ []) }
    ensures way { result.ways.items ≡ ranks.ways.items ++ done.way ∷ [] }
    ensures given { result.answers.items ≡ ranks.answers.items ++ done.answers ∷ [] }
    ensures deposited { IsOk result.deposited → IsOk ranks.deposited }
    ensures told { IsDepositTold K.before ranks.known.seen ranks.deposited → IsDepositTold K.before result.known.seen
        result.deposited }
    ensures seen { IsPrefix ranks.known.seen result.known.seen × IsPrefix done.known.seen result.known.seen }
    ensures tickets { result.known.tickets ≡ ranks.known.tickets ++ done.known.tickets }
    ensures apart { AreApart result.known.tickets }
    ensures shares { vec_capacity result.shares ≡ vec_capacity ranks.shares }
    ensures ways { vec_capacity result.ways ≡ vec_capacity ranks.ways }
    ensures answers { vec_capacity result.answers ≡ vec_capacity ranks.answers }
{
    let Joined {
        mut shares,
        mut ways,
        mut answers,
        deposited,
        mut known,
    } = ranks;
    let Done {
        mut share,
        way,
        answers: given,
        known: of_rank,
    } = done;
    let last = deposit(rt, alloc, cell, &mut known, of_rank, &mut share);
    shares.push_reserved(share);
    ways.push_reserved(way);
    answers.push_reserved(given);
    Joined {
        shares,
        ways,
        answers,
        deposited: first_refusal(deposited, last),
        known,
    }
}

// Takes the share and the way of the last rank, and the room for its answers.
fn last_desk<J: Naming, W: Route>(
    shares: &mut Vec<Share<J>>,
    ways: &mut Vec<W>,
    rooms: &mut Vec<Vec<WorkAnswer>>,
) -> Desk<J, W>
    requires some { 0 < vec_len shares.old }
    requires as_many { vec_len ways.old ≡ vec_len shares.old }
    requires equal { vec_len rooms.old ≡ vec_len shares.old }
    ensures share { shares.old.items ≡ shares.new.items ++ result.share ∷ [] }
    ensures way { ways.old.items ≡ ways.new.items ++ result.way ∷ [] }
    ensures room { rooms.old.items ≡ rooms.new.items ++ result.answers ∷ [] }
    ensures fewer { (vec_len shares.new + 1 ≡ vec_len shares.old) × (vec_len ways.new + 1 ≡ vec_len ways.old)
        × (vec_len rooms.new + 1 ≡ vec_len rooms.old) }
    ensures same { (vec_capacity shares.new ≡ vec_capacity shares.old) × (vec_capacity ways.new ≡ vec_capacity ways.old)
        × (vec_capacity rooms.new ≡ vec_capacity rooms.old) }
{
    let (Some(share), Some(way), Some(answers)) = (shares.pop(), ways.pop(), rooms.pop()) else {
        unreachable!()
    };
    Desk {
        share,
        way,
        answers,
    }
}

impl<
    J: Naming + Send + Sync,
    M: Publisher<J> + Send,
    K: Phase + Send + Sync,
    R: Threads + Wait + Sync,
    G: Gate + Sync,
> Serving<'_, J, M, K, R, G> {
    // Asks all ranks to serve their requests, the last rank first.
    fn ask_all<'s, W: Route + Send + 's, E>(
        &'s self,
        scope: &Scope<'s, E>,
        scripts: &'s [Vec<Work>],
        laid: Laid<J, W, K>,
    ) -> Laid<J, W, K>
        requires requests { K.requests ≡ true }
        requires laid { AreLaid scripts.now laid }
        ensures asked { result.asked.items ≡ askings (hands_of laid.shares.items (map W.way laid.ways.items))
            (map (λ s. s.items) scripts.now) }
        ensures empty { (result.shares.items ≡ []) × (result.ways.items ≡ []) × (result.rooms.items ≡ []) }
        ensures count { vec_len result.asked ≡ length scripts.now }
        ensures room { (length scripts.now ≤ vec_capacity result.shares)
            × (length scripts.now ≤ vec_capacity result.ways) × (length scripts.now ≤ vec_capacity result.rooms) }
    {
        let Laid {
            mut shares,
            mut ways,
            mut rooms,
            mut asked,
        } = laid;
        let mut left = scripts;
        while let Some((script, before)) = left.split_last() {
            let Some(rank) = Rank::new(before.len() as u8) else {
                unreachable!()
            };
            let desk = last_desk(&mut shares, &mut ways, &mut rooms);
            asked.push_reserved(self.ask(scope, rank, script, desk));
            left = before;
        }
        Laid {
            shares,
            ways,
            rooms,
            asked,
        }
    }

    // Waits for each rank, from rank 0 on, and deposits its share's hits.
    fn join_all<W: Route>(
        &self,
        asked: Vec<AskedRank<J, W, K>>,
        ranks: Joined<J, W, K>,
    ) -> Joined<J, W, K>
        requires requests { K.requests ≡ true }
        requires none { (ranks.shares.items ≡ []) × (ranks.ways.items ≡ []) × (ranks.answers.items ≡ []) }
        requires given { ranks.known.tickets ≡ [] }
        requires deposited { IsOk ranks.deposited }
        requires room { (vec_len asked ≤ vec_capacity ranks.shares) × (vec_len asked ≤ vec_capacity ranks.ways)
            × (vec_len asked ≤ vec_capacity ranks.answers) }
        ensures joined { (shares : List ShareData) (ways : List Way) (scripts : List (List TheWork))
            → length shares ≡ length scripts → length ways ≡ length scripts
            → asked.items ≡ askings (hands_of shares ways) scripts
            → AreJoined J.limit K.before shares ways scripts result (map W.way result.ways.items) }
    {
        let mut asked = asked;
        let mut ranks = ranks;
        while let Some(rank) = asked.pop() {
            let done = rank.join(self.rt);
            ranks = with_desk(self.rt, self.alloc, self.cell, ranks, done);
        }
        ranks
    }

    // Serves the requests of all ranks, while this thread does something else, and then deposits each share's hits, in
    // rank order.
    fn serve_all<'s, W: Route + Send + 's, F: FnOnce() -> T, T: Drop, E>(
        &'s self,
        scope: &Scope<'s, E>,
        scripts: &'s [Vec<Work>],
        laid: Laid<J, W, K>,
        meanwhile: F,
    ) -> (Joined<J, W, K>, T)
        requires requests { K.requests ≡ true }
        requires laid { AreLaid scripts.now laid }
        requires meanwhile { F.IsAlwaysCallable meanwhile }
        ensures served { AreJoined J.limit K.before laid.shares.items (map W.way laid.ways.items)
            (map (λ s. s.items) scripts.now) result.0 (map W.way result.0.ways.items) }
        ensures meanwhile { F.post meanwhile result.1 }
    {
        let Laid {
            shares,
            ways,
            rooms,
            asked,
        } = self.ask_all(scope, scripts, laid);
        let done = meanwhile();
        let ranks = Joined {
            shares,
            ways,
            answers: rooms,
            deposited: Ok(()),
            known: self.cell.lock(self.rt).look(),
        };
        (self.join_all(asked, ranks), done)
    }
}

/// Serves the requests of all ranks, each rank's by a thread of its own, while this thread does something else, and
/// deposits each share's hits. It returns what came of this thread's work, too.
pub(crate) fn serve_ranks<
    'a,
    J: Naming + Send + Sync,
    M: Publisher<J> + Send,
    W: Route + Send,
    K: Phase + Send + Sync,
    R: Threads + Wait + Sync,
    G: Gate + Sync,
    F: FnOnce() -> T,
    T: Drop,
>(
    rt: &'a R,
    alloc: Global,
    cell: &'a Mutex<Phased<J, M, K>>,
    gate: &'a G,
    scripts: &'a [Vec<Work>],
    laid: Laid<J, W, K>,
    meanwhile: F,
) -> (Joined<J, W, K>, T)
    requires requests { K.requests ≡ true }
    requires laid { AreLaid scripts.now laid }
    requires meanwhile { F.IsAlwaysCallable meanwhile }
    ensures served { AreJoined J.limit K.before laid.shares.items (map W.way laid.ways.items)
        (map (λ s. s.items) scripts.now) result.0 (map W.way result.0.ways.items) }
    ensures meanwhile { F.post meanwhile result.1 }
{
    let serving = Serving::new(rt, alloc, cell, gate);
    thread::scope(
        thread::scope_env(),
        rt,
        |scope| -> (Joined<J, W, K>, T)
            requires { AreLaid scripts.now laid × F.IsAlwaysCallable meanwhile × (K.requests ≡ true) }
            ensures served { AreJoined J.limit K.before laid.shares.items (map W.way laid.ways.items)
                (map (λ s. s.items) scripts.entry.now) result.0 (map W.way result.0.ways.items) }
            ensures meanwhile { F.post meanwhile result.1 }
        { serving.serve_all(scope, scripts, laid, meanwhile) },
    )
}

/// Ends the requests of a phase that still run when its threads have joined. The history had `first` entries when the
/// phase began. It returns what was under the lock, the ranks, and the way of each.
pub(crate) fn close<J: Naming, M: Publisher<J>, W: Route, K: Phase>(
    alloc: Global,
    phased: Phased<J, M, K>,
    first: usize,
    joined: Joined<J, W, K>,
) -> (Phased<J, M, K>, Ranks<J>, Vec<W>)
    requires requests { K.requests ≡ true }
    requires first { first ≡ length K.before.history }
    ensures { (shares : List ShareData) (ways : List Way) (scripts : List (TheVec TheWork TheGlobal))
        → AreJoined J.limit K.before shares ways (map (λ s. s.items) scripts) joined (map W.way joined.ways.items)
        → AreRequestsServed J.limit K.before result.0 shares ways scripts result.1 (map W.way result.2.items) }
{
    let Joined {
        shares,
        ways,
        answers,
        deposited,
        known,
    } = joined;
    let mut phased = phased;
    let ended = phased.end_all(alloc, first);
    phased.compare(known);
    let ranks = Ranks {
        shares,
        answers,
        deposited,
        ended,
    };
    (phased, ranks, ways)
}

// Serves the requests of all ranks over a board that `K` names.
fn serve_named<
    J: Naming + Send + Sync,
    M: Publisher<J> + Send,
    K: Phase + Send + Sync,
    R: Threads + Wait + Sync,
    G: Gate + Sync,
>(
    rt: &R,
    alloc: Global,
    board: Board<J, M>,
    names: PhaseNames,
    gate: &G,
    scripts: &[Vec<Work>],
    hands: Hands<J, OwnRank>,
) -> (Board<J, M>, Result<Ranks<J>, AllocFailed<Vec<Share<J>>>>)
    requires board { board ≡ K.before }
    requires orders { K.orders ≡ [] }
    requires requests { K.requests ≡ true }
    requires exports { K.exports ≡ false }
    requires stops { K.stops ≡ [] }
    requires log { names.log ≡ K.log }
    requires tickets { names.tickets ≡ K.numbers }
    requires few { length scripts.now ≤ 64 }
    requires equal { vec_len hands.shares ≡ length scripts.now }
    requires ways { map (λ own. At own.rank) hands.ways.items ≡ own_ranks 0 (length scripts.now) }
    ensures board { WentOnBy true false K.before result.0 }
    ensures served { IfOk result.1 (λ ranks. AreRequestsServed J.limit K.before result.0 hands.shares.items
        (own_ranks 0 (length scripts.now)) scripts.now ranks (own_ranks 0 (length scripts.now))) }
    ensures memory { IfErr result.1 (λ e. e.value ≡ hands.shares) }
    ensures unchanged { OnErr result.1 (result.0 ≡ board) }
{
    let laid = match lay::<J, OwnRank, K>(alloc, scripts, hands) {
        Ok(laid) => laid,
        Err(refused) => {
            let Hands {
                shares,
                ways: _ways,
            } = refused.value;
            return (board, Err(AllocFailed { value: shares }));
        }
    };
    let first = board.history().len();
    let cell = Mutex::new(Phased::<J, M, K>::new(board, Vec::new(alloc), false, names));
    let (joined, ()) = serve_ranks(rt, alloc, &cell, gate, scripts, laid, || {});
    let (phased, ranks, _ways) = close(alloc, cell.into_inner(), first, joined);
    let (board, _standings) = phased.into_parts();
    (board, Ok(ranks))
}

/// Serves the requests of each rank in order, by a thread a rank, and deposits the hits of their shares. `scripts[k]`
/// and `shares[k]` are rank k's.
///
/// The board afterwards is the board before, with only requests that begin or end and deposits on top of its history.
/// All memory for the answers is asked for before the first request; where it is refused, board and shares come back
/// as they were.
pub fn serve_phase<
    J: Naming + Send + Sync,
    M: Publisher<J> + Send,
    R: Threads + Wait + Sync,
    G: Gate + Sync,
>(
    rt: &R,
    alloc: Global,
    board: Board<J, M>,
    gate: &G,
    scripts: &[Vec<Work>],
    shares: Vec<Share<J>>,
) -> (Board<J, M>, Result<Ranks<J>, AllocFailed<Vec<Share<J>>>>)
    requires few { length scripts.now ≤ 64 }
    requires equal { vec_len shares ≡ length scripts.now }
    ensures board { WentOnBy true false board result.0 }
    ensures served { IfOk result.1 (λ ranks. AreRequestsServed J.limit board result.0 shares.items
        (own_ranks 0 (length scripts.now)) scripts.now ranks (own_ranks 0 (length scripts.now))) }
    ensures memory { IfErr result.1 (λ e. e.value.items ≡ shares.items) }
    ensures unchanged { OnErr result.1 (result.0 ≡ board) }
{
    let Ok(ways) = own_ways(alloc, scripts.len()) else {
        return (board, Err(AllocFailed { value: shares }));
    };
    let Ok(names) = PhaseNames::new(alloc) else {
        return (board, Err(AllocFailed { value: shares }));
    };
    let hands = Hands { shares, ways };
    serve_named::<J, M, Brand, R, G>(rt, alloc, board, names, gate, scripts, hands)
}
