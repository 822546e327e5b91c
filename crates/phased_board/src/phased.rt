//! The board that the threads of a phase share, under its lock.
ghost use Rattle.std.specs.Prelude.{◌≡◌, ◌≤◌, ◌↔◌, ◌+◌, ◌++◌, ◌∷◌, [], Some, count_by, replicate};
ghost use Rattle.std.specs.Prelude.{Err, IfErr, IfOk, IsOk, IsTrue, OnErr, OnOk, true};
ghost use Rattle.heat_ledger.specs.Rows.{counted_rows, raised};
ghost use Rattle.mds_board.specs.Steps.{spelled};
ghost use Rattle.export_protocol.specs.Step.{refusal};
ghost use Rattle.phased_board.specs.Asked.{AreAsked, is_begun};
ghost use Rattle.phased_board.specs.Going.{WentOnWithStops};
ghost use Rattle.phased_board.specs.Moments.{IsMet};
ghost use Rattle.phased_board.specs.Stops.{IsStopped, ranks_of};
ghost use Rattle.std.specs.List.{Contains};
ghost use Rattle.mds_board.specs.History.{IsAnswer};
ghost use Rattle.mds_board.specs.Promises.{IsKept};
ghost use Rattle.phased_board.specs.Begun.{IsBegun};
ghost use Rattle.phased_board.specs.OnTheWay.{IsOnTheWay, WasPublished};
ghost use Rattle.proof_names.specs.Numbers.{AreApart};
ghost use mathlib.Core.List.{IsPrefix};

use crate::starting::settle_at;
use crate::{ExportSide, Standing};
use authority_map::Publisher;
use export_machine::Cluster;
use export_protocol::{Event, Reply, StepError};
use heat_ledger::Share;
use mds_board::{Answer, Board, BoardError, Change, Entry};
use mds_types::{Dir, Rank};
use proof_names::{Given, Log, LogName, Naming, NewLog, NewNumbers, Numbers, NumbersName, Sight};
use std::alloc::{AllocError, Global};
use std::marker::{Brand, Model, PhantomData};

/// Names the board with which a phase begins, its orders, whether it has requests and whether exports go on in it, the
/// ranks that stop in it, the log of what happens to the board, and the giver of its tickets. It exists in proofs only,
/// and a phase picks it.
pub trait Phase: LogName + NumbersName {
    ghost use Rattle.std.specs.Prelude.{Bool, List};
    ghost use Rattle.mds_board.specs.History.{World};
    ghost use Rattle.mds_types.specs.declared.order.Order.{Order};
    ghost use Rattle.phased_board.specs.declared.breaks.RankStop.{RankStop};

    ghost before: { World };

    ghost orders: { List Order };

    ghost requests: { Bool };

    ghost exports: { Bool };

    // the ranks that stop in it, each with its round
    ghost stops: { List RankStop };
}

impl Phase for Brand {
    ghost use Rattle.std.specs.Prelude.{[], false};
    ghost use Rattle.mds_board.specs.History.{no_board};

    ghost before = { no_board };

    ghost orders = { [] };

    ghost requests = { false };

    ghost exports = { false };

    ghost stops = { [] };
}

/// What a phase begins with besides its board: the log of what happens to it, and the giver of its tickets.
#[derive(Drop)]
pub struct PhaseNames {
    /// The log, without entries.
    pub log: NewLog<Entry>,
    /// The giver of tickets.
    pub tickets: NewNumbers,
}

impl PhaseNames {
    /// A log and a giver of tickets with names of their own.
    pub fn new(alloc: Global) -> Result<PhaseNames, AllocError> {
        let log = NewLog::new(alloc)?;
        let tickets = NewNumbers::new(alloc)?;
        Ok(PhaseNames { log, tickets })
    }
}

/// What a thread knows of the board in the phase `K`: the history that it has seen, and the tickets that it was given.
/// It takes no bytes.
#[derive(Drop)]
pub struct Known<K: Phase> {
    /// The history that it has seen.
    pub seen: Sight<Entry, K>,
    /// The tickets that it was given.
    pub tickets: Given<K>,
}

/// What the lock guards: a board that has gone on from the one with which the phase `K` began, and the state of each of
/// the phase's orders on it. Its methods are all that a thread can do to it.
pub struct Phased<J: Naming, M: Publisher<J>, K: Phase> {
    board: Board<J, M>,
    standings: Vec<Standing>,
    // whether exports go on in the phase
    exports: bool,
    log: Log<Entry, K>,
    tickets: Numbers<K>,
    of: PhantomData<K>,
}

impl<J: Naming, M: Publisher<J>, K: Phase> Model for Phased<J, M, K> {
    ghost use Rattle.mds_board.specs.History.{World};
    ghost use Rattle.std.specs.Prelude.{◌≡◌};
    ghost use Rattle.phased_board.specs.Stops.{ranks_of};
    ghost use Rattle.phased_board.specs.OnTheWay.{IsOnTheWay};

    ghost Value = { World };

    ghost view = { λ p. p.board };

    ghost invariant = { λ p. IsOnTheWay K.requests K.exports (ranks_of K.stops) K.before K.orders p.board
        p.standings.items p.tickets × (p.exports ≡ K.exports) × (p.log ≡ p.board.history) };
}

impl<J: Naming, M: Publisher<J>, K: Phase> Phased<J, M, K> {
    /// The board with which the phase begins, its orders, of which each waits, and whether exports go on in it.
    pub fn new(
        board: Board<J, M>,
        standings: Vec<Standing>,
        exports: bool,
        names: PhaseNames,
    ) -> Phased<J, M, K>
        requires board { board ≡ K.before }
        requires asked { AreAsked board board K.orders standings.items }
        requires none { count_by is_begun standings.items ≡ 0 }
        requires exports { exports ≡ K.exports }
        requires log { names.log ≡ K.log }
        requires tickets { names.tickets ≡ K.numbers }
        ensures { result ≡ board }
    {
        let PhaseNames { log, tickets } = names;
        let mut log = log.named::<K>();
        note(&board, &mut log);
        Phased {
            board,
            standings,
            exports,
            log,
            tickets: tickets.named::<K>(),
            of: PhantomData,
        }
    }

    /// A request on a directory begins at a rank, and is counted in a share. It returns the ticket, which the thread is
    /// given. The thread has then seen the board's history.
    pub fn begin(
        &mut self,
        known: &mut Known<K>,
        share: &mut Share<J>,
        rank: Rank,
        dir: Dir,
    ) -> Result<u32, BoardError>
        requires { K.requests ≡ true }
        ensures answer { IsAnswer self.old (Change.Step (Event.Begin rank dir))
            (spelled (λ ticket. Answer.Reply (Reply.Ticket ticket)) result) self.new }
        ensures begun { IfOk result (λ ticket. IsBegun K.before known.new.seen rank dir ticket) }
        ensures given { IfOk result (λ ticket. known.new.tickets ≡ known.old.tickets ++ ticket ∷ []) }
        ensures refused { IfErr result (λ error. IsMet K.before known.new.seen (Change.Step (Event.Begin rank dir))
            error) }
        ensures none { OnErr result (known.new.tickets ≡ known.old.tickets) }
        ensures seen { IsPrefix known.old.seen known.new.seen }
        ensures share { OnOk result (share.new ≡ record share.old { begun = raised share.old.begun dir }) }
        ensures unchanged { OnErr result (share.new ≡ share.old) }
    {
        self.log.show(&mut known.seen);
        let begun = begin(&mut self.board, share, rank, dir);
        give(&mut self.tickets, &mut known.tickets, &begun);
        tell(&self.board, &mut self.log, &mut known.seen);
        begun
    }

    /// A request ends: its ticket is given back.
    pub fn end(&mut self, alloc: Global, ticket: u32) -> Result<Reply, BoardError>
        requires { K.requests ≡ true }
        ensures answer { IsAnswer self.old (Change.Step (Event.End ticket)) (spelled Answer.Reply result) self.new }
        ensures refused { IfErr result (λ error. IsMet K.before self.new.history (Change.Step (Event.End ticket))
            error) }
    {
        let ended = self.board.step(alloc, Event::End(ticket));
        note(&self.board, &mut self.log);
        ended
    }

    /// Whether no request with this ticket runs any more, if the cluster can say it: at its limit of events it
    /// can't.
    pub fn has_ended(&self, ticket: u32) -> bool
        ensures { IsTrue result ↔ (refusal self.now.state.cluster (Event.End ticket) ≡ Some StepError.NoTicket) }
    {
        let refused = self.board.cluster().can_apply(&Event::End(ticket));
        matches!(refused, Err(StepError::NoTicket))
    }

    /// Counts the hits that a share has pending. The thread has then seen the board's history, which goes on from what
    /// the rank's thread has seen, and has the tickets that this was given.
    pub fn deposit(
        &mut self,
        alloc: Global,
        known: &mut Known<K>,
        of_rank: Known<K>,
        share: &mut Share<J>,
    ) -> Result<(), BoardError>
        requires { K.requests ≡ true }
        ensures answer { IsAnswer self.old (Change.Deposit (counted_rows share.old.pending))
            (spelled (λ _. Answer.Done) result) self.new }
        ensures refused { IfErr result (λ error. IsMet K.before known.new.seen
            (Change.Deposit (counted_rows share.old.pending)) error) }
        ensures seen { IsPrefix known.old.seen known.new.seen × IsPrefix of_rank.seen known.new.seen }
        ensures tickets { known.new.tickets ≡ known.old.tickets ++ of_rank.tickets }
        ensures apart { AreApart known.new.tickets }
        ensures share { OnOk result (share.new ≡ record share.old { pending = replicate (J.limit + J.limit) 0 }) }
        ensures unchanged { OnErr result (share.new ≡ share.old) }
    {
        let deposited = self.board.deposit(alloc, share);
        let Known { mut seen, tickets } = of_rank;
        tell(&self.board, &mut self.log, &mut seen);
        tell(&self.board, &mut self.log, &mut known.seen);
        self.tickets.join(&mut known.tickets, tickets);
        deposited
    }

    /// A rank stops that stops in the phase. The thread has then seen the board's history.
    pub fn stop(
        &mut self,
        alloc: Global,
        known: &mut Known<K>,
        rank: Rank,
    ) -> Result<(), BoardError>
        requires { Contains (ranks_of K.stops) rank }
        ensures stopped { OnOk result (IsStopped K.before known.new.seen rank) }
        ensures refused { IfErr result (λ error. IsMet K.before known.new.seen (Change.Step (Event.Stop rank)) error) }
        ensures seen { IsPrefix known.old.seen known.new.seen }
        ensures tickets { known.new.tickets ≡ known.old.tickets }
    {
        let stopped = self.board.step(alloc, Event::Stop(rank));
        tell(&self.board, &mut self.log, &mut known.seen);
        refusal_of(stopped)
    }

    /// What a thread knows that has seen the board's history and was given no ticket.
    pub fn look(&mut self) -> Known<K>
        ensures seen { result.seen ≡ self.old.history }
        ensures tickets { result.tickets ≡ [] }
        ensures same { self.new ≡ self.old }
    {
        Known {
            seen: self.log.seen(),
            tickets: self.tickets.none(),
        }
    }

    /// The rank of a directory in all that is published of the map. The thread has then seen the board's history.
    pub fn rank_published(&mut self, known: &mut Known<K>, dir: Dir) -> Option<Rank>
        ensures found { WasPublished K.before known.new.seen dir result }
        ensures seen { IsPrefix known.old.seen known.new.seen }
        ensures tickets { known.new.tickets ≡ known.old.tickets }
        ensures same { self.new ≡ self.old }
    {
        self.log.show(&mut known.seen);
        self.board.rank_published(dir)
    }

    /// The board's history goes on from what a thread has seen. It does nothing.
    pub fn compare(&mut self, known: Known<K>)
        ensures before { IsPrefix known.seen self.old.history }
        ensures same { self.new ≡ self.old }
    {
        let Known {
            mut seen,
            tickets: _tickets,
        } = known;
        self.log.show(&mut seen);
    }

    /// What holds of the board each time that it is found under the lock: what holds of every board, and that it has
    /// gone on from the one with which the phase began. It does nothing.
    pub fn promises(&self)
        ensures kept { IsKept self.now }
        ensures went { WentOnWithStops K.requests K.exports (ranks_of K.stops) K.before self.now }
    {
        self.board.promises();
    }

    // The board.
    pub(crate) fn board(&self) -> &Board<J, M>
        ensures { result.now ≡ self.now }
    {
        &self.board
    }

    /// The board, and the state of each order.
    pub fn into_parts(self) -> (Board<J, M>, Vec<Standing>)
        ensures same { result.0 ≡ self }
        ensures way { IsOnTheWay K.requests K.exports (ranks_of K.stops) K.before K.orders result.0
            result.1.items 0 }
    {
        let Phased {
            board,
            standings,
            exports: _exports,
            log: _log,
            tickets: _tickets,
            of: _of,
        } = self;
        (board, standings)
    }
}

impl<J: Naming, M: Publisher<J>, K: Phase> ExportSide for Phased<J, M, K> {
    ghost use Rattle.std.specs.Prelude.{length};

    ghost earlier = { length K.before.state.cluster.orders };

    fn cluster(&self) -> &Cluster {
        self.board.cluster()
    }

    fn start(&mut self, alloc: Global, number: usize) -> Option<u32> {
        if self.exports {
            let started = settle_at(&mut self.board, alloc, &mut self.standings, number);
            note(&self.board, &mut self.log);
            started
        } else {
            None
        }
    }

    fn step(&mut self, alloc: Global, event: Event) -> bool {
        if self.exports {
            let stepped = self.board.step(alloc, event);
            note(&self.board, &mut self.log);
            stepped.is_ok()
        } else {
            false
        }
    }

    fn publish(&mut self) {
        if self.exports {
            let _ = self.board.publish();
        }
    }

    fn started(&self, number: usize) -> Option<u32> {
        match self.standings.get(number) {
            Some(Standing::Started(export)) => Some(*export),
            _ => None,
        }
    }
}

// A request begins. It returns the ticket.
#[tactic(auto, unfolding(mds_board::specs::State::happens, export_protocol::specs::Step::happens))]
fn begin<J: Naming, M: Publisher<J>>(
    board: &mut Board<J, M>,
    share: &mut Share<J>,
    rank: Rank,
    dir: Dir,
) -> Result<u32, BoardError>
    ensures answer { IsAnswer board.old (Change.Step (Event.Begin rank dir))
        (spelled (λ ticket. Answer.Reply (Reply.Ticket ticket)) result) board.new }
    ensures share { OnOk result (share.new ≡ record share.old { begun = raised share.old.begun dir }) }
    ensures unchanged { OnErr result (share.new ≡ share.old) }
{
    match board.begin(share, rank, dir) {
        Ok(Reply::Ticket(ticket)) => Ok(ticket),
        Ok(_) => unreachable!(),
        Err(error) => Err(error),
    }
}

// The refusal of an event, if it was refused.
fn refusal_of(answered: Result<Reply, BoardError>) -> Result<(), BoardError>
    ensures done { IsOk result → IsOk answered }
    ensures refused { IfErr result (λ error. answered ≡ Err error) }
{
    match answered {
        Ok(_reply) => Ok(()),
        Err(error) => Err(error),
    }
}

// Gives a thread the ticket with which its request began, if it did.
fn give<K: Phase>(tickets: &mut Numbers<K>, given: &mut Given<K>, begun: &Result<u32, BoardError>)
    requires { IfOk begun.now (λ ticket. tickets.old ≤ ticket) }
    ensures given { IfOk begun.now (λ ticket. given.new ≡ given.old ++ ticket ∷ []) }
    ensures next { IfOk begun.now (λ ticket. tickets.new ≡ ticket + 1) }
    ensures none { OnErr begun.now (given.new ≡ given.old) }
    ensures same { OnErr begun.now (tickets.new ≡ tickets.old) }
{
    if let Ok(ticket) = begun {
        tickets.give(given, *ticket);
    }
}

// The log goes on to the board's history.
fn note<J: Naming, M: Publisher<J>, K: Phase>(board: &Board<J, M>, log: &mut Log<Entry, K>)
    requires { IsPrefix log.old board.now.history }
    ensures { log.new ≡ board.now.history }
{
    log.grow::<Brand, Board<J, M>>(board);
}

// The log goes on to the board's history, and is shown to a thread.
fn tell<J: Naming, M: Publisher<J>, K: Phase>(
    board: &Board<J, M>,
    log: &mut Log<Entry, K>,
    seen: &mut Sight<Entry, K>,
)
    requires { IsPrefix log.old board.now.history }
    ensures log { log.new ≡ board.now.history }
    ensures seen { seen.new ≡ board.now.history }
    ensures before { IsPrefix seen.old board.now.history }
{
    note(board, log);
    log.show(seen);
}
