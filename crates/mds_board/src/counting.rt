//! Shares of the ledger deposit hits, and requests begin.
ghost use Rattle.std.specs.Prelude.{◌≡◌, ◌≤◌, ◌+◌, ℕ, List, All, true, false, IsErr};
ghost use Rattle.std.specs.Prelude.{IfErr, IfOk, OnOk, OnErr, fold, replicate};
ghost use Rattle.heat_ledger.specs.declared.dir_hits.DirHits.{DirHits};
ghost use Rattle.heat_ledger.specs.Ledger.{IsClean, begun_of, hits_of, pending_of, weight_of};
ghost use Rattle.heat_ledger.specs.Rows.{at, counted_rows, entry, raised};
ghost use Rattle.mds_board.specs.State.{refusal, happens, warmed};
ghost use Rattle.mds_board.specs.Steps.{IsStep, spelled};

use crate::board_error::BoardError;
use crate::change::{Answer, Change, Hits};
use crate::state::BoardState;
use crate::weights::Weights;
use authority_map::Publisher;
use dirtree::Tree;
use export_protocol::laws::recorded;
use export_protocol::{Event, Reply};
use heat_decay::Heat;
use heat_ledger::{DirHits, Missing, Share};
use mds_types::{Dir, Kind, Rank};
use proof_names::Naming;
use std::alloc::Global;

impl<J: Naming, M: Publisher<J>> BoardState<J, M> {
    /// Why a deposit is refused.
    #[tactic(auto, unfolding(crate::specs::State::refusal))]
    pub fn deposit_refusal(&self) -> Option<BoardError>
        ensures { (hits : List DirHits) → result ≡ refusal self.now.state (Change.Deposit hits) }
    {
        if self.is_full() {
            return Some(BoardError::HistoryFull);
        }
        None
    }

    /// Counts the pending hits of a share, which give heat to the directories that are there, by the weights of now,
    /// and returns them. It takes time only for these directories.
    #[tactic(auto, unfolding(crate::specs::State::happens))]
    pub fn deposit(&mut self, alloc: Global, share: &mut Share<J>) -> Result<Hits, BoardError>
        ensures step { IsStep self.old (Change.Deposit (counted_rows share.old.pending))
            (spelled (λ _. Answer.Done) result) self.new }
        ensures hits { IfOk result (λ hits. hits ≡ counted_rows share.old.pending) }
        ensures share { OnOk result (share.new ≡ record share.old { pending = replicate (J.limit + J.limit) 0 }) }
        ensures unchanged { OnErr result (share.new ≡ share.old) }
    {
        if let Some(error) = self.deposit_refusal() {
            return Err(error);
        }
        let Ok(rows) = share.pending_rows(alloc) else {
            return Err(BoardError::Memory);
        };
        warm(&mut self.heat, self.weights, &self.tree, &rows);
        let _rows = self.book.limit();
        self.book.deposit(share);
        self.events += 1;
        Ok(Hits::new(rows))
    }

    /// Why a request doesn't begin.
    #[tactic(auto, unfolding(crate::specs::State::refusal))]
    pub fn begin_refusal(&self, rank: Rank, dir: Dir) -> Option<BoardError>
        ensures { result ≡ refusal self.now.state (Change.Step (Event.Begin rank dir)) }
    {
        if self.is_full() {
            return Some(BoardError::HistoryFull);
        }
        match self.cluster.can_apply(&Event::Begin(rank, dir)) {
            Ok(()) => None,
            Err(error) => Some(BoardError::Step(error)),
        }
    }

    /// A request on a directory begins at a rank, and is counted in a share.
    #[tactic(auto, unfolding(crate::specs::State::happens))]
    pub fn begin(&mut self, share: &mut Share<J>, rank: Rank, dir: Dir) -> Result<Reply, BoardError>
        ensures step { IsStep self.old (Change.Step (Event.Begin rank dir)) (spelled Answer.Reply result) self.new }
        ensures share { OnOk result (share.new ≡ record share.old { begun = raised share.old.begun dir }) }
        ensures unchanged { OnErr result (share.new ≡ share.old) }
    {
        recorded();
        if self.is_full() {
            return Err(BoardError::HistoryFull);
        }
        let begin = Event::Begin(rank, dir);
        match self.cluster.prepare(&begin) {
            Ok(()) => {}
            Err(error) => return Err(BoardError::from(error)),
        }
        self.cluster.reached();
        let reply = self.cluster.happen(begin);
        self.book.begin(share, dir);
        self.events += 1;
        Ok(reply)
    }
}

impl<J: Naming, M: Publisher<J>> BoardState<J, M> {
    /// For a caller that has all shares of the ledger: the counted and the pending hits are the hits of the shares, and
    /// the begun requests are theirs. It changes nothing.
    pub fn audit(&mut self, shares: &mut Vec<Share<J>>)
        requires { weight_of shares.old.items ≡ self.old.shares }
        ensures hits { (e : ℕ) → at self.new.state.counted e + pending_of shares.new.items e
            ≡ hits_of shares.new.items e }
        ensures begun { (dir : ℕ) → at self.new.state.begun dir ≡ begun_of shares.new.items dir }
        ensures same { (self.new ≡ self.old) × (shares.new.items ≡ shares.old.items) }
    {
        self.book.audit(shares);
    }

    /// Closes the ledger over all its shares, which have nothing pending and are used up: what was counted is what they
    /// counted. Where some are missing, it returns their weight, and the shares. It is no event.
    pub fn close(&mut self, shares: Vec<Share<J>>) -> Result<(), (Missing, Vec<Share<J>>)>
        requires { All IsClean shares.items }
        ensures ok { OnOk result ((self.old.is_open ≡ true) × (self.new ≡ record self.old { is_open = false })) }
        ensures all { OnOk result (weight_of shares.items ≡ self.old.shares) }
        ensures hits { OnOk result ((e : ℕ) → at self.new.state.counted e ≡ hits_of shares.items e) }
        ensures begun { OnOk result ((dir : ℕ) → at self.new.state.begun dir ≡ begun_of shares.items dir) }
        ensures missing { IfErr result (λ e. (1 ≤ e.0.0) × (e.0.0 + weight_of shares.items ≡ self.old.shares)) }
        ensures handed_back { IfErr result (λ e. e.1.items ≡ shares.items) }
        ensures closed { self.old.is_open ≡ false → IsErr result }
        ensures err { OnErr result (self.new ≡ self.old) }
    {
        self.book.close(shares)
    }

    /// The hits of a kind on a directory that were deposited.
    pub fn counted(&self, dir: Dir, kind: Kind) -> u64
        ensures { result ≡ at self.now.state.counted (entry dir kind) }
    {
        self.book.counted(dir, kind)
    }

    /// The requests on a directory that were begun.
    pub fn begun(&self, dir: Dir) -> u64
        ensures { result ≡ at self.now.state.begun dir }
    {
        self.book.begun(dir)
    }
}

// Deposits hits on the directories that are there.
fn warm(heat: &mut Heat, weights: Weights, tree: &Tree, rows: &[DirHits])
    requires { tree.now.limit ≤ heat.old.limit }
    ensures heats { heat.new ≡ fold (warmed weights tree.now.entries) heat.old rows.now }
    ensures same { (heat.new.limit ≡ heat.old.limit) × (heat.new.ticks ≡ heat.old.ticks) }
{
    for hits in rows {
        if tree.contains(hits.dir) {
            heat.add(hits.dir, weights.weigh(hits));
        }
    }
}
