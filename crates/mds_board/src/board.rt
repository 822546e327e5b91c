//! The board.
ghost use Rattle.std.specs.Prelude.{◌≡◌, ◌≤◌, ◌⊎◌, ℕ, ◌+◌, [], All, IfOk, IfErr, IsErr, OnOk, OnErr};
ghost use Rattle.std.specs.Prelude.{MatchBool, None, Some, false, replicate, true, vec_len};
ghost use Rattle.mds_types.specs.Certificate.{IsBest, IsCertified};
ghost use Rattle.mds_types.specs.declared.plan.Plan.{Plan};
ghost use Rattle.heat_ledger.specs.Opening.{fresh_share};
ghost use Rattle.heat_ledger.specs.Ledger.{IsClean, begun_of, hits_of, pending_of, weight_of};
ghost use Rattle.heat_ledger.specs.Rows.{at, counted_rows, raised};
ghost use Rattle.mds_board.specs.State.{balance_refusal, first_operations, happens, next, problem_of, refusal, start};
ghost use Rattle.mds_board.specs.Steps.{is_inner, spelled};
ghost use Rattle.mds_board.specs.History.{IsAnswer, recorded};
ghost use Rattle.mds_board.specs.Stored.{HasRoom};

use crate::history::History;
use crate::{
    Answer, BoardError, BoardParts, BoardState, Change, KeptEvent, KeptPlan, Solver, or_memory,
};
use authority_map::{MapReader, Publisher};
use dirtree::Name;
use export_protocol::{Event, Reply};
use heat_ledger::{Missing, Share};
use mds_types::{Dir, Order, Plan, Problem, Rank, RankSet};
use proof_names::Naming;
use std::alloc::{AllocError, Global};
use std::marker::Model;
use std::thread::Threads;

/// One state, with the history of its changes. `J` names it.
///
/// Each change is refused, which changes nothing, or is made whole and kept with its reply. The board can't be
/// dropped, only ended, as it has the map's writer.
pub struct Board<J: Naming, M: Publisher<J>> {
    pub(crate) state: BoardState<J, M>,
    pub(crate) history: History,
}

impl<J: Naming, M: Publisher<J>> Model for Board<J, M> {
    ghost use Rattle.mds_board.specs.History.{World, IsHistory, world_of};

    ghost Value = { World };

    ghost view = { λ b. world_of b.state b.history.entries };

    ghost invariant = { λ b. IsHistory b.state.state b.history.entries };
}

impl<J: Naming, M: Publisher<J>> Board<J, M> {
    /// Only the root, at rank 0 of `active` active ranks, with room for the directory numbers below `limit`, and a
    /// share of the ledger for each rank. The map has one operation, which gives the root to rank 0, and it is
    /// published. Where memory is refused, it returns the parts, and the map may have this operation then.
    pub fn new(
        alloc: Global,
        parts: BoardParts<J, M>,
        limit: u32,
        active: u8,
    ) -> Result<(Board<J, M>, Vec<Share<J>>), BoardParts<J, M>>
        requires limit { limit ≡ J.limit }
        requires low { 1 ≤ limit }
        requires high { limit ≤ 65536 }
        requires some { 1 ≤ active }
        requires few { active ≤ 64 }
        ensures board { IfOk result (λ r. r.0 ≡ record {
          state = start limit active;
          is_open = true;
          shares = active;
          published = first_operations true;
          history = [];
        }) }
        ensures shares { IfOk result (λ r. r.1.items ≡ replicate active (fresh_share limit)) }
    {
        match BoardState::new(alloc, parts, limit, active) {
            Err(parts) => Err(parts),
            Ok((state, shares)) => {
                let history = History::new(alloc);
                Ok((Board { state, history }, shares))
            }
        }
    }

    /// Halves all heats.
    pub fn tick(&mut self) -> Result<(), BoardError>
        ensures { IsAnswer self.old Change.Tick (spelled (λ _. Answer.Done) result) self.new }
    {
        if self.history.reserve(1).is_err() {
            return Err(or_memory(self.state.tick_refusal()));
        }
        self.state.tick()?;
        self.history.keep_tick();
        Ok(())
    }

    /// Makes a directory below a parent, with `inodes` inodes and a name that no child of it has. Its authority is the
    /// parent's.
    pub fn make(
        &mut self,
        alloc: Global,
        parent: Dir,
        name: &str,
        inodes: u32,
    ) -> Result<Dir, BoardError>
        ensures { IsAnswer self.old (Change.Make parent name.now inodes) (spelled Answer.Dir result) self.new }
    {
        let Ok(kept) = room_for_name(alloc, &mut self.history, name) else {
            return Err(or_memory(self.state.make_refusal(parent, name)));
        };
        let dir = self.state.make(alloc, parent, name, inodes)?;
        self.history
            .keep(Change::Make(parent, kept, inodes), Answer::Dir(dir));
        Ok(dir)
    }

    /// Removes a directory without children on which no request runs and that is in no open export.
    pub fn remove(&mut self, dir: Dir) -> Result<(), BoardError>
        ensures { IsAnswer self.old (Change.Remove dir) (spelled (λ _. Answer.Done) result) self.new }
    {
        if self.history.reserve(1).is_err() {
            return Err(or_memory(self.state.remove_refusal(dir)));
        }
        self.state.remove(dir)?;
        self.history.keep(Change::Remove(dir), Answer::Done);
        Ok(())
    }

    /// Pins a directory on a rank or, by -1, takes its own pin away.
    pub fn set_pin(&mut self, dir: Dir, pin: i32) -> Result<(), BoardError>
        ensures { IsAnswer self.old (Change.Pin dir pin) (spelled (λ _. Answer.Done) result) self.new }
    {
        if self.history.reserve(1).is_err() {
            return Err(or_memory(self.state.pin_refusal(dir, pin)));
        }
        self.state.set_pin(dir, pin)?;
        self.history.keep(Change::Pin(dir, pin), Answer::Done);
        Ok(())
    }

    /// Says which ranks the balancer may use.
    pub fn set_mask(&mut self, mask: RankSet) -> Result<(), BoardError>
        ensures { IsAnswer self.old (Change.Mask mask) (spelled (λ _. Answer.Done) result) self.new }
    {
        if self.history.reserve(1).is_err() {
            return Err(or_memory(self.state.mask_refusal(mask)));
        }
        self.state.set_mask(mask)?;
        self.history.keep(Change::Mask(mask), Answer::Done);
        Ok(())
    }

    /// Says how much a read and a write count in the deposits from now on, in accesses: 1 to 16 each. Heats stay, and
    /// so does the problem that is open.
    pub fn set_weights(&mut self, read: u8, write: u8) -> Result<(), BoardError>
        ensures { IsAnswer self.old (Change.Weights read write) (spelled (λ _. Answer.Done) result) self.new }
    {
        if self.history.reserve(1).is_err() {
            return Err(or_memory(self.state.weights_refusal(read, write)));
        }
        self.state.set_weights(read, write)?;
        self.history
            .keep(Change::Weights(read, write), Answer::Done);
        Ok(())
    }

    /// Counts the hits that a share has pending. Weighed, they give heat to the directories that are there.
    pub fn deposit(&mut self, alloc: Global, share: &mut Share<J>) -> Result<(), BoardError>
        ensures answer { IsAnswer self.old (Change.Deposit (counted_rows share.old.pending))
            (spelled (λ _. Answer.Done) result) self.new }
        ensures share { OnOk result (share.new ≡ record share.old { pending = replicate (J.limit + J.limit) 0 }) }
        ensures unchanged { OnErr result (share.new ≡ share.old) }
    {
        if self.history.reserve(1).is_err() {
            return Err(or_memory(self.state.deposit_refusal()));
        }
        let hits = self.state.deposit(alloc, share)?;
        self.history.keep(Change::Deposit(hits), Answer::Done);
        Ok(())
    }

    /// A request on a directory begins at a rank, and is counted in a share.
    #[tactic(auto, unfolding(crate::specs::State::happens, export_protocol::specs::Step::happens))]
    pub fn begin(&mut self, share: &mut Share<J>, rank: Rank, dir: Dir) -> Result<Reply, BoardError>
        ensures answer { IsAnswer self.old (Change.Step (Event.Begin rank dir)) (spelled Answer.Reply result) self.new }
        ensures share { OnOk result (share.new ≡ record share.old { begun = raised share.old.begun dir }) }
        ensures unchanged { OnErr result (share.new ≡ share.old) }
    {
        if self.history.reserve(1).is_err() {
            return Err(or_memory(self.state.begin_refusal(rank, dir)));
        }
        let reply = self.state.begin(share, rank, dir)?;
        let Reply::Ticket(ticket) = reply else {
            unreachable!()
        };
        self.history.keep_begin(rank, dir, ticket);
        Ok(reply)
    }

    /// An event of the cluster that neither makes nor removes a directory nor begins a request: `make`, `remove` and
    /// `begin` do that.
    pub fn step(&mut self, alloc: Global, event: Event) -> Result<Reply, BoardError>
        requires inner { is_inner event ≡ true }
        ensures { IsAnswer self.old (Change.Step event) (spelled Answer.Reply result) self.new }
    {
        match event {
            Event::End(ticket) => self.end_request(alloc, ticket),
            event => self.step_kept(alloc, event),
        }
    }

    // The request of a ticket ends.
    #[tactic(auto, unfolding(crate::specs::State::happens, export_protocol::specs::Step::happens))]
    fn end_request(&mut self, alloc: Global, ticket: u32) -> Result<Reply, BoardError>
        ensures { IsAnswer self.old (Change.Step (Event.End ticket)) (spelled Answer.Reply result) self.new }
    {
        if self.history.reserve(1).is_err() {
            return Err(or_memory(self.state.step_refusal(&Event::End(ticket))));
        }
        let reply = self.state.step(alloc, Event::End(ticket))?;
        self.history.keep_end(ticket);
        Ok(reply)
    }

    // An event whose entry has a place for it.
    fn step_kept(&mut self, alloc: Global, event: Event) -> Result<Reply, BoardError>
        requires inner { is_inner event ≡ true }
        ensures { IsAnswer self.old (Change.Step event) (spelled Answer.Reply result) self.new }
    {
        let Ok(kept) = room_for_event(alloc, &mut self.history, &event) else {
            return Err(or_memory(self.state.step_refusal(&event)));
        };
        let reply = self.state.step(alloc, event)?;
        Ok(self.history.keep_step(kept, reply))
    }

    /// Opens the problem of the directories that no pin holds, with their heats and authorities as they are.
    pub fn open_problem(&mut self, alloc: Global) -> Result<Problem, BoardError>
        ensures { IsAnswer self.old Change.Open (spelled Answer.Problem result) self.new }
    {
        if self.history.reserve(1).is_err() {
            return Err(or_memory(self.state.open_refusal()));
        }
        let (given, kept) = self.state.open_problem(alloc)?;
        self.history.keep(Change::Open, Answer::Problem(kept));
        Ok(given)
    }

    /// Puts a plan in force that is best for the problem that is open. It returns the orders by which the directories
    /// come to the ranks that the plan gives them.
    pub fn adopt(&mut self, alloc: Global, plan: Plan) -> Result<Vec<Order>, BoardError>
        ensures { IsAnswer self.old (Change.Adopt plan) (spelled (λ orders. Answer.Orders orders.items) result)
            self.new }
    {
        let Ok(kept) = room_for_plan(alloc, &mut self.history, plan) else {
            return Err(or_memory(self.state.adopt_refusal()));
        };
        let (given, orders) = self.state.adopt(alloc, kept.plan())?;
        self.history
            .keep(Change::Adopt(kept), Answer::Orders(orders));
        Ok(given)
    }

    /// Opens the problem, solves it and adopts the plan: two events. It returns the plan's orders, as the history has
    /// them. What the solver promises of its plans holds of this one. It fails only for a full history, a balancer that
    /// is off, or memory.
    #[tactic(auto, unfolding(crate::specs::State::happens))]
    pub fn balance<S: Solver, R: Threads + Sync>(
        &mut self,
        rt: &R,
        alloc: Global,
        solver: &S,
    ) -> Result<Vec<Order>, BoardError>
        ensures ok { IfOk result (λ orders. (plan : Plan) × IsBest (problem_of self.old.state) plan
            × IsCertified (problem_of self.old.state) plan × S.also (problem_of self.old.state) plan
            × (refusal self.old.state Change.Open ≡ None)
            × (Answer.Orders orders.items ≡ (happens (next self.old.state Change.Open) (Change.Adopt plan)).reply)
            × (self.new ≡ recorded (recorded self.old Change.Open) (Change.Adopt plan))) }
        ensures err { IfErr result (λ e. (balance_refusal self.old.state ≡ Some e)
            ⊎ ((balance_refusal self.old.state ≡ None) × (e ≡ BoardError.Memory))) }
        ensures unchanged { OnErr result (self.new ≡ self.old) }
    {
        if self.history.reserve(2).is_err() {
            return Err(or_memory(self.state.balance_refusal()));
        }
        let done = self.state.balance(rt, alloc, solver)?;
        Ok(self.history.keep_both(done))
    }

    /// Publishes the map, and says whether memory sufficed. It is no event.
    pub fn publish(&mut self) -> bool
        ensures { MatchBool result (self.new ≡ record self.old { published = self.old.state.map })
            (self.new ≡ self.old) }
    {
        self.state.publish()
    }

    /// Opens the map anew, for this many readers, which hold all that is published. Readers of before find it closed.
    /// It is no event. Where memory is refused, nothing has changed.
    pub fn reopen(&mut self, alloc: Global, readers: u8) -> Result<Vec<MapReader<J>>, AllocError>
        requires readers { (1 ≤ readers) × (readers ≤ 64) }
        ensures count { IfOk result (λ made. vec_len made ≡ readers) }
        ensures readers { IfOk result (λ made. All (λ reader. reader ≡ self.old.published) made.items) }
        ensures same { self.new ≡ self.old }
    {
        self.state.reopen(alloc, readers)
    }

    /// For a caller that has all shares of the ledger: the counted and the pending hits are the hits of the shares, and
    /// the begun requests are theirs. It changes nothing, and is no event.
    pub fn audit(&mut self, shares: &mut Vec<Share<J>>)
        requires { weight_of shares.old.items ≡ self.old.shares }
        ensures hits { (e : ℕ) → at self.new.state.counted e + pending_of shares.new.items e
            ≡ hits_of shares.new.items e }
        ensures begun { (dir : ℕ) → at self.new.state.begun dir ≡ begun_of shares.new.items dir }
        ensures same { (self.new ≡ self.old) × (shares.new.items ≡ shares.old.items) }
    {
        self.state.audit(shares);
    }

    /// Closes the ledger over all its shares, which have nothing pending and are used up: what was counted is what they
    /// counted. Where some are missing, it returns their weight, and the shares. It is no event.
    pub fn close(&mut self, shares: Vec<Share<J>>) -> Result<(), (Missing, Vec<Share<J>>)>
        requires { All IsClean shares.items }
        ensures ok { OnOk result ((self.old.is_open ≡ true) × (self.new ≡ record self.old { is_open = false })) }
        ensures all { OnOk result (weight_of shares.items ≡ self.old.shares) }
        ensures hits { OnOk result ((e : ℕ) → at self.new.state.counted e ≡ hits_of shares.items e) }
        ensures begun { OnOk result ((dir : ℕ) → at self.new.state.begun dir ≡ begun_of shares.items dir) }
        ensures missing { IfErr result (λ e. (1 ≤ e.0.0) × (e.0.0 + weight_of shares.items ≡ self.old.shares)) }
        ensures handed_back { IfErr result (λ e. e.1.items ≡ shares.items) }
        ensures closed { self.old.is_open ≡ false → IsErr result }
        ensures err { OnErr result (self.new ≡ self.old) }
    {
        self.state.close(shares)
    }

    /// Ends the map: its readers find it closed.
    pub fn end(self) {
        let Board {
            state,
            history: _history,
        } = self;
        state.end();
    }
}

// Room for an entry, and a name for it.
fn room_for_name(alloc: Global, history: &mut History, name: &str) -> Result<Name, AllocError>
    ensures same { history.new.entries ≡ history.old.entries }
    ensures room { OnOk result (HasRoom 1 history.new) }
    ensures name { IfOk result (λ kept. kept ≡ name.now) }
{
    history.reserve(1)?;
    Name::new(alloc, name)
}

// Room for an entry, and an event for it.
fn room_for_event(
    alloc: Global,
    history: &mut History,
    event: &Event,
) -> Result<KeptEvent, AllocError>
    ensures same { history.new.entries ≡ history.old.entries }
    ensures room { OnOk result (HasRoom 1 history.new) }
    ensures event { IfOk result (λ kept. kept ≡ event.now) }
{
    history.reserve(1)?;
    Ok(KeptEvent::new(event.copied(alloc)?))
}

// Room for an entry, and a place for a plan.
fn room_for_plan(alloc: Global, history: &mut History, plan: Plan) -> Result<KeptPlan, AllocError>
    ensures same { history.new.entries ≡ history.old.entries }
    ensures room { OnOk result (HasRoom 1 history.new) }
    ensures plan { IfOk result (λ kept. kept ≡ plan) }
{
    history.reserve(1)?;
    KeptPlan::new(alloc, plan)
}
