//! The requests of one rank are served in order.
ghost use Rattle.std.specs.Prelude.{◌≡◌, ◌<◌, ◌≤◌, [], ◌∷◌, ◌++◌, IsNone, IsSome, Some};
ghost use Rattle.std.specs.Prelude.{false, length, true, vec_capacity};
ghost use Rattle.std.specs.Option.{option_map};
ghost use Rattle.heat_ledger.specs.Rows.{entry};
ghost use Rattle.rank_threads.specs.Answered.{IsAnswered, IsRankServed};
ghost use Rattle.rank_threads.specs.Serving.{Counted, Fits, IsShort, after_hits, no_thread};
ghost use Rattle.rank_threads.specs.Tickets.{ticket_named};
ghost use Rattle.rank_threads.specs.Ways.{HoldsAsMuch, IsAskedAt};
ghost use mathlib.Core.List.{IsPrefix};

use crate::desk::{Done, Serving};
use crate::route::{Route, asked_rank};
use crate::work::{Work, WorkAnswer, WorkError};
use authority_map::Publisher;
use heat_ledger::{HitError, Share};
use mds_types::{Dir, Kind, Rank};
use phased_board::{Gate, Phase};
use proof_names::Naming;
use std::marker::{Send, Sync};
use std::sync::Wait;

// Counts the hits on a directory for which there is room, and says how many these are and why not all.
fn count<J: Naming>(
    share: &mut Share<J>,
    dir: Dir,
    kind: Kind,
    hits: u32,
) -> (u32, Option<HitError>)
    ensures all { IsNone result.1 → result.0 ≡ hits }
    ensures fewer { IsSome result.1 → result.0 < hits }
    ensures short { IsShort J.limit share.new dir kind (option_map WorkError.Share result.1) }
    ensures share { share.new ≡ after_hits share.old (entry dir kind) result.0 }
{
    if hits == 0 {
        return (0, None);
    }
    if dir.number() as usize >= share.limit() {
        return (0, Some(HitError::NoDir));
    }
    let counted = share.count(dir, kind, hits);
    if counted < hits {
        (counted, Some(HitError::ShareFull))
    } else {
        (counted, None)
    }
}

// The answer to a request that began.
fn counted(ticket: u32, hits: u32, refused: Option<HitError>) -> WorkAnswer
    ensures ticket { result.ticket ≡ Some ticket }
    ensures hits { result.hits ≡ hits }
    ensures refused { result.refused ≡ option_map WorkError.Share refused }
{
    let refused = match refused {
        Some(error) => Some(WorkError::Share(error)),
        None => None,
    };
    WorkAnswer {
        ticket: Some(ticket),
        hits,
        refused,
    }
}

impl<
    J: Naming + Send + Sync,
    M: Publisher<J> + Send,
    K: Phase + Send + Sync,
    R: Wait + Sync,
    G: Gate + Sync,
> Serving<'_, J, M, K, R, G> {
    // The rank at which a request is asked. Where the thread's reader finds the map closed, what is published is looked
    // up under the lock.
    fn rank_for<W: Route>(&self, dir: Dir, done: &mut Done<J, W, K>) -> Rank
        ensures asked { IsAskedAt K.before done.new.known.seen (W.way done.old.way) (W.way done.new.way) dir result }
        ensures held { HoldsAsMuch (W.way done.old.way) (W.way done.new.way) }
        ensures seen { IsPrefix done.old.known.seen done.new.known.seen }
        ensures tickets { done.new.known.tickets ≡ done.old.known.tickets }
        ensures same { (done.new.share ≡ done.old.share) × (done.new.answers ≡ done.old.answers) }
    {
        if let Some(rank) = done.way.rank_for(dir) {
            return rank;
        }
        let published = self.cell.lock(self.rt).rank_published(&mut done.known, dir);
        asked_rank(published)
    }

    // Serves a request. The lock is held only for each event.
    fn serve_one<W: Route>(
        &self,
        rank: Rank,
        number: usize,
        work: Work,
        done: &mut Done<J, W, K>,
    ) -> WorkAnswer
        requires { K.requests ≡ true }
        ensures fits { Fits work result }
        ensures counted { Counted J.limit done.old.share (work ∷ []) (result ∷ []) done.new.share }
        ensures short { IsShort J.limit done.new.share work.dir work.kind result.refused }
        ensures answered { IsAnswered K.before done.new.known.seen (W.way done.old.way) (W.way done.new.way) work
            result }
        ensures given { done.new.known.tickets ≡ done.old.known.tickets ++ ticket_named result.ticket }
        ensures seen { IsPrefix done.old.known.seen done.new.known.seen }
        ensures held { HoldsAsMuch (W.way done.old.way) (W.way done.new.way) }
        ensures answers { done.new.answers ≡ done.old.answers }
    {
        let _rows = done.share.limit();
        let asked = self.rank_for(work.dir, done);
        let begun = self
            .cell
            .lock(self.rt)
            .begin(&mut done.known, &mut done.share, asked, work.dir);
        self.gate.before(rank, number as u64);
        let answer = match begun {
            Ok(ticket) => {
                let (hits, refused) = count(&mut done.share, work.dir, work.kind, work.hits);
                // where this is refused, it is tried once more when all threads have joined
                let _end = self.cell.lock(self.rt).end(self.alloc, ticket);
                counted(ticket, hits, refused)
            }
            Err(error) => WorkAnswer::refused(WorkError::Board(error)),
        };
        self.gate.after(rank, number as u64);
        answer
    }

    // Serves a request, or refuses it where the rank has no thread.
    fn answer_to<W: Route>(
        &self,
        has_thread: bool,
        rank: Rank,
        number: usize,
        work: Work,
        done: &mut Done<J, W, K>,
    ) -> WorkAnswer
        requires { K.requests ≡ true }
        ensures fits { Fits work result }
        ensures counted { Counted J.limit done.old.share (work ∷ []) (result ∷ []) done.new.share }
        ensures short { IsShort J.limit done.new.share work.dir work.kind result.refused }
        ensures answered { has_thread ≡ true → IsAnswered K.before done.new.known.seen (W.way done.old.way)
            (W.way done.new.way) work result }
        ensures refused { has_thread ≡ false → result ≡ no_thread }
        ensures given { done.new.known.tickets ≡ done.old.known.tickets ++ ticket_named result.ticket }
        ensures seen { IsPrefix done.old.known.seen done.new.known.seen }
        ensures held { HoldsAsMuch (W.way done.old.way) (W.way done.new.way) }
        ensures answers { done.new.answers ≡ done.old.answers }
    {
        if has_thread {
            self.serve_one(rank, number, work, done)
        } else {
            WorkAnswer::no_thread()
        }
    }

    /// Serves the requests of a rank in order, or refuses them where it has no thread. There is room for their answers.
    pub(crate) fn serve_script<W: Route>(
        &self,
        has_thread: bool,
        rank: Rank,
        script: &[Work],
        done: &mut Done<J, W, K>,
    )
        requires requests { K.requests ≡ true }
        requires empty { done.old.answers.items ≡ [] }
        requires room { length script.now ≤ vec_capacity done.old.answers }
        requires none { done.old.known.tickets ≡ [] }
        ensures { IsRankServed J.limit K.before done.new.known.seen
            (record { share = done.old.share; way = W.way done.old.way }) script.now done.new.answers.items
            (record { share = done.new.share; way = W.way done.new.way }) done.new.known.tickets }
    {
        for (number, work) in script.iter().enumerate() {
            let answer = self.answer_to(has_thread, rank, number, *work, done);
            done.answers.push_reserved(answer);
        }
    }
}
