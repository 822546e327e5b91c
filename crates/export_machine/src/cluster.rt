//! A cluster of metadata ranks that move directories by exports.

ghost use Rattle.std.specs.Prelude.{◌≡◌, ◌<◌, ◌≤◌, ◌↔◌, length, map, None, true, Some, IsSome, IfSome};
ghost use Rattle.std.specs.Prelude.{IfOk, IfErr, IsOk, Ok, Err, OnOk, OnErr, All, slice_get};
ghost use Rattle.export_protocol.specs.Authority.{authority, serves, named_of, journal_of, order_in};
ghost use Rattle.export_protocol.specs.Step.{refusal, start, step, happens, counted, answers as answers_to};
ghost use Rattle.export_protocol.specs.Step.{run as state_after};
ghost use Rattle.export_protocol.specs.Entries.{logs_export};
ghost use Rattle.export_protocol.specs.Roots.{roots};
ghost use Rattle.export_machine.specs.Room.{KeepsRoom, IsRefusal};
ghost use Rattle.export_protocol.specs.View.{IsAnswer, AreAnswers, NoneIsMemory, IsReached};
ghost use Rattle.export_protocol.specs.Promises.{Promised, KeepsAuthority};
ghost use Rattle.export_machine.specs.Kept.{cause_of, addressed, states_of, is_ready};

use crate::records::Records;
use export_protocol::{
    Event, ExporterState, ImporterState, JournalEntry, Message, Reply, StepError,
};
use mds_types::{Dir, Order, Rank};
use std::alloc::{AllocError, Global};
use std::marker::Model;

/// The journals, states, messages, requests and map of a cluster.
///
/// A contract sees the world that they are, and for which events there is memory already. Every value of this type is
/// one to which some list of events leads from the start.
#[derive(Drop)]
pub struct Cluster {
    pub(crate) records: Records,
}

impl Model for Cluster {
    ghost use Rattle.export_machine.specs.Kept.{State, state_of, IsKept};

    ghost Value = { State };

    ghost view = { λ cluster. state_of cluster.records };

    ghost invariant = { λ cluster. IsKept cluster.records };
}

impl Cluster {
    /// A cluster of this many ranks in which directory 0 is there and rank 0 has it. `limit` is how many directory
    /// numbers can be given.
    pub fn new(alloc: Global, limit: u32, ranks: u8) -> Result<Self, AllocError>
        requires some_dirs { 1 ≤ limit }
        requires few_dirs { limit ≤ 65536 }
        requires some_ranks { 1 ≤ ranks }
        requires few_ranks { ranks ≤ 64 }
        ensures { IfOk result (λ cluster. cluster.world ≡ start limit ranks) }
    {
        let records = Records::new(alloc, limit, ranks)?;
        Ok(Cluster { records })
    }

    /// Applies one event: a refusal changes nothing, and is the first cause in the order of the table of events. Where
    /// no cause applies and no memory is left the answer is `Memory`.
    pub fn apply(&mut self, event: Event) -> Result<Reply, StepError>
        ensures answer { IsAnswer self.old.world (event) result self.new.world }
        ensures ready { refusal self.old.world (event) ≡ None → is_ready self.old (event) ≡ true → IsOk result }
        // Room that was taken for any event is still there where this one is refused.
        ensures spare { OnErr result (KeepsRoom self.old self.new) }
        ensures promised { Promised self.new.world }
        // The event changed the authority of no directory on which a request runs.
        ensures kept { KeepsAuthority self.old.world (event) }
    {
        self.reached();
        self.prepare(&event)?;
        Ok(self.happen(event))
    }

    /// Refuses an event, or takes the memory that it needs as the next change: then it can `happen`. A list of
    /// directories takes time that grows only with its length.
    pub fn prepare(&mut self, event: &Event) -> Result<(), StepError>
        ensures accepted { OnOk result (refusal self.old.world (event.now) ≡ None) }
        ensures room { OnOk result (is_ready self.new (event.now) ≡ true) }
        ensures err { IfErr result (IsRefusal self.old.world (event.now)) }
        ensures ready { refusal self.old.world (event.now) ≡ None → is_ready self.old (event.now) ≡ true → IsOk result }
        ensures world { self.new.world ≡ self.old.world }
        ensures spare { KeepsRoom self.old self.new }
    {
        self.check_by_marks(event)?;
        match self.reserve(event) {
            Ok(()) => Ok(()),
            Err(_) => Err(StepError::Memory),
        }
    }

    /// An event that is prepared happens.
    pub fn happen(&mut self, event: Event) -> Reply
        requires accepted { refusal self.old.world (event) ≡ None }
        requires room { is_ready self.old (event) ≡ true }
        ensures step { step self.old.world (event) ≡ (Ok result, self.new.world) }
        ensures reply { result ≡ (happens self.old.world (event)).reply }
        ensures world { self.new.world ≡ counted (happens self.old.world (event)).world }
        ensures promised { Promised self.new.world }
    {
        let reply = self.records.happen(event);
        self.records.events += 1;
        reply
    }

    /// Applies the events one after the other. Memory for the answers is asked for before the first event.
    pub fn run(
        &mut self,
        alloc: Global,
        events: &[Event],
    ) -> Result<Vec<Result<Reply, StepError>>, AllocError>
        ensures answers { IfOk result (λ answers. AreAnswers self.old.world (events.now) answers.items self.new.world) }
        // Where no answer was out of memory they are the answers of the definition, and so is the state after them.
        ensures exact { IfOk result (λ answers. NoneIsMemory answers.items
            → answers.items ≡ answers_to self.old.world (events.now)) }
        ensures state { IfOk result (λ answers. NoneIsMemory answers.items
            → self.new.world ≡ state_after self.old.world (events.now)) }
        ensures err { OnErr result (self.new.world ≡ self.old.world) }
        ensures promised { Promised self.new.world }
    {
        self.promised();
        let mut answers = Vec::with_capacity(alloc, events.len())?;
        for event in events {
            answers.push_reserved(self.apply_copy(alloc, event));
            self.promised();
        }
        Ok(answers)
    }

    fn apply_copy(&mut self, alloc: Global, event: &Event) -> Result<Reply, StepError>
        ensures { IsAnswer self.old.world (event.now) result self.new.world }
    {
        match event.copied(alloc) {
            Ok(copy) => self.apply(copy),
            Err(_) => Err(self.refused(event)),
        }
    }

    /// The refusal of an event for which there is no memory.
    fn refused(&self, event: &Event) -> StepError
        ensures { IsAnswer self.now.world (event.now) (Err result) self.now.world }
    {
        match self.can_apply(event) {
            Err(error) => error,
            Ok(()) => StepError::Memory,
        }
    }

    /// What holds of every cluster. Each directory that is there has exactly one authority, and no other has one. Who
    /// serves a directory is its authority. Each running request is at its directory's authority, at a rank that
    /// runs, and no event changes that. The map names the authority or, between log and notify, the exporter. It does
    /// nothing.
    pub fn promised(&self)
        ensures { Promised self.now.world }
    {
        let _ = &self.records;
    }

    /// Some list of events leads from the start to this cluster, and its numbers are small. It does nothing.
    pub fn reached(&self)
        ensures reached { IsReached self.now.world }
        ensures few_events { self.now.world.events ≤ 1048576 }
        ensures numbers { length self.now.world.parents ≤ self.now.world.limit }
        ensures few_dirs { self.now.world.limit ≤ 65536 }
        ensures few_ranks { self.now.world.ranks ≤ 64 }
    {
        let _ = &self.records;
    }

    /// Why `apply` would refuse this event, apart from a lack of memory. It takes no memory.
    #[tactic(auto, unfolding(export_protocol::specs::Step::refusal))]
    pub fn can_apply(&self, event: &Event) -> Result<(), StepError>
        ensures { cause_of result ≡ refusal self.now.world (event.now) }
    {
        self.check_history()?;
        self.check_causes(event)
    }

    /// Whether this event, which no cause refuses, is the log entry of an export: from then on the export can only go
    /// on.
    pub fn logs_export(&self, event: &Event) -> bool
        requires accepted { refusal self.now.world (event.now) ≡ None }
        ensures { result ≡ logs_export self.now.world (event.now) }
    {
        match event {
            Event::Deliver(message) => self.records.logs(self.records.sent[*message as usize]),
            _ => false,
        }
    }

    /// Takes the memory that an event needs as the next change, which no cause refuses: then it can
    /// `happen`.
    pub fn reserve(&mut self, event: &Event) -> Result<(), AllocError>
        requires { refusal self.old.world (event.now) ≡ None }
        ensures world { self.new.world ≡ self.old.world }
        ensures room { OnOk result (is_ready self.new (event.now) ≡ true) }
        ensures ready { is_ready self.old (event.now) ≡ true → IsOk result }
        ensures spare { KeepsRoom self.old self.new }
    {
        let rank = self.journal_rank(event);
        self.records.grow_entry(rank)?;
        self.records.grow_lists(event)
    }

    /// The rank that has authority over a directory.
    pub fn authority(&self, dir: Dir) -> Option<Rank>
        ensures { result ≡ authority self.now.world dir }
    {
        self.records.dirs.owner(dir)
    }

    /// The roots of subtrees, by rising numbers, each with its authority: directory 0, and each directory whose
    /// authority isn't its parent's.
    pub fn roots(&self, alloc: Global) -> Result<Vec<(Dir, Rank)>, AllocError>
        ensures { IfOk result (λ found. found.items ≡ roots self.now.world) }
    {
        let mut found = Vec::new(alloc);
        for number in 0..self.records.dirs.len() {
            let dir = Dir::new(number as u32);
            if let Some(rank) = self.root_rank(dir) {
                found.push((dir, rank))?;
            }
        }
        Ok(found)
    }

    /// Whether a rank serves a directory.
    pub fn serves(&self, rank: Rank, dir: Dir) -> bool
        ensures { result ≡ serves self.now.world rank dir }
    {
        self.reached();
        match self.authority(dir) {
            Some(authority) => authority == rank && self.frozen_by(dir).is_none(),
            None => false,
        }
    }

    /// The rank that the map names for a directory.
    pub fn named(&self, dir: Dir) -> Option<Rank>
        ensures { result ≡ named_of self.now.world dir }
    {
        self.records.named(dir)
    }

    /// A rank's journal, the oldest entry first.
    pub fn journal(&self, rank: Rank) -> &[JournalEntry]
        ensures { result.now ≡ journal_of self.now.world rank }
    {
        self.records.journal(rank)
    }

    /// How many messages were sent. They are numbered from 0.
    pub fn sent(&self) -> u32
        ensures { result ≡ length self.now.world.sent }
    {
        self.records.sent.len() as u32
    }

    /// A message that was sent.
    pub fn message(&self, message: u32) -> Option<Message>
        ensures { result ≡ slice_get self.now.world.sent message }
    {
        self.records.sent.get(message as usize).copied()
    }

    /// The export that a message is about, and the rank that it is for.
    pub fn to(&self, message: u32) -> Option<(u32, Rank)>
        ensures { result ≡ addressed self.now.world (slice_get self.now.world.sent message) }
    {
        match self.records.sent.get(message as usize) {
            Some(message) => Some((message.export(), self.records.receiver(*message))),
            None => None,
        }
    }

    /// What an export moves.
    pub fn export(&self, export: u32) -> Option<&Order>
        ensures found { IsSome result ↔ (export < length self.now.world.orders) }
        ensures order { IfSome result (λ order. order.now ≡ order_in self.now.world.orders export) }
        ensures near { IfSome result (λ order. All (λ d. d < self.now.world.limit) order.now.dirs) }
    {
        self.records.exports.get(export)
    }

    /// The states of an export at its exporter and at its importer.
    pub fn states(&self, export: u32) -> Option<(ExporterState, ImporterState)>
        ensures { result ≡ states_of self.now.world export }
    {
        if export as usize >= self.records.exports.len() {
            return None;
        }
        Some((self.records.exporter(export), self.records.importer(export)))
    }
}
