//! The memory that an event takes, and its effect.

ghost use Rattle.std.specs.Prelude.{◌≡◌, ◌<◌, ℕ, length, map, None, true, OnOk, IsOk, IfSome};
ghost use Rattle.export_protocol.specs.Step.{refusal};
ghost use Rattle.export_machine.specs.Room.{IsAsRoomy, KeepsRoom};
ghost use Rattle.export_machine.specs.Kept.{world_of, indexes_of, has_place, has_entry_places};
ghost use Rattle.export_machine.specs.Kept.{has_list_places, has_ticket_places, has_dir_places, has_export_places};
ghost use Rattle.export_machine.specs.Kept.{entered_at, is_ready, CanHappen, HasHappened};

use crate::cluster::Cluster;
use crate::records::Records;
use export_protocol::{Event, Reply};
use mds_types::Rank;
use std::alloc::AllocError;

/// Takes room for one more in one of the lists.
fn grow_list<T: Copy>(lists: &mut Vec<Vec<T>>, index: usize) -> Result<(), AllocError>
    requires near { index < length lists.old.items }
    ensures entries { map (λ list. list.items) lists.new.items ≡ map (λ list. list.items) lists.old.items }
    ensures room { OnOk result (has_place lists.new.items index ≡ true) }
    ensures ready { has_place lists.old.items index ≡ true → IsOk result }
    ensures spare { (other : ℕ) → has_place lists.old.items other ≡ true → has_place lists.new.items other ≡ true }
{
    lists[index].reserve(1)
}

impl Records {
    /// Takes room for one more directory.
    fn grow_dirs(&mut self) -> Result<(), AllocError>
        ensures world { world_of self.new ≡ world_of self.old }
        ensures indexes { indexes_of self.new ≡ indexes_of self.old }
        ensures room { OnOk result (has_dir_places self.new ≡ true) }
        ensures ready { has_dir_places self.old ≡ true → IsOk result }
        ensures spare { IsAsRoomy self.old self.new }
    {
        self.dirs.reserve()?;
        self.marks.reserve(1)
    }

    /// Takes room for one more export, and in this rank's list of open exports, if it is a rank.
    fn grow_exports(&mut self, rank: Rank) -> Result<(), AllocError>
        ensures world { world_of self.new ≡ world_of self.old }
        ensures indexes { indexes_of self.new ≡ indexes_of self.old }
        ensures room { OnOk result (has_export_places self.new rank ≡ true) }
        ensures ready { has_export_places self.old rank ≡ true → IsOk result }
        ensures spare { IsAsRoomy self.old self.new }
    {
        self.exports.reserve()?;
        self.sent.reserve(1)?;
        if rank.number() as usize >= self.open_at.len() {
            return Ok(());
        }
        grow_list(&mut self.open_at, rank.number() as usize)
    }

    /// Takes room for the ticket of one more request at this rank, if it is one.
    fn grow_tickets(&mut self, rank: Rank) -> Result<(), AllocError>
        ensures world { world_of self.new ≡ world_of self.old }
        ensures indexes { indexes_of self.new ≡ indexes_of self.old }
        ensures room { OnOk result (has_ticket_places self.new rank ≡ true) }
        ensures ready { has_ticket_places self.old rank ≡ true → IsOk result }
        ensures spare { IsAsRoomy self.old self.new }
    {
        self.tickets.reserve(1)?;
        if rank.number() as usize >= self.tickets_at.len() {
            return Ok(());
        }
        grow_list(&mut self.tickets_at, rank.number() as usize)
    }

    /// Takes room for one more entry, where an entry is written.
    pub(crate) fn grow_entry(&mut self, rank: Option<Rank>) -> Result<(), AllocError>
        requires near { IfSome rank (λ r. r < length self.old.journals.items) }
        requires listing { IfSome rank (λ r. r < length self.old.open_at.items) }
        ensures world { world_of self.new ≡ world_of self.old }
        ensures indexes { indexes_of self.new ≡ indexes_of self.old }
        ensures others { self.new ≡ record self.old { journals = self.new.journals; open_at = self.new.open_at } }
        ensures room { OnOk result (has_entry_places self.new rank ≡ true) }
        ensures ready { has_entry_places self.old rank ≡ true → IsOk result }
        ensures spare { IsAsRoomy self.old self.new }
    {
        match rank {
            Some(rank) => {
                grow_list(&mut self.journals, rank.number() as usize)?;
                grow_list(&mut self.open_at, rank.number() as usize)
            }
            None => Ok(()),
        }
    }

    /// Takes room in the lists that an event adds to, except journals.
    pub(crate) fn grow_lists(&mut self, event: &Event) -> Result<(), AllocError>
        ensures world { world_of self.new ≡ world_of self.old }
        ensures indexes { indexes_of self.new ≡ indexes_of self.old }
        ensures room { OnOk result (has_list_places self.new (event.now) ≡ true) }
        ensures ready { has_list_places self.old (event.now) ≡ true → IsOk result }
        ensures spare { IsAsRoomy self.old self.new }
    {
        match event {
            Event::Made(_) => self.grow_dirs(),
            Event::Begin(rank, _) => self.grow_tickets(*rank),
            Event::Start(from, _, _) => self.grow_exports(*from),
            Event::Deliver(_) => self.sent.reserve(1),
            Event::Froze(_) => self.sent.reserve(1),
            Event::Notify(_) => self.sent.reserve(1),
            Event::Abort(_) => self.sent.reserve(1),
            Event::Ask(_) => self.sent.reserve(1),
            Event::Gone(_) => Ok(()),
            Event::End(_) => Ok(()),
            Event::Stop(_) => Ok(()),
            Event::Restart(_) => Ok(()),
        }
    }

    /// The effect of an accepted event for which there is room.
    pub(crate) fn happen(&mut self, event: Event) -> Reply
        requires { CanHappen self.old (event) }
        ensures { HasHappened self.old (event) result self.new }
    {
        match event {
            Event::Made(parent) => self.make(parent),
            Event::Gone(dir) => self.remove(dir),
            Event::Begin(rank, dir) => self.begin(rank, dir),
            Event::End(ticket) => self.end(ticket),
            Event::Start(from, to, dirs) => self.start(from, to, dirs),
            Event::Deliver(message) => self.deliver(message),
            Event::Froze(export) => self.froze(export),
            Event::Notify(export) => self.notify(export),
            Event::Abort(export) => self.abort(export),
            Event::Stop(rank) => self.stop(rank),
            Event::Restart(rank) => self.restart(rank),
            Event::Ask(export) => self.ask(export),
        }
    }
}

impl Cluster {
    /// The journal in which this accepted event is entered, if it is.
    #[tactic(auto, unfolding(crate::specs::Kept::entered_at))]
    pub(crate) fn journal_rank(&self, event: &Event) -> Option<Rank>
        requires { refusal self.now.world (event.now) ≡ None }
        ensures rank { result ≡ entered_at self.now.world (event.now) }
        ensures near { IfSome result (λ rank. rank < length self.now.world.journals) }
    {
        match event {
            Event::Made(parent) => self.authority(*parent),
            Event::Gone(dir) => self.authority(*dir),
            Event::Deliver(message) => {
                Some(self.records.receiver(self.records.sent[*message as usize]))
            }
            Event::Notify(export) => Some(self.records.from(*export)),
            _ => None,
        }
    }
}
