//! What a message changes at the rank that it is for.
//!
//! A message may come late, twice or not at all. It acts in only one state, and is ignored in every other.

ghost use Rattle.std.specs.Prelude.{◌≡◌, ◌<◌, ℕ, length, map, Some, None, true, vec_len, vec_capacity};
ghost use Rattle.export_protocol.specs.Authority.{order_in, is_inside, exporter_of, importer_of};
ghost use Rattle.export_protocol.specs.Step.{receiver, about, move};
ghost use Rattle.export_protocol.specs.Step.{exporter_moves, importer_moves, notes, replies};
ghost use Rattle.export_protocol.specs.declared.event.Event.{Event as StepEvent};
ghost use Rattle.export_protocol.specs.Entries.{is_log, delivered_entry};
ghost use Rattle.export_machine.specs.Kept.{CanHappen, HasHappened, world_of, indexes_of, has_place};
ghost use Rattle.export_machine.specs.Kept.{IsIndexed, CanReceive, IsReceived};
ghost use Rattle.export_machine.specs.Moving.{heard, indexes_noted};

use crate::changes::{enter, send};
use crate::records::Records;
use export_protocol::moves::{Transition, move_of};
use export_protocol::{ExporterState, ImporterState, JournalEntry, Message, Reply};
use mds_types::Rank;

impl Records {
    /// The exporter's next state.
    fn export_to(&mut self, export: u32, next: Option<ExporterState>)
        ensures others { self.new ≡ record self.old {
          exports = record self.old.exports { exporters = self.new.exports.exporters };
        } }
        ensures world { world_of self.new ≡ exporter_moves (world_of self.old) export next }
    {
        match next {
            Some(state) => self.exports.set_exporter(export, state),
            None => {}
        }
    }

    /// The importer's next state. An export that it hears of is listed at its rank.
    fn import_to(&mut self, rank: Rank, export: u32, next: Option<ImporterState>)
        requires near { rank < length self.old.open_at.items }
        requires room { has_place self.old.open_at.items rank ≡ true }
        ensures others { self.new ≡ record self.old {
          exports = record self.old.exports { importers = self.new.exports.importers };
          open_at = self.new.open_at;
        } }
        ensures world { world_of self.new ≡ importer_moves (world_of self.old) export next }
        ensures listed { map (λ list. list.items) self.new.open_at.items
            ≡ heard rank export next (importer_of (world_of self.old) export)
            (map (λ list. list.items) self.old.open_at.items) }
    {
        let Some(state) = next else {
            return;
        };
        match self.importer(export) {
            ImporterState::Unknown => {
                self.exports.set_importer(export, state);
                enter(&mut self.open_at, rank, export);
            }
            _ => self.exports.set_importer(export, state),
        }
    }

    /// The tables follow an entry of the export. By `Exported` its directories go to the importer: the point of
    /// commitment.
    fn follow(&mut self, export: u32, entry: &JournalEntry)
        requires known { export < length self.old.exports.orders }
        requires owned { (d : ℕ) → is_inside (world_of self.old) export d ≡ true → d < length self.old.dirs.owners }
        requires open { (d : ℕ) → is_inside (world_of self.old) export d ≡ true → d < length self.old.dirs.opened }
        ensures others { self.new ≡ record self.old {
          dirs = record self.old.dirs { owners = self.new.dirs.owners; opened = self.new.dirs.opened };
          exports = record self.old.exports { dropped = self.new.exports.dropped };
        } }
        ensures indexes { indexes_of self.new
            ≡ indexes_noted (order_in (world_of self.old).orders export) export (Some entry.now) (indexes_of self.old) }
    {
        let order = self.exports.order(export);
        match entry {
            JournalEntry::Exported(_) => { self.dirs.mark_owner(order.dirs.as_slice(), order.to) }
            JournalEntry::Imported(_) => self.dirs.mark_opened(order.dirs.as_slice(), None),
            JournalEntry::Dropped(_) => self.exports.set_dropped(export, true),
            _ => {}
        }
    }

    /// The rank journals an entry of the export.
    fn note(&mut self, rank: Rank, export: u32, entry: &Option<JournalEntry>)
        requires near { rank < length self.old.journals.items }
        requires room { has_place self.old.journals.items rank ≡ true }
        requires known { export < length self.old.exports.orders }
        requires owned { (d : ℕ) → is_inside (world_of self.old) export d ≡ true → d < length self.old.dirs.owners }
        requires open { (d : ℕ) → is_inside (world_of self.old) export d ≡ true → d < length self.old.dirs.opened }
        ensures others { self.new ≡ record self.old {
          journals = self.new.journals;
          dirs = record self.old.dirs { owners = self.new.dirs.owners; opened = self.new.dirs.opened };
          exports = record self.old.exports { dropped = self.new.exports.dropped };
        } }
        ensures world { world_of self.new ≡ notes (world_of self.old) rank entry.now }
        ensures indexes { indexes_of self.new
            ≡ indexes_noted (order_in (world_of self.old).orders export) export entry.now (indexes_of self.old) }
    {
        match entry {
            Some(entry) => {
                self.follow(export, entry);
                enter(&mut self.journals, rank, *entry);
            }
            None => {}
        }
    }

    /// Sends a move's message, and answers.
    fn answer(&mut self, sends: Option<Message>) -> Reply
        requires room { vec_len self.old.sent < vec_capacity self.old.sent }
        requires few { length self.old.sent.items < 1048576 }
        ensures others { self.new ≡ record self.old { sent = self.new.sent } }
        ensures effect { replies (world_of self.old) sends ≡ record { reply = result; world = world_of self.new } }
    {
        match sends {
            Some(message) => send(&mut self.sent, message),
            None => Reply::Changed,
        }
    }

    /// `Started` and `Exported` give the state of an export that is listed at the rank.
    fn tell(&mut self, rank: Rank, entry: &Option<JournalEntry>)
        requires near { rank < length self.old.open_at.items }
        requires indexed { IsIndexed (world_of self.old) (indexes_of self.old) }
        requires exporting { length self.old.exports.exporters ≡ length self.old.exports.orders }
        requires importing { length self.old.exports.importers ≡ length self.old.exports.orders }
        ensures others { self.new ≡ record self.old { open_at = self.new.open_at; told_at = self.new.told_at } }
        ensures indexed { IsIndexed (world_of self.new) (indexes_of self.new) }
    {
        match entry {
            Some(JournalEntry::Started(_) | JournalEntry::Exported(_)) => self.note_told(rank),
            _ => {}
        }
    }

    /// Carries out a move of the rank that the message comes to. Only here does a message change something.
    fn carry_out(&mut self, rank: Rank, message: Message, next: Transition) -> Reply
        requires can { CanReceive self.old message }
        requires here { rank ≡ receiver (world_of self.old) message }
        requires moves { move message (exporter_of (world_of self.old) (about message))
            (importer_of (world_of self.old) (about message)) ≡ Some next }
        ensures { IsReceived self.old message result self.new }
    {
        let export = message.export();
        self.export_to(export, next.exporter);
        self.import_to(rank, export, next.importer);
        self.note(rank, export, &next.entry);
        let reply = self.answer(next.sends);
        self.tell(rank, &next.entry);
        reply
    }

    fn receive(&mut self, rank: Rank, message: Message) -> Reply
        requires can { CanReceive self.old message }
        requires here { rank ≡ receiver (world_of self.old) message }
        ensures { IsReceived self.old message result self.new }
    {
        let export = message.export();
        match move_of(message, self.exporter(export), self.importer(export)) {
            Some(next) => self.carry_out(rank, message, next),
            None => Reply::Ignored,
        }
    }

    /// The rank that a message is for.
    pub(crate) fn receiver(&self, message: Message) -> Rank
        requires { about message < length self.now.exports.orders }
        ensures { result ≡ receiver (world_of self.now) message }
    {
        match message {
            Message::Discover(export)
            | Message::Prep(export)
            | Message::Export(export)
            | Message::Finish(export)
            | Message::Cancel(export) => self.to(export),
            Message::DiscoverAck(export)
            | Message::PrepAck(export)
            | Message::ExportAck(export)
            | Message::Query(export) => self.from(export),
        }
    }

    /// A message that was sent comes. A stopped rank doesn't take it.
    pub(crate) fn deliver(&mut self, message: u32) -> Reply
        requires { CanHappen self.old (StepEvent.Deliver message) }
        ensures { HasHappened self.old (StepEvent.Deliver message) result self.new }
    {
        let message = self.sent[message as usize];
        let rank = self.receiver(message);
        if self.is_stopped(rank) {
            return Reply::Ignored;
        }
        self.receive(rank, message)
    }

    /// Whether a message makes the rank that it is for log the export.
    pub(crate) fn logs(&self, message: Message) -> bool
        requires { about message < length self.now.exports.orders }
        ensures { result ≡ is_log (delivered_entry (world_of self.now) (Some message)) }
    {
        match message {
            Message::ExportAck(export) => {
                !self.is_stopped(self.from(export))
                    && matches!(self.exporter(export), ExporterState::Exporting)
            }
            _ => false,
        }
    }
}
