//! What accepted events change, and what they answer.
//!
//! The memory was taken before: no change here can be refused.

ghost use Rattle.export_protocol.specs.declared.event.Event.{Event as StepEvent};
ghost use Rattle.export_machine.specs.Kept.{CanHappen, HasHappened};

use crate::changes::{enter, send};
use crate::records::Records;
use export_protocol::{ExporterState, JournalEntry, Message, Reply, Request};
use mds_types::{Dir, Dirs, Order, Rank};

impl Records {
    /// A request begins.
    pub(crate) fn begin(&mut self, rank: Rank, dir: Dir) -> Reply
        requires { CanHappen self.old (StepEvent.Begin rank dir) }
        ensures { HasHappened self.old (StepEvent.Begin rank dir) result self.new }
    {
        let ticket = self.tickets.len() as u32;
        self.tickets.push_reserved(Some(Request { rank, dir }));
        enter(&mut self.tickets_at, rank, ticket);
        self.dirs.begin(dir);
        Reply::Ticket(ticket)
    }

    /// A request ends.
    pub(crate) fn end(&mut self, ticket: u32) -> Reply
        requires { CanHappen self.old (StepEvent.End ticket) }
        ensures { HasHappened self.old (StepEvent.End ticket) result self.new }
    {
        let Some(request) = self.tickets[ticket as usize] else {
            return Reply::Ignored;
        };
        self.dirs.end(request.dir);
        self.tickets[ticket as usize] = None;
        self.note_end(request.rank);
        Reply::Changed
    }

    /// The exporter has waited until no request runs on the export's directories.
    pub(crate) fn froze(&mut self, export: u32) -> Reply
        requires { CanHappen self.old (StepEvent.Froze export) }
        ensures { HasHappened self.old (StepEvent.Froze export) result self.new }
    {
        self.exports.set_exporter(export, ExporterState::Preparing);
        send(&mut self.sent, Message::Prep(export))
    }

    /// The exporter gives the export up.
    pub(crate) fn abort(&mut self, export: u32) -> Reply
        requires { CanHappen self.old (StepEvent.Abort export) }
        ensures { HasHappened self.old (StepEvent.Abort export) result self.new }
    {
        self.exports.set_exporter(export, ExporterState::Aborted);
        let order = self.exports.order(export);
        let from = order.from;
        self.dirs.mark_opened(order.dirs.as_slice(), None);
        let reply = send(&mut self.sent, Message::Cancel(export));
        self.note_told(from);
        reply
    }

    /// A directory is made below this parent. It has its parent's authority.
    pub(crate) fn make(&mut self, parent: Dir) -> Reply
        requires { CanHappen self.old (StepEvent.Made parent) }
        ensures { HasHappened self.old (StepEvent.Made parent) result self.new }
    {
        let dir = Dir::new(self.dirs.len() as u32);
        let Some(rank) = self.dirs.owner(parent) else {
            return Reply::Ignored;
        };
        enter(&mut self.journals, rank, JournalEntry::Made(dir));
        self.dirs.push_reserved(parent, rank);
        self.dirs.add_child(parent);
        self.marks.push_reserved(false);
        Reply::Dir(dir)
    }

    /// A directory is removed.
    pub(crate) fn remove(&mut self, dir: Dir) -> Reply
        requires { CanHappen self.old (StepEvent.Gone dir) }
        ensures { HasHappened self.old (StepEvent.Gone dir) result self.new }
    {
        let Some(rank) = self.dirs.owner(dir) else {
            return Reply::Ignored;
        };
        let Some(parent) = self.parent(dir) else {
            return Reply::Ignored;
        };
        enter(&mut self.journals, rank, JournalEntry::Gone(dir));
        self.dirs.remove(dir);
        self.dirs.take_child(parent);
        Reply::Changed
    }

    /// An export starts.
    pub(crate) fn start(&mut self, from: Rank, to: Rank, dirs: Dirs) -> Reply
        requires { CanHappen self.old (StepEvent.Start from to dirs) }
        ensures { HasHappened self.old (StepEvent.Start from to dirs) result self.new }
    {
        let export = self.exports.len() as u32;
        let message = self.sent.len() as u32;
        self.dirs.mark_opened(dirs.as_slice(), Some(export));
        self.exports.push_reserved(Order { from, to, dirs });
        self.sent.push_reserved(Message::Discover(export));
        enter(&mut self.open_at, from, export);
        Reply::Export(export, message)
    }

    /// The exporter makes the map name the importer.
    pub(crate) fn notify(&mut self, export: u32) -> Reply
        requires { CanHappen self.old (StepEvent.Notify export) }
        ensures { HasHappened self.old (StepEvent.Notify export) result self.new }
    {
        self.exports.set_exporter(export, ExporterState::Done);
        let order = self.exports.order(export);
        enter(
            &mut self.journals,
            order.from,
            JournalEntry::Notified(export),
        );
        self.dirs.mark_named(order.dirs.as_slice(), order.to);
        send(&mut self.sent, Message::Finish(export))
    }

    /// The importer asks the exporter what became of the export.
    pub(crate) fn ask(&mut self, export: u32) -> Reply
        requires { CanHappen self.old (StepEvent.Ask export) }
        ensures { HasHappened self.old (StepEvent.Ask export) result self.new }
    {
        send(&mut self.sent, Message::Query(export))
    }
}
