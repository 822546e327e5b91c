//! What happens in a cluster, and the answers.

use mds_types::{Dir, Dirs, Rank};
use std::alloc::{AllocError, Global};

/// What happens next in a cluster. Exports, messages and tickets go by their numbers.
#[derive(Debug, Drop)]
pub enum Event {
    /// A directory is made below this parent.
    Made(Dir),
    /// A directory is removed.
    Gone(Dir),
    /// A request on a directory begins at a rank.
    Begin(Rank, Dir),
    /// The request of this ticket ends.
    End(u32),
    /// An export of these directories starts, from one rank to another.
    Start(Rank, Rank, Dirs),
    /// A message that was sent comes to the rank that it is for.
    Deliver(u32),
    /// The exporter has waited until no request runs on the export's directories.
    Froze(u32),
    /// The exporter makes the map name the importer.
    Notify(u32),
    /// The exporter gives the export up.
    Abort(u32),
    /// A rank stops: its requests end, and what it keeps is its journal.
    Stop(Rank),
    /// A rank runs again, with what its journal holds.
    Restart(Rank),
    /// The importer asks what became of the export.
    Ask(u32),
}

/// The answer to an accepted event.
#[derive(Clone, Copy, Debug, PartialEq, Eq)]
pub enum Reply {
    /// The number of the directory that was made.
    Dir(Dir),
    /// The ticket of the request that runs.
    Ticket(u32),
    /// The export that started, and the message that it sent.
    Export(u32, u32),
    /// The message that was sent.
    Sent(u32),
    /// The state changed, and there is nothing to name.
    Changed,
    /// The event was accepted and changed nothing but the count of events.
    Ignored,
}

/// A running request.
#[derive(Clone, Copy, Debug, PartialEq, Eq)]
pub struct Request {
    /// The rank that it runs at.
    pub rank: Rank,
    /// The directory that it is on.
    pub dir: Dir,
}

impl Event {
    ghost use Rattle.std.specs.Prelude.{◌≡◌, IfOk};

    /// An equal event. It asks for memory only for the list of `Start`.
    pub fn copied(&self, alloc: Global) -> Result<Event, AllocError>
        ensures { IfOk result (λ copy. copy ≡ self.now) }
    {
        Ok(match self {
            Event::Made(parent) => Event::Made(*parent),
            Event::Gone(dir) => Event::Gone(*dir),
            Event::Begin(rank, dir) => Event::Begin(*rank, *dir),
            Event::End(ticket) => Event::End(*ticket),
            Event::Start(from, to, dirs) => Event::Start(*from, *to, dirs.copied(alloc)?),
            Event::Deliver(message) => Event::Deliver(*message),
            Event::Froze(export) => Event::Froze(*export),
            Event::Notify(export) => Event::Notify(*export),
            Event::Abort(export) => Event::Abort(*export),
            Event::Stop(rank) => Event::Stop(*rank),
            Event::Restart(rank) => Event::Restart(*rank),
            Event::Ask(export) => Event::Ask(*export),
        })
    }
}
