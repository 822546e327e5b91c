//! What a stop leaves of a rank's requests and states, and what its journal holds at a restart.

ghost use Rattle.std.specs.Prelude.{◌≡◌, ◌<◌, ℕ, filter, is_some, length, Some, None, true, false};
ghost use Rattle.std.specs.Prelude.{not, ◌&&◌, slice_set, slice_index_or, if◌then◌else◌, ◌==◌};
ghost use Rattle.export_protocol.specs.Authority.{from_of, to_of, exporter_of, importer_of, has, request_of};
ghost use Rattle.export_protocol.specs.Step.{map_at, is_before_log, ends_at};
ghost use Rattle.export_protocol.specs.declared.event.Event.{Event as StepEvent};
ghost use Rattle.export_machine.specs.Kept.{CanHappen, HasHappened, world_of, indexes_of, is_passing, is_open_at};
ghost use Rattle.export_machine.specs.Kept.{IsKept};
ghost use Rattle.export_machine.specs.Kept.{IsIndexed};
ghost use Rattle.export_protocol.specs.Entries.{exporter_at_stop, importer_at_stop};
ghost use Rattle.export_protocol.specs.declared.event.Request.{Request};

use crate::changes::put;
use crate::export_table::ExportTable;
use crate::records::{Records, value_at};
use export_protocol::{ExporterState, ImporterState, JournalEntry, Reply, Request};
use mds_types::{Order, Rank};

fn is_before_log(state: ExporterState) -> bool
    ensures { result ≡ is_before_log state }
{
    match state {
        ExporterState::Discovering
        | ExporterState::Freezing
        | ExporterState::Preparing
        | ExporterState::Exporting => true,
        ExporterState::Logged | ExporterState::Done | ExporterState::Aborted => false,
    }
}

/// Whether a stop forgets this state of an import, where the journal doesn't have it as dropped.
fn is_passing(state: ImporterState) -> bool
    ensures { result ≡ is_passing state }
{
    match state {
        ImporterState::Discovered | ImporterState::Prepared | ImporterState::Dropped => true,
        ImporterState::Unknown | ImporterState::Started | ImporterState::Imported => false,
    }
}

/// What a stop leaves of an import.
fn left_of(dropped: bool, state: ImporterState) -> ImporterState
    ensures { result ≡ importer_at_stop dropped state }
{
    match state {
        ImporterState::Started | ImporterState::Imported => state,
        ImporterState::Dropped if dropped => state,
        _ => ImporterState::Unknown,
    }
}

/// All exports, for a rank's list of those whose state there a stop would change.
#[derive(Clone, Copy)]
struct Open<'a> {
    rank: Rank,
    exports: &'a ExportTable,
}

impl<'a> Open<'a> {
    fn exports(&self, order: &Order, export: u32) -> bool
        ensures { result ≡ ((order.now.from == self.now.rank) && is_before_log
            (slice_index_or self.now.exports.now.exporters export ExporterState.Aborted)) }
    {
        order.from == self.rank && is_before_log(self.exports.exporter(export))
    }

    fn imports(&self, order: &Order, export: u32) -> bool
        ensures { result ≡ ((order.now.to == self.now.rank) && is_passing
            (slice_index_or self.now.exports.now.importers export ImporterState.Unknown) && not
            (slice_index_or self.now.exports.now.dropped export false)) }
    {
        order.to == self.rank
            && is_passing(self.exports.importer(export))
            && !self.exports.dropped(export)
    }

    fn has(&self, export: u32) -> bool
        ensures { result ≡ is_open_at self.now.rank self.now.exports.now.orders self.now.exports.now.exporters
            self.now.exports.now.importers self.now.exports.now.dropped export }
    {
        if export as usize >= self.exports.len() {
            return false;
        }
        let order = self.exports.order(export);
        self.exports(order, export) || self.imports(order, export)
    }

    /// Keeps those exports whose state at the rank a stop would change.
    fn keep(&self, listed: &mut Vec<u32>)
        ensures { listed.new.items ≡ filter
            (is_open_at self.now.rank self.now.exports.now.orders self.now.exports.now.exporters
            self.now.exports.now.importers self.now.exports.now.dropped) listed.old.items }
    {
        listed.retain(|export| self.has(*export));
    }
}

fn runs(tickets: &[Option<Request>], ticket: u32) -> bool
    ensures { result ≡ is_some (slice_index_or tickets.now ticket None) }
{
    value_at(tickets, ticket as usize, None).is_some()
}

/// Keeps those tickets whose requests run.
fn keep_running(listed: &mut Vec<u32>, tickets: &[Option<Request>])
    ensures { listed.new.items ≡ filter (λ t. is_some (slice_index_or tickets.now t None)) listed.old.items }
{
    listed.retain(|ticket| runs(tickets, *ticket));
}

impl Records {
    /// Whether a stop of the rank aborts the export.
    fn is_halted(&self, rank: Rank, export: u32) -> bool
        requires near { length self.now.exports.exporters ≡ length self.now.exports.orders }
        ensures { result ≡ ((from_of (world_of self.now) export == rank) && is_before_log
            (exporter_of (world_of self.now) export)) }
    {
        (export as usize) < self.exports.len()
            && self.exports.order(export).from == rank
            && is_before_log(self.exports.exporter(export))
    }

    /// The rank's exports without a log entry are aborted.
    fn halt_exports(&mut self, rank: Rank)
        requires kept { IsKept self.old }
        requires ranked { rank < length self.old.open_at.items }
        ensures others { self.new ≡ record self.old {
          exports = record self.old.exports { exporters = self.new.exports.exporters };
          dirs = record self.old.dirs { opened = self.new.dirs.opened };
        } }
        ensures exporters { self.new.exports.exporters
            ≡ map_at (λ x state. if from_of (world_of self.old) x == rank then exporter_at_stop state else state)
            self.old.exports.exporters }
        ensures indexed { IsIndexed (world_of self.new) (indexes_of self.new) }
    {
        let index = rank.number() as usize;
        for at in 0..self.open_at[index].len() {
            let export = self.open_at[index][at];
            if self.is_halted(rank, export) {
                self.exports.set_exporter(export, ExporterState::Aborted);
                self.dirs
                    .mark_opened(self.exports.order(export).dirs.as_slice(), None);
            }
        }
    }

    /// What a stop of the rank leaves of an import.
    fn import_at_stop(&self, rank: Rank, export: u32) -> ImporterState
        requires near { length self.now.exports.importers ≡ length self.now.exports.orders }
        ensures { result ≡ (if to_of (world_of self.now) export == rank then importer_at_stop
            (slice_index_or self.now.exports.dropped export false) (importer_of (world_of self.now) export)
            else importer_of (world_of self.now) export) }
    {
        let state = self.exports.importer(export);
        if export as usize >= self.exports.len() || self.exports.order(export).to != rank {
            return state;
        }
        left_of(self.exports.dropped(export), state)
    }

    /// The rank's imports that it hasn't journaled are unknown.
    fn halt_imports(&mut self, rank: Rank)
        requires near { length self.old.exports.importers ≡ length self.old.exports.orders }
        requires ranked { rank < length self.old.open_at.items }
        requires indexed { IsIndexed (world_of self.old) (indexes_of self.old) }
        requires dropped { (x : ℕ) → has (world_of self.old) rank (JournalEntry.Dropped x) ≡ true
            → importer_of (world_of self.old) x ≡ ImporterState.Dropped }
        ensures others { self.new ≡ record self.old {
          exports = record self.old.exports { importers = self.new.exports.importers };
        } }
        ensures importers { self.new.exports.importers
            ≡ map_at (λ x state. if to_of (world_of self.old) x == rank
            then importer_at_stop (has (world_of self.old) rank (JournalEntry.Dropped x)) state
            else state) self.old.exports.importers }
    {
        let index = rank.number() as usize;
        for at in 0..self.open_at[index].len() {
            let export = self.open_at[index][at];
            let state = self.import_at_stop(rank, export);
            self.exports.set_importer(export, state);
        }
    }

    /// Drops those of the rank's exports from its list whose states there its journal holds.
    fn keep_open(&mut self, rank: Rank)
        requires near { rank < length self.old.open_at.items }
        requires indexed { IsIndexed (world_of self.old) (indexes_of self.old) }
        requires exporting { length self.old.exports.exporters ≡ length self.old.exports.orders }
        requires importing { length self.old.exports.importers ≡ length self.old.exports.orders }
        ensures others { self.new ≡ record self.old { open_at = self.new.open_at; told_at = self.new.told_at } }
        ensures indexed { IsIndexed (world_of self.new) (indexes_of self.new) }
    {
        let open = Open {
            rank,
            exports: &self.exports,
        };
        open.keep(&mut self.open_at[rank.number() as usize]);
        put(&mut self.told_at, rank.number() as usize, 0);
    }

    /// The journal holds the state of one more of the rank's exports. Once it holds those of half the listed ones, they
    /// go: so a stop of the rank takes time that grows only with its open exports.
    pub(crate) fn note_told(&mut self, rank: Rank)
        requires near { rank < length self.old.open_at.items }
        requires indexed { IsIndexed (world_of self.old) (indexes_of self.old) }
        requires exporting { length self.old.exports.exporters ≡ length self.old.exports.orders }
        requires importing { length self.old.exports.importers ≡ length self.old.exports.orders }
        ensures others { self.new ≡ record self.old { open_at = self.new.open_at; told_at = self.new.told_at } }
        ensures indexed { IsIndexed (world_of self.new) (indexes_of self.new) }
    {
        let index = rank.number() as usize;
        let told = value_at(&self.told_at, index, 0).saturating_add(1);
        if (told as usize) <= self.open_at[index].len() / 2 {
            put(&mut self.told_at, index, told);
        } else {
            self.keep_open(rank);
        }
    }

    /// A request ended at this rank. Once half of the tickets that are kept for the rank are of such requests, they
    /// go: so a stop of the rank takes time that grows only with its running requests.
    pub(crate) fn note_end(&mut self, rank: Rank)
        requires near { rank < length self.old.tickets_at.items }
        requires indexed { IsIndexed (world_of self.old) (indexes_of self.old) }
        ensures others { self.new ≡ record self.old { tickets_at = self.new.tickets_at; ended_at = self.new.ended_at } }
        ensures indexed { IsIndexed (world_of self.new) (indexes_of self.new) }
    {
        let index = rank.number() as usize;
        let ended = value_at(&self.ended_at, index, 0).saturating_add(1);
        if (ended as usize) <= self.tickets_at[index].len() / 2 {
            put(&mut self.ended_at, index, ended);
        } else {
            keep_running(&mut self.tickets_at[index], &self.tickets);
            put(&mut self.ended_at, index, 0);
        }
    }

    /// Ends the request of a ticket if it runs at this rank.
    fn end_at(&mut self, rank: Rank, ticket: usize)
        requires indexed { IsIndexed (world_of self.old) (indexes_of self.old) }
        requires there { (q : Request) → request_of (world_of self.old) ticket ≡ Some q
            → q.dir < length self.old.dirs.parents }
        ensures others { self.new ≡ record self.old {
          tickets = self.new.tickets;
          dirs = record self.old.dirs { running = self.new.dirs.running };
        } }
        ensures tickets { self.new.tickets.items ≡ slice_set self.old.tickets.items ticket
            (ends_at rank (slice_index_or self.old.tickets.items ticket None)) }
        ensures indexed { IsIndexed (world_of self.new) (indexes_of self.new) }
    {
        let Some(request) = value_at(&self.tickets, ticket, None) else {
            return;
        };
        if request.rank != rank {
            return;
        }
        self.dirs.end(request.dir);
        put(&mut self.tickets, ticket, None);
    }

    /// Ends the requests that run at this rank, by the tickets that are kept for it.
    fn end_listed(&mut self, rank: Rank)
        requires near { rank < length self.old.tickets_at.items }
        requires indexed { IsIndexed (world_of self.old) (indexes_of self.old) }
        requires there { (t : ℕ) (q : Request) → request_of (world_of self.old) t ≡ Some q
            → q.dir < length self.old.dirs.parents }
        ensures others { self.new ≡ record self.old {
          tickets = self.new.tickets;
          dirs = record self.old.dirs { running = self.new.dirs.running };
        } }
        ensures tickets { self.new.tickets.items ≡ map_at (λ t request. ends_at rank request) self.old.tickets.items }
        ensures indexed { IsIndexed (world_of self.new) (indexes_of self.new) }
    {
        let index = rank.number() as usize;
        for at in 0..self.tickets_at[index].len() {
            let ticket = self.tickets_at[index][at] as usize;
            self.end_at(rank, ticket);
        }
    }

    /// Ends the requests that run at this rank, and keeps none of their tickets.
    fn end_requests(&mut self, rank: Rank)
        requires near { rank < length self.old.tickets_at.items }
        requires indexed { IsIndexed (world_of self.old) (indexes_of self.old) }
        requires there { (t : ℕ) (q : Request) → request_of (world_of self.old) t ≡ Some q
            → q.dir < length self.old.dirs.parents }
        ensures others { self.new ≡ record self.old {
          tickets = self.new.tickets;
          dirs = record self.old.dirs { running = self.new.dirs.running };
          tickets_at = self.new.tickets_at;
          ended_at = self.new.ended_at;
        } }
        ensures tickets { self.new.tickets.items ≡ map_at (λ t request. ends_at rank request) self.old.tickets.items }
        ensures indexed { IsIndexed (world_of self.new) (indexes_of self.new) }
    {
        self.end_listed(rank);
        self.tickets_at[rank.number() as usize].clear();
        put(&mut self.ended_at, rank.number() as usize, 0);
    }

    /// A rank stops.
    pub(crate) fn stop(&mut self, rank: Rank) -> Reply
        requires { CanHappen self.old (StepEvent.Stop rank) }
        ensures { HasHappened self.old (StepEvent.Stop rank) result self.new }
    {
        self.halt_exports(rank);
        self.halt_imports(rank);
        self.keep_open(rank);
        self.end_requests(rank);
        put(&mut self.stopped, rank.number() as usize, true);
        Reply::Changed
    }

    /// A rank runs again. Its states are those that its journal holds, as the stop left them.
    pub(crate) fn restart(&mut self, rank: Rank) -> Reply
        requires { CanHappen self.old (StepEvent.Restart rank) }
        ensures { HasHappened self.old (StepEvent.Restart rank) result self.new }
    {
        if !self.is_stopped(rank) {
            return Reply::Ignored;
        }
        put(&mut self.stopped, rank.number() as usize, false);
        Reply::Changed
    }
}
