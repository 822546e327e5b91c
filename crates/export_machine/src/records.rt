//! What a cluster keeps, and the reads of it.
//!
//! A directory's row has its parent and the rank that the map names for it and, in addition, what the journals, states
//! and requests determine: its authority, the open export that it is in, how many requests run on it and how many
//! children it has. So no read folds a journal and no event searches the exports. An export's row has what it moves,
//! its states at both ranks and whether its importer's journal has it as dropped. A table of marks is for the test of a
//! list of directories. By rank there are the tickets of its requests and the exports that are open there, so that a
//! stop needn't look through all requests and exports since the start.

ghost use Rattle.std.specs.Prelude.{◌≡◌, ◌<◌, ◌≤◌, IfOk, map, replicate, slice_set};
ghost use Rattle.std.specs.Prelude.{false, ◌∷◌, [], length, Some, slice_index_or};
ghost use Rattle.export_protocol.specs.Authority.{is_present, is_stopped, exporter_of, importer_of};
ghost use Rattle.export_protocol.specs.Authority.{from_of, to_of, order_in, named_of, journal_of};
ghost use Rattle.export_protocol.specs.Step.{start};
ghost use Rattle.std.specs.List.{list_all};
ghost use Rattle.export_protocol.specs.Roots.{parent_of};
ghost use Rattle.export_machine.specs.Kept.{world_of, indexes_of, first_indexes};

use crate::dir_table::DirTable;
use crate::export_table::ExportTable;
use export_protocol::{ExporterState, ImporterState, JournalEntry, Message, Request};
use mds_types::{Dir, Rank};
use std::alloc::{AllocError, Global};

/// Everything that a cluster knows. The lists of directories, ranks, exports, messages and tickets go by number.
#[derive(Drop)]
pub struct Records {
    pub(crate) limit: u32,
    pub(crate) ranks: u8,
    /// A row for each directory: its parent, the rank that the map names, and what is kept with these.
    pub(crate) dirs: DirTable,
    pub(crate) journals: Vec<Vec<JournalEntry>>,
    /// A row for each export: what it moves and its states.
    pub(crate) exports: ExportTable,
    pub(crate) sent: Vec<Message>,
    pub(crate) tickets: Vec<Option<Request>>,
    pub(crate) stopped: Vec<bool>,
    pub(crate) events: u32,
    /// By directory: whether the test of a list has come across it. Between tests none has its mark.
    pub(crate) marks: Vec<bool>,
    /// By rank: the tickets of the requests that run there, and some of requests that ended.
    pub(crate) tickets_at: Vec<Vec<u32>>,
    /// By rank: how many of those requests ended.
    pub(crate) ended_at: Vec<u32>,
    /// By rank: the exports whose state there its journal doesn't hold, and some whose state it holds.
    pub(crate) open_at: Vec<Vec<u32>>,
    /// By rank: how many of those its journal holds.
    pub(crate) told_at: Vec<u32>,
}

/// An empty list for each rank.
fn empty_lists<T: Copy>(alloc: Global, ranks: u8) -> Result<Vec<Vec<T>>, AllocError>
    ensures { IfOk result (λ lists. map (λ list. list.items) lists.items ≡ replicate ranks []) }
{
    let mut lists = Vec::new(alloc);
    for _ in 0..ranks {
        lists.push(Vec::new(alloc))?;
    }
    Ok(lists)
}

/// The journals of a new cluster: rank 0 made directory 0.
fn first_journals(alloc: Global, ranks: u8) -> Result<Vec<Vec<JournalEntry>>, AllocError>
    requires { 1 ≤ ranks }
    ensures { IfOk result (λ journals. map (λ journal. journal.items) journals.items
        ≡ slice_set (replicate ranks []) 0 (JournalEntry.Made 0 ∷ [])) }
{
    let mut journals = empty_lists(alloc, ranks)?;
    journals[0].push(JournalEntry::Made(Dir::ROOT))?;
    Ok(journals)
}

fn first_rank() -> Rank
    ensures { result ≡ 0 }
{
    match Rank::new(0) {
        Some(rank) => rank,
        None => Rank::default(),
    }
}

/// What the table has at one place, or the given value past its end.
pub(crate) fn value_at<T: Copy>(table: &[T], index: usize, past_end: T) -> T
    ensures { result ≡ slice_index_or table.now index past_end }
{
    match table.get(index) {
        Some(value) => *value,
        None => past_end,
    }
}

impl Records {
    /// Directory 0 is there, and rank 0 has it.
    #[tactic(auto, unfolding(export_protocol::specs::Step::start))]
    pub(crate) fn new(alloc: Global, limit: u32, ranks: u8) -> Result<Self, AllocError>
        requires some_ranks { 1 ≤ ranks }
        ensures world { IfOk result (λ records. world_of records ≡ start limit ranks) }
        ensures indexes { IfOk result (λ records. indexes_of records ≡ first_indexes ranks) }
    {
        let journals = first_journals(alloc, ranks)?;
        Ok(Records {
            limit,
            ranks,
            dirs: DirTable::new(alloc, first_rank())?,
            journals,
            exports: ExportTable::new(alloc),
            sent: Vec::new(alloc),
            tickets: Vec::new(alloc),
            stopped: vec![in alloc; false; ranks as usize]?,
            events: 0,
            marks: vec![in alloc; false]?,
            tickets_at: empty_lists(alloc, ranks)?,
            ended_at: vec![in alloc; 0; ranks as usize]?,
            open_at: empty_lists(alloc, ranks)?,
            told_at: vec![in alloc; 0; ranks as usize]?,
        })
    }

    pub(crate) fn is_present(&self, dir: Dir) -> bool
        ensures { result ≡ is_present (world_of self.now) dir }
    {
        self.dirs.parent(dir).is_some()
    }

    pub(crate) fn are_present(&self, dirs: &[Dir]) -> bool
        ensures { result ≡ list_all (is_present (world_of self.now)) dirs.now }
    {
        dirs.iter().all(|dir| self.is_present(*dir))
    }

    pub(crate) fn parent(&self, dir: Dir) -> Option<Dir>
        ensures { result ≡ parent_of (world_of self.now) dir }
    {
        self.dirs.parent(dir)
    }

    pub(crate) fn named(&self, dir: Dir) -> Option<Rank>
        ensures { result ≡ named_of (world_of self.now) dir }
    {
        self.dirs.named(dir)
    }

    pub(crate) fn journal(&self, rank: Rank) -> &[JournalEntry]
        ensures { result.now ≡ journal_of (world_of self.now) rank }
    {
        match self.journals.get(rank.number() as usize) {
            Some(journal) => journal,
            None => &[],
        }
    }

    pub(crate) fn is_stopped(&self, rank: Rank) -> bool
        ensures { result ≡ is_stopped (world_of self.now) rank }
    {
        value_at(&self.stopped, rank.number() as usize, false)
    }

    pub(crate) fn exporter(&self, export: u32) -> ExporterState
        ensures { result ≡ exporter_of (world_of self.now) export }
    {
        self.exports.exporter(export)
    }

    pub(crate) fn importer(&self, export: u32) -> ImporterState
        ensures { result ≡ importer_of (world_of self.now) export }
    {
        self.exports.importer(export)
    }

    pub(crate) fn from(&self, export: u32) -> Rank
        requires { export < length self.now.exports.orders }
        ensures { result ≡ from_of (world_of self.now) export }
    {
        self.exports.order(export).from
    }

    pub(crate) fn to(&self, export: u32) -> Rank
        requires { export < length self.now.exports.orders }
        ensures { result ≡ to_of (world_of self.now) export }
    {
        self.exports.order(export).to
    }

    pub(crate) fn dirs(&self, export: u32) -> &[Dir]
        requires { export < length self.now.exports.orders }
        ensures { result.now ≡ (order_in (world_of self.now).orders export).dirs }
    {
        self.exports.order(export).dirs.as_slice()
    }
}
