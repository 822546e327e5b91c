//! What a share counts, by entry. A directory has two: one for reads, one for writes.
//!
//! An entry gets a place at its first count, one for all three counts. What is done with all counts takes time for
//! the entries that were counted, and not for all that there could be.
ghost use Rattle.std.specs.Prelude.{◌≡◌, ℕ, ◌+◌, ◌^◌, ◌<◌, ◌≤◌, IfOk, List, length, map, vec_capacity, vec_len};
ghost use Rattle.heat_ledger.specs.Rows.{at, raised_by, dir_row, IsZero};
ghost use Rattle.heat_ledger.specs.Placed.{AreKeptCounts, data_of};
ghost use Rattle.heat_ledger.specs.Touched.{IsTracked, pair_sums};

use crate::dir_hits::{DirHits, entry_of};
use crate::places::{EntryCounts, KeptCounts};
use mds_types::{Dir, Kind};
use std::alloc::{AllocError, Global};
use std::marker::Model;

/// The hits, the pending hits and the begun requests of each entry below a limit.
#[derive(Drop)]
pub(crate) struct Counts {
    kept: KeptCounts,
    // The entries that have pending hits, in the order of their first ones.
    unsettled: Vec<u32>,
}

impl Model for Counts {
    ghost use Rattle.std.specs.Prelude.{◌≤◌, vec_capacity};
    ghost use Rattle.heat_ledger.specs.Counts.{CountsData};
    ghost use Rattle.heat_ledger.specs.Placed.{AreKeptCounts, data_of};
    ghost use Rattle.heat_ledger.specs.Touched.{IsTracked};

    ghost Value = { CountsData };

    ghost view = { λ counts. data_of counts.kept };

    ghost invariant = { λ counts. AreKeptCounts counts.kept
        × IsTracked (data_of counts.kept).pending counts.unsettled.items
        × (counts.kept.limit ≤ vec_capacity counts.unsettled) };
}

impl Counts {
    ghost use Rattle.std.specs.Prelude.{◌≡◌, ℕ, ◌+◌, ◌^◌, ◌<◌, ◌↔◌, IsTrue, IfOk, length, replicate};
    ghost use Rattle.heat_ledger.specs.Rows.{at, sums, raised_by, counted_rows, IsZero};
    ghost use Rattle.heat_ledger.specs.Counts.{AreAsLong, DoFit, counts_of, no_counts, sum_counts, with_more};

    /// Nothing is counted.
    pub(crate) fn new(alloc: Global, limit: u32) -> Result<Counts, AllocError>
        ensures { IfOk result (λ counts. counts ≡ no_counts limit) }
    {
        let kept = KeptCounts::new(alloc, limit)?;
        let unsettled = Vec::with_capacity(alloc, limit as usize)?;
        Ok(Counts { kept, unsettled })
    }

    /// How many entries there are room for.
    pub(crate) fn len(&self) -> usize
        ensures hits { result ≡ length self.now.hits }
        ensures pending { result ≡ length self.now.pending }
        ensures begun { result ≡ length self.now.begun }
    {
        self.kept.limit as usize
    }

    /// What is counted of an entry.
    pub(crate) fn of(&self, entry: usize) -> EntryCounts
        ensures { result ≡ counts_of self.now entry }
    {
        self.kept.of(entry)
    }

    /// Adds these counts of an entry.
    fn add(&mut self, entry: usize, more: EntryCounts)
        requires inside { entry < length self.old.hits }
        requires fits { DoFit (counts_of self.old entry) more }
        ensures { self.new ≡ with_more self.old entry more }
    {
        let had = self.kept.add(entry as u32, more);
        note(&mut self.unsettled, entry as u32, had.pending, more.pending);
    }

    /// Adds `more` hits of an entry, which are pending.
    pub(crate) fn add_hits(&mut self, entry: usize, more: u64)
        requires inside { entry < length self.old.hits }
        requires fits { (at self.old.hits entry + more < 2 ^ 64) × (at self.old.pending entry + more < 2 ^ 64) }
        ensures { self.new ≡ record self.old {
          hits = raised_by self.old.hits entry more;
          pending = raised_by self.old.pending entry more;
        } }
    {
        self.add(
            entry,
            EntryCounts {
                hits: more,
                pending: more,
                begun: 0,
            },
        );
    }

    /// Adds a begun request of an entry.
    pub(crate) fn add_begun(&mut self, entry: usize)
        requires inside { entry < length self.old.hits }
        requires fits { at self.old.begun entry + 1 < 2 ^ 64 }
        ensures { self.new ≡ record self.old { begun = raised_by self.old.begun entry 1 } }
    {
        self.add(
            entry,
            EntryCounts {
                hits: 0,
                pending: 0,
                begun: 1,
            },
        );
    }

    /// Whether no entry has pending hits.
    pub(crate) fn is_settled(&self) -> bool
        ensures { IsTrue result ↔ IsZero self.now.pending }
    {
        self.unsettled.is_empty()
    }

    /// The directories that have pending hits, rising, each with their reads and writes.
    pub(crate) fn pending_rows(&self, alloc: Global) -> Result<Vec<DirHits>, AllocError>
        requires { (n : ℕ) × (length self.now.pending ≡ n + n) }
        ensures { IfOk result (λ rows. rows.items ≡ counted_rows self.now.pending) }
    {
        let mut dirs = dirs_of(alloc, self.unsettled.as_slice(), self)?;
        dirs.sort_unstable();
        with_pending(alloc, dirs.as_slice(), self)
    }

    /// Adds the pending hits to a list, and makes them 0.
    pub(crate) fn settle(&mut self, into: &mut Vec<u64>)
        requires lengths { length into.old.items ≡ length self.old.pending }
        requires fits { (dir : ℕ) → at into.old.items dir + at self.old.pending dir < 2 ^ 64 }
        ensures into { into.new.items ≡ sums into.old.items self.old.pending }
        ensures zero { self.new ≡ record self.old { pending = replicate (length self.old.pending) 0 } }
    {
        move_all(into, &mut self.kept, &self.unsettled);
        self.unsettled.clear();
    }

    /// Adds the counts of another share to this one's.
    pub(crate) fn join(&mut self, other: Counts)
        requires lengths { AreAsLong self.old other }
        requires fits { (e : ℕ) → DoFit (counts_of self.old e) (counts_of other e) }
        ensures { self.new ≡ sum_counts self.old other }
    {
        for j in 0..other.kept.entries.len() {
            let entry = other.kept.entries[j] as usize;
            self.add(entry, other.of(entry));
        }
    }
}

// Notes an entry whose count is 0 and rises.
fn note(noted: &mut Vec<u32>, entry: u32, count: u64, more: u64)
    requires room { count ≡ 0 → vec_len noted.old < vec_capacity noted.old }
    ensures tracked { (counts : List ℕ) → IsTracked counts noted.old.items → entry < length counts
        → at counts entry ≡ count → IsTracked (raised_by counts entry more) noted.new.items }
    ensures capacity { vec_capacity noted.new ≡ vec_capacity noted.old }
{
    if count == 0 && more > 0 {
        noted.push_reserved(entry);
    }
}

// Moves the pending hits of the entries that have some.
fn move_all(into: &mut Vec<u64>, kept: &mut KeptCounts, touched: &Vec<u32>)
    requires kept { AreKeptCounts kept.old }
    requires length { kept.old.limit ≤ length into.old.items }
    requires fits { (e : ℕ) → at into.old.items e + at (data_of kept.old).pending e < 2 ^ 64 }
    requires tracked { IsTracked (data_of kept.old).pending touched.now.items }
    ensures kept { AreKeptCounts kept.new }
    ensures limit { kept.new.limit ≡ kept.old.limit }
    ensures sums { (e : ℕ) → at into.new.items e ≡ at into.old.items e + at (data_of kept.old).pending e }
    ensures zero { IsZero (data_of kept.new).pending }
    ensures others { ((data_of kept.new).hits ≡ (data_of kept.old).hits)
        × ((data_of kept.new).begun ≡ (data_of kept.old).begun) }
    ensures length { length into.new.items ≡ length into.old.items }
{
    for j in 0..touched.len() {
        let entry = touched[j];
        into[entry as usize] += kept.take_pending(entry);
    }
}

// The directories of these entries, each once: a directory's writes name it where it has no reads.
fn dirs_of(alloc: Global, entries: &[u32], counts: &Counts) -> Result<Vec<u32>, AllocError>
    requires { (n : ℕ) × (length counts.now.pending ≡ n + n) }
    ensures { IfOk result (λ dirs. IsTracked counts.now.pending entries.now
        → IsTracked (pair_sums counts.now.pending) dirs.items) }
{
    let mut dirs = Vec::with_capacity(alloc, entries.len())?;
    for entry in entries {
        let is_write = entry % 2 == 1;
        if !is_write || counts.of(*entry as usize - 1).pending == 0 {
            dirs.push(entry / 2)?;
        }
    }
    Ok(dirs)
}

// These directories, each with its pending reads and writes.
fn with_pending(alloc: Global, dirs: &[u32], counts: &Counts) -> Result<Vec<DirHits>, AllocError>
    ensures { IfOk result (λ rows. rows.items ≡ map (dir_row counts.now.pending) dirs.now) }
{
    let mut rows = Vec::with_capacity(alloc, dirs.len())?;
    for dir in dirs {
        let dir = Dir::new(*dir);
        rows.push(DirHits {
            dir,
            reads: counts.of(entry_of(dir, Kind::Read)).pending,
            writes: counts.of(entry_of(dir, Kind::Write)).pending,
        })?;
    }
    Ok(rows)
}
